ghost use Rattle.std.specs.Prelude.{◌≡◌, ℕ, List, Option};
ghost use Rattle.gw_messages.specs.model.Bodies.{Body, IsBody};

/// What stands where a body begins is one thing only: one body with what follows it, one fault, or a part of a body.
#[tactic(auto, using(crate::proofs::BodyLaws::body_unique))]
pub fn one_body()
    ensures { (room most : ℕ) (size : Option ℕ) (bytes : List ℕ) (a b : Body)
        → IsBody room most size bytes a → IsBody room most size bytes b → a ≡ b }
{}

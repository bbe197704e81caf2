ghost use Rattle.std.specs.Prelude.{◌≡◌, ℕ, List, Bool};
ghost use Rattle.gw_replies.specs.model.Responses.{Outcome, ResponseOf};

/// The bytes of a backend come to one outcome only: more are needed, one response, or one fault.
#[tactic(auto, using(crate::proofs::ResponseLaws::outcome_unique))]
pub fn one_outcome()
    ensures { (to_head : Bool) (bytes : List ℕ) (ended : Bool) (a b : Outcome)
        → ResponseOf to_head bytes ended a → ResponseOf to_head bytes ended b → a ≡ b }
{}

//! Laws: the stamps that changes leave hold since when each condition has its status, and names are the same only where they are equal.
ghost use Rattle.gw_stamp.specs.Names.{AreSameIfEqual};
ghost use Rattle.gw_stamp.specs.Since.{HoldsSince, StaysSince};

/// The stamps after any list of changes, each of which was stated by what it changes, hold exactly the conditions that are there after the
/// last one, each with the moment of the first change after which, and after every later one, it is there with the status that it has then.
#[tactic(auto, using(crate::proofs::Holding::hold_since))]
pub fn stamps_hold_since()
    ensures { HoldsSince }
{}

/// One more change keeps it so.
#[tactic(auto, using(crate::proofs::Holding::stay_since))]
pub fn stamps_stay_since()
    ensures { StaysSince }
{}

/// Names are the same, in the order in which conditions are kept, only where they are equal.
#[tactic(auto, using(crate::proofs::Ties::same_if_equal))]
pub fn names_are_same_if_equal()
    ensures { AreSameIfEqual }
{}

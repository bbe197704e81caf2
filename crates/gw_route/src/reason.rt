ghost use Rattle.std.specs.Prelude.{◌≡◌};
ghost use Rattle.gw_route.specs.Reasons.{condition_of};

use gw_text::{CondKind, Condition, Reason};

/// Why a Route is accepted at a Gateway, or refused.
#[derive(Clone, Copy, Debug, PartialEq, Eq)]
pub enum RouteReason {
    Accepted,
    NoMatchingParent,
    NotAllowedByListeners,
    NoMatchingListenerHostname,
    UnsupportedValue,
    IncompatibleFilters,
}

impl RouteReason {
    /// The condition Accepted that has this reason.
    pub fn condition(self) -> Condition
        ensures { result ≡ condition_of self }
    {
        let refused = |reason| Condition::false_by(CondKind::Accepted, reason);
        match self {
            RouteReason::Accepted => Condition::true_by(CondKind::Accepted, Reason::Accepted),
            RouteReason::NoMatchingParent => refused(Reason::NoMatchingParent),
            RouteReason::NotAllowedByListeners => refused(Reason::NotAllowedByListeners),
            RouteReason::NoMatchingListenerHostname => refused(Reason::NoMatchingListenerHostname),
            RouteReason::UnsupportedValue => refused(Reason::UnsupportedValue),
            RouteReason::IncompatibleFilters => refused(Reason::IncompatibleFilters),
        }
    }
}

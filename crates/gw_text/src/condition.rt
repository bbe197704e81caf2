ghost use Rattle.std.specs.Prelude.{◌≡◌};
ghost use Rattle.gw_text.specs.model.Conditions.{true_by, false_by, condition_kind_text, reason_text};

use std::marker::Model;

/// The type of a condition.
#[derive(Clone, Copy, Debug, PartialEq, Eq)]
pub enum CondKind {
    Accepted,
    Conflicted,
    Programmed,
    ResolvedRefs,
}

impl CondKind {
    /// As it is written in a status.
    pub fn text(self) -> &'static str
        ensures { result.now ≡ condition_kind_text self }
    {
        match self {
            CondKind::Accepted => "Accepted",
            CondKind::Conflicted => "Conflicted",
            CondKind::Programmed => "Programmed",
            CondKind::ResolvedRefs => "ResolvedRefs",
        }
    }
}

/// Why a condition is True or False.
#[derive(Clone, Copy, Debug, PartialEq, Eq)]
pub enum Reason {
    Accepted,
    AddressNotAssigned,
    AddressNotUsable,
    BackendNotFound,
    HostnameConflict,
    IncompatibleFilters,
    Invalid,
    InvalidKind,
    InvalidParameters,
    InvalidRouteKinds,
    ListenersNotValid,
    NoConflicts,
    NoMatchingListenerHostname,
    NoMatchingParent,
    NotAllowedByListeners,
    PortUnavailable,
    Programmed,
    ProtocolConflict,
    RefNotPermitted,
    ResolvedRefs,
    UnsupportedAddress,
    UnsupportedProtocol,
    UnsupportedValue,
}

impl Reason {
    /// As it is written in a status.
    #[tactic(auto, unfolding(crate::specs::model::Conditions::reason_text))]
    pub fn text(self) -> &'static str
        ensures { result.now ≡ reason_text self }
    {
        match self {
            Reason::Accepted => "Accepted",
            Reason::AddressNotAssigned => "AddressNotAssigned",
            Reason::AddressNotUsable => "AddressNotUsable",
            Reason::BackendNotFound => "BackendNotFound",
            Reason::HostnameConflict => "HostnameConflict",
            Reason::IncompatibleFilters => "IncompatibleFilters",
            Reason::Invalid => "Invalid",
            Reason::InvalidKind => "InvalidKind",
            Reason::InvalidParameters => "InvalidParameters",
            Reason::InvalidRouteKinds => "InvalidRouteKinds",
            Reason::ListenersNotValid => "ListenersNotValid",
            Reason::NoConflicts => "NoConflicts",
            Reason::NoMatchingListenerHostname => "NoMatchingListenerHostname",
            Reason::NoMatchingParent => "NoMatchingParent",
            Reason::NotAllowedByListeners => "NotAllowedByListeners",
            Reason::PortUnavailable => "PortUnavailable",
            Reason::Programmed => "Programmed",
            Reason::ProtocolConflict => "ProtocolConflict",
            Reason::RefNotPermitted => "RefNotPermitted",
            Reason::ResolvedRefs => "ResolvedRefs",
            Reason::UnsupportedAddress => "UnsupportedAddress",
            Reason::UnsupportedProtocol => "UnsupportedProtocol",
            Reason::UnsupportedValue => "UnsupportedValue",
        }
    }
}

/// A condition of a status.
#[derive(Clone, Copy, Debug, PartialEq, Eq)]
pub struct Condition {
    pub kind: CondKind,
    /// Whether the condition's status is True.
    pub truth: bool,
    pub reason: Reason,
}

impl Model for Condition {
    ghost use Rattle.gw_text.specs.model.Conditions.{Condition as Plain};

    ghost Value = { Plain };

    ghost view = { λ c. record { kind = c.kind; truth = c.truth; reason = c.reason } };

    ghost inverse = { λ c. record { kind = c.kind; truth = c.truth; reason = c.reason } };
}

impl Condition {
    /// A condition that is True.
    pub fn true_by(kind: CondKind, reason: Reason) -> Self
        ensures { result ≡ true_by kind reason }
    {
        Condition {
            kind,
            truth: true,
            reason,
        }
    }

    /// A condition that is False.
    pub fn false_by(kind: CondKind, reason: Reason) -> Self
        ensures { result ≡ false_by kind reason }
    {
        Condition {
            kind,
            truth: false,
            reason,
        }
    }
}

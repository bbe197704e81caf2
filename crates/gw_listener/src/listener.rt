ghost use Rattle.std.specs.Prelude.{◌≡◌, ℕ, IfOk};
ghost use Rattle.gw_text.specs.model.Hostnames.{same_hostname};
ghost use Rattle.gw_text.specs.model.Listeners as rules;

use crate::address::has_address_fault;
use gw_objects::{Gateway, Listener};
use gw_status::{CondKind, Condition, ListenerState, Reason};
use gw_text::{Doors, Host, List, NoMemory, Protocol};
use std::alloc::Global;

/// The states of a Gateway's listeners, in list order.
pub type ListenerStates = List<ListenerState>;

fn is_over_tcp(listener: &Listener) -> bool
    ensures { result ≡ rules.is_over_tcp listener.now }
{
    match &listener.protocol {
        Protocol::Https | Protocol::Tls | Protocol::Tcp => true,
        Protocol::Http | Protocol::Other(_) => false,
    }
}

fn have_same_hostname(a: &Option<Host>, b: &Option<Host>) -> bool
    ensures { result ≡ same_hostname a.now b.now }
{
    match (a, b) {
        (None, None) => true,
        (Some(a), Some(b)) => a.wild == b.wild && a.text == b.text,
        _ => false,
    }
}

// Two listeners on one port, of which one is HTTP and the other HTTPS, TLS or TCP.
fn have_protocol_conflict(listener: &Listener, other: &Listener) -> bool
    ensures { result ≡ rules.have_protocol_conflict listener.now other.now }
{
    listener.port == other.port
        && (listener.is_http() && is_over_tcp(other) || is_over_tcp(listener) && other.is_http())
}

// Two HTTP listeners on one port with one hostname.
fn have_hostname_conflict(listener: &Listener, other: &Listener) -> bool
    ensures { result ≡ rules.have_hostname_conflict listener.now other.now }
{
    listener.port == other.port
        && listener.is_http()
        && other.is_http()
        && have_same_hostname(&listener.hostname, &other.hostname)
}

fn has_protocol_conflict(all: &[Listener], place: usize, listener: &Listener) -> bool
    ensures { result ≡ rules.some_other rules.have_protocol_conflict place listener.now all.now }
{
    all.iter().enumerate().any(|(at, other)| at != place && have_protocol_conflict(listener, other))
}

fn has_hostname_conflict(all: &[Listener], place: usize, listener: &Listener) -> bool
    ensures { result ≡ rules.some_other rules.have_hostname_conflict place listener.now all.now }
{
    all.iter().enumerate().any(|(at, other)| at != place && have_hostname_conflict(listener, other))
}

// All listeners of a conflict are conflicted.
#[tactic(auto, unfolding(gw_text::specs::model::Listeners::conflicted_of))]
fn conflicted(gateway: &Gateway, place: usize, listener: &Listener) -> Condition
    ensures { result ≡ rules.conflicted_of gateway.now place listener.now }
{
    let all = gateway.listeners.as_slice();
    if has_protocol_conflict(all, place, listener) {
        Condition::true_by(CondKind::Conflicted, Reason::ProtocolConflict)
    } else if has_hostname_conflict(all, place, listener) {
        Condition::true_by(CondKind::Conflicted, Reason::HostnameConflict)
    } else {
        Condition::false_by(CondKind::Conflicted, Reason::NoConflicts)
    }
}

#[tactic(auto, unfolding(gw_text::specs::model::Listeners::has_unsupported_kind))]
fn has_unsupported_kind(listener: &Listener) -> bool
    ensures { result ≡ rules.has_unsupported_kind listener.now }
{
    let http = listener.is_http();
    listener
        .allowed_routes
        .kinds
        .iter()
        .any(|kind| !(http && kind.is_http_route()))
}

// Accepted of the listener whose Conflicted is known.
#[tactic(auto, unfolding(gw_text::specs::model::Listeners::listener_accepted_of))]
fn accepted(
    doors: &Doors,
    gateway: &Gateway,
    listener: &Listener,
    conflicted: Condition,
) -> Condition
    ensures { (place : ℕ) → conflicted ≡ rules.conflicted_of gateway.now place listener.now →
        result ≡ rules.listener_accepted_of doors.now gateway.now place listener.now }
{
    if conflicted.truth {
        Condition::false_by(CondKind::Accepted, conflicted.reason)
    } else if !listener.is_http() {
        Condition::false_by(CondKind::Accepted, Reason::UnsupportedProtocol)
    } else if !doors.has_port(&gateway.meta.key, listener.port) {
        Condition::false_by(CondKind::Accepted, Reason::PortUnavailable)
    } else {
        Condition::true_by(CondKind::Accepted, Reason::Accepted)
    }
}

#[tactic(auto, unfolding(gw_text::specs::model::Listeners::resolved_of))]
fn resolved(listener: &Listener) -> Condition
    ensures { result ≡ rules.resolved_of listener.now }
{
    if has_unsupported_kind(listener) {
        Condition::false_by(CondKind::ResolvedRefs, Reason::InvalidRouteKinds)
    } else {
        Condition::true_by(CondKind::ResolvedRefs, Reason::ResolvedRefs)
    }
}

// Programmed of the listener whose Accepted is known.
#[tactic(auto, unfolding(gw_text::specs::model::Listeners::listener_programmed_of))]
fn programmed(
    doors: &Doors,
    gateway: &Gateway,
    listener: &Listener,
    accepted: Condition,
) -> Condition
    ensures { (place : ℕ) → accepted ≡ rules.listener_accepted_of doors.now gateway.now place listener.now →
        result ≡ rules.listener_programmed_of doors.now gateway.now place listener.now }
{
    if accepted.truth && listener.supports_http_route() && !has_address_fault(doors, gateway) {
        Condition::true_by(CondKind::Programmed, Reason::Programmed)
    } else {
        Condition::false_by(CondKind::Programmed, Reason::Invalid)
    }
}

#[tactic(auto, unfolding(gw_text::specs::model::Listeners::listener_state))]
fn listener_state(
    doors: &Doors,
    gateway: &Gateway,
    place: usize,
    listener: &Listener,
) -> ListenerState
    ensures { result ≡ rules.listener_state doors.now gateway.now place listener.now }
{
    let conflicted = conflicted(gateway, place, listener);
    let accepted = accepted(doors, gateway, listener, conflicted);
    ListenerState {
        accepted,
        conflicted,
        resolved: resolved(listener),
        programmed: programmed(doors, gateway, listener, accepted),
        http: listener.supports_http_route(),
    }
}

/// The states of the Gateway's listeners, in list order.
#[tactic(auto, unfolding(gw_text::specs::model::Listeners::listener_states))]
pub fn listener_states(
    alloc: Global,
    gateway: &Gateway,
    doors: &Doors,
) -> Result<ListenerStates, NoMemory>
    ensures { IfOk result (λ states. states ≡ rules.listener_states doors.now gateway.now) }
{
    let mut states = ListenerStates::new(alloc);
    'listeners: for (place, listener) in gateway.listeners.iter().enumerate() {
        states.push(listener_state(doors, gateway, place, listener))?;
    }
    Ok(states)
}

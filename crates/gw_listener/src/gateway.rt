ghost use Rattle.std.specs.Prelude.{◌≡◌, ℕ, List};
ghost use Rattle.std.specs.List.{list_any, list_all};
ghost use Rattle.gw_text.specs.model.Doors.{Door as PlainDoor};
ghost use Rattle.gw_text.specs.model.Listeners as rules;

use crate::address::{has_unsupported_address, has_unusable_address};
use crate::listener::ListenerStates;
use gw_objects::Gateway;
use gw_status::{CondKind, Condition, GatewayState, ListenerState, Reason};
use gw_text::Doors;

fn is_some_accepted(states: &[ListenerState]) -> bool
    ensures { result ≡ list_any (λ s. s.accepted.truth) states.now }
{
    states.iter().any(|state| state.accepted.truth)
}

fn are_all_accepted(states: &[ListenerState]) -> bool
    ensures { result ≡ list_all (λ s. s.accepted.truth) states.now }
{
    states.iter().all(|state| state.accepted.truth)
}

fn is_some_programmed(states: &[ListenerState]) -> bool
    ensures { result ≡ list_any (λ s. s.programmed.truth) states.now }
{
    states.iter().any(|state| state.programmed.truth)
}

// Accepted of the Gateway whose listeners have these states.
#[tactic(auto, unfolding(gw_text::specs::model::Listeners::gateway_accepted_of))]
fn accepted(gateway: &Gateway, states: &[ListenerState]) -> Condition
    ensures { (doors : List PlainDoor) → states.now ≡ rules.listener_states doors gateway.now →
        result ≡ rules.gateway_accepted_of doors gateway.now }
{
    if has_unsupported_address(gateway) {
        Condition::false_by(CondKind::Accepted, Reason::UnsupportedAddress)
    } else if !is_some_accepted(states) {
        Condition::false_by(CondKind::Accepted, Reason::ListenersNotValid)
    } else if !are_all_accepted(states) {
        Condition::true_by(CondKind::Accepted, Reason::ListenersNotValid)
    } else {
        Condition::true_by(CondKind::Accepted, Reason::Accepted)
    }
}

// Programmed of the Gateway whose listeners have these states and whose Accepted is known.
#[tactic(auto, unfolding(gw_text::specs::model::Listeners::gateway_programmed_of))]
fn programmed(
    doors: &Doors,
    gateway: &Gateway,
    states: &[ListenerState],
    accepted: Condition,
) -> Condition
    requires states { states.now ≡ rules.listener_states doors.now gateway.now }
    requires accepted { accepted ≡ rules.gateway_accepted_of doors.now gateway.now }
    ensures { result ≡ rules.gateway_programmed_of doors.now gateway.now }
{
    if doors.first(&gateway.meta.key).is_none() {
        Condition::false_by(CondKind::Programmed, Reason::AddressNotAssigned)
    } else if has_unusable_address(doors, gateway) {
        Condition::false_by(CondKind::Programmed, Reason::AddressNotUsable)
    } else if !(accepted.truth && is_some_programmed(states)) {
        Condition::false_by(CondKind::Programmed, Reason::Invalid)
    } else {
        Condition::true_by(CondKind::Programmed, Reason::Programmed)
    }
}

/// The state of a Gateway, of whose listeners these are the states.
#[tactic(auto, unfolding(gw_text::specs::model::Listeners::gateway_state))]
pub fn gateway_state(gateway: &Gateway, doors: &Doors, states: &ListenerStates) -> GatewayState
    requires { states.now ≡ rules.listener_states doors.now gateway.now }
    ensures { result ≡ rules.gateway_state doors.now gateway.now }
{
    let states = states.as_slice();
    let accepted = accepted(gateway, states);
    let programmed = programmed(doors, gateway, states, accepted);
    let address = match doors.first(&gateway.meta.key) {
        Some(door) if programmed.truth => Some(door.at),
        _ => None,
    };
    GatewayState {
        accepted,
        programmed,
        address,
    }
}

ghost use Rattle.std.specs.Prelude.{◌≡◌, ◌+◌, ◌<◌, ℕ, IfOk, OnOk, length, map, get_or};
ghost use Rattle.std.specs.List.{enumerate_from};
ghost use Rattle.gw_text.specs.model.Listeners as rules;
ghost use Rattle.gw_text.specs.model.Statuses as statuses;
ghost use Rattle.gw_text.specs.model.World.{gateway_key};
ghost use Rattle.gw_eval.specs.Counting.{AreRows, AreNumbers};

use crate::attached::Counts;
use crate::classes::is_managed;
use gw_listener::{gateway_state, listener_states};
use gw_objects::{Gateway, Listener};
use gw_status::{
    GatewayStatus, GatewayStatuses, ListenerState, ListenerStatus, ListenerStatuses, Shared,
};
use gw_store::World;
use gw_text::{Doors, NoMemory, Steps, Text};
use std::alloc::Global;
use std::sync::ledger::Ledger;

fn listener_status(
    alloc: Global,
    listener: &Listener,
    state: &ListenerState,
    attached: u64,
) -> Result<ListenerStatus, NoMemory>
    ensures { IfOk result (λ status. status ≡ record { name = listener.now.name; state = state.now; attached = attached }) }
{
    Ok(ListenerStatus {
        name: listener.name.copy(alloc)?,
        state: *state,
        attached,
    })
}

// The statuses of listeners that have these states and numbers.
#[tactic(auto, using(crate::proofs::Rows::states_length, crate::proofs::Rows::state_at))]
fn listener_statuses(
    alloc: Global,
    doors: &Doors,
    gateway: &Gateway,
    states: &[ListenerState],
    attached: &[u64],
) -> Result<ListenerStatuses, NoMemory>
    requires states { states.now ≡ rules.listener_states doors.now gateway.now }
    requires attached { length attached.now ≡ length gateway.now.listeners }
    ensures { IfOk result (λ all. all ≡ map (λ l. record { name = l.1.name; state = rules.listener_state doors.now gateway.now l.0 l.1; attached = get_or attached.now l.0 0 })
        (enumerate_from 0 gateway.now.listeners)) }
{
    let mut all = ListenerStatuses::new(alloc);
    'listeners: for (place, listener) in gateway.listeners.iter().enumerate() {
        all.push(listener_status(alloc, listener, &states[place], attached[place])?)?;
    }
    Ok(all)
}

/// The status of a Gateway, to whose listeners so many Routes are attached.
#[tactic(auto, using(crate::proofs::Rows::statuses_with), unfolding(gw_text::specs::model::Statuses::gateway_status_of))]
pub fn gateway_status(
    alloc: Global,
    controller: &Text,
    doors: &Doors,
    world: &World,
    gateway: &Gateway,
    attached: &[u64],
) -> Result<GatewayStatus, NoMemory>
    requires length { length attached.now ≡ length gateway.now.listeners }
    requires numbers { (place : ℕ) → place < length attached.now →
        get_or attached.now place 0 ≡ statuses.attached_at controller.now world.now.world gateway.now.meta.key place }
    ensures { IfOk result (λ status. status ≡ statuses.gateway_status_of doors.now controller.now world.now.world gateway.now) }
{
    let states = listener_states(alloc, gateway, doors)?;
    Ok(GatewayStatus {
        key: gateway.meta.key.copy(alloc)?,
        state: gateway_state(gateway, doors, &states),
        listeners: listener_statuses(alloc, doors, gateway, states.as_slice(), attached)?,
    })
}

/// The statuses of the managed Gateways, in key order. A step for each Gateway, managed or not.
#[tactic(auto, using(crate::proofs::Rows::row_length, crate::proofs::Rows::rows_length))]
pub fn gateway_statuses<L: Ledger>(
    alloc: Global,
    controller: &Text,
    doors: &Doors,
    world: &World,
    counts: &Counts,
    steps: &mut Steps<L>,
) -> Result<GatewayStatuses, NoMemory>
    requires rows { AreRows world.now.world counts.now }
    requires numbers { AreNumbers world.now.world counts.now (λ s place. statuses.attached_at controller.now world.now.world (gateway_key s.object) place) }
    ensures statuses { IfOk result (λ all. all ≡ statuses.gateway_statuses_of doors.now controller.now world.now.world) }
    ensures steps { OnOk result (steps.new ≡ steps.old + length world.now.world.gateways) }
{
    let mut all = Vec::new(alloc);
    'gateways: for (place, gateway) in world.gateways().iter().enumerate() {
        steps.tick();
        if is_managed(alloc, controller, world, gateway)? {
            let attached = counts.of_gateway(place);
            let status = gateway_status(alloc, controller, doors, world, gateway, attached)?;
            all.push(Shared::new(alloc, status)?)?;
        }
    }
    GatewayStatuses::from_vec(alloc, all)
}

//! The listeners of a door at which requests are taken.
ghost use Rattle.std.specs.Prelude.{◌≡◌, ◌==◌, ◌&&◌, ◌++◌, ◌∷◌, [], true, if◌then◌else◌, IfOk, OnOk};
ghost use Rattle.gw_text.specs.model.Listeners as rules;
ghost use Rattle.gw_rows.specs.model.DoorRows as rows;

use crate::entries::managed_position;
use gw_listener::{gateway_state, listener_states};
use gw_objects::{Gateway, Listener};
use gw_rows::ServedListener;
use gw_status::ListenerState;
use gw_store::World;
use gw_text::{Door, Doors, Host, NoMemory, Text};
use std::alloc::{AllocError, Global};

/// A place in a list as rows have it. Memory for a list with more places than that can't be had.
pub fn number(place: usize) -> Result<u32, NoMemory>
    ensures { IfOk result (λ n. n ≡ place) }
{
    u32::try_from(place).map_err(|_| AllocError)
}

/// The same hostname once more, or none.
pub fn copy_hostname(alloc: Global, hostname: &Option<Host>) -> Result<Option<Host>, NoMemory>
    ensures { IfOk result (λ copy. copy ≡ hostname.now) }
{
    match hostname {
        Some(host) => Ok(Some(host.copy(alloc)?)),
        None => Ok(None),
    }
}

fn served_listener(
    alloc: Global,
    place: usize,
    listener: &Listener,
) -> Result<ServedListener, NoMemory>
    ensures { IfOk result (λ served. served ≡ rows.served_listener place listener.now) }
{
    Ok(ServedListener {
        number: number(place)?,
        name: listener.name.text().copy(alloc)?,
        hostname: copy_hostname(alloc, &listener.hostname)?,
        port: listener.port,
    })
}

// Whether a listener in this state is served at the door, if its Gateway is programmed.
fn is_served(door: &Door, listener: &Listener, state: &ListenerState) -> bool
    ensures { result ≡ ((listener.now.port == door.now.port) && state.now.programmed.truth) }
{
    listener.port == door.port && state.programmed.truth
}

fn push_served(
    alloc: Global,
    all: &mut Vec<ServedListener>,
    place: usize,
    listener: &Listener,
    is_served: bool,
) -> Result<(), NoMemory>
    ensures { OnOk result (all.new.items ≡ all.old.items ++ (if is_served then rows.served_listener place listener.now ∷ [] else [])) }
{
    if is_served {
        all.push(served_listener(alloc, place, listener)?)?;
    }
    Ok(())
}

// The listeners of a programmed Gateway that have these states and are served at the door.
#[tactic(auto, using(crate::proofs::Rows::states_length), unfolding(gw_rows::specs::model::DoorRows::served_by))]
fn served_among(
    alloc: Global,
    doors: &Doors,
    door: &Door,
    gateway: &Gateway,
    states: &[ListenerState],
) -> Result<Vec<ServedListener>, NoMemory>
    requires states { states.now ≡ rules.listener_states doors.now gateway.now }
    requires programmed { (rules.gateway_state doors.now gateway.now).programmed.truth ≡ true }
    ensures { IfOk result (λ all. all.items ≡ rows.served_by doors.now door.now gateway.now) }
{
    let mut all = Vec::new(alloc);
    'listeners: for (place, listener) in gateway.listeners.iter().enumerate() {
        let is_served = is_served(door, listener, &states[place]);
        push_served(alloc, &mut all, place, listener, is_served)?;
    }
    Ok(all)
}

// The served listeners of a Gateway at a door.
#[tactic(auto, using(crate::proofs::Serving::none_served))]
fn served_by(
    alloc: Global,
    doors: &Doors,
    door: &Door,
    gateway: &Gateway,
) -> Result<Vec<ServedListener>, NoMemory>
    ensures { IfOk result (λ all. all.items ≡ rows.served_by doors.now door.now gateway.now) }
{
    let states = listener_states(alloc, gateway, doors)?;
    if !gateway_state(gateway, doors, &states).programmed.truth {
        return Ok(Vec::new(alloc));
    }
    served_among(alloc, doors, door, gateway, states.as_slice())
}

/// The served listeners of a door.
#[tactic(auto, unfolding(gw_rows::specs::model::DoorRows::served_at))]
pub fn served_listeners(
    alloc: Global,
    controller: &Text,
    doors: &Doors,
    world: &World,
    door: &Door,
) -> Result<Vec<ServedListener>, NoMemory>
    ensures { IfOk result (λ all. all.items ≡ rows.served_at doors.now controller.now world.now.world door.now) }
{
    match managed_position(alloc, controller, world, &door.gateway)? {
        Some(place) => served_by(alloc, doors, door, &world.gateways()[place]),
        None => Ok(Vec::new(alloc)),
    }
}

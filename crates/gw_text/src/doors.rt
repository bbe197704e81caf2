ghost use Rattle.std.specs.Prelude.{◌≡◌, [], None, IfOk, IfErr, OnOk};
ghost use Rattle.std.specs.List.{list_any};
ghost use Rattle.std.specs.Option.{option_copied};
ghost use Rattle.gw_text.specs.DoorFaults.{seen};
ghost use Rattle.gw_text.specs.declared.doors.DoorFault.TheVariants.{NoMemory as Starved};
ghost use Rattle.gw_text.specs.model.Doors as model;

use crate::door::Door;
use crate::key::Key;
use std::alloc::{AllocError, AllocFailed, Global};
use std::marker::Model;

// The doors that there may be.
const MOST: usize = 64;

/// Why doors were refused.
#[derive(Clone, Copy, Debug, PartialEq, Eq)]
pub enum DoorFault {
    /// There are more than 64.
    TooManyDoors,
    /// Two of one Gateway differ in address.
    TwoAddresses,
    /// Two are of one Gateway and listener port, or have one socket.
    DoorTwice,
    NoMemory,
}

impl From<AllocError> for DoorFault {
    ghost from_gives = { λ _ e. e ≡ Starved };

    fn from(_e: AllocError) -> DoorFault {
        DoorFault::NoMemory
    }
}

impl<T: Drop> From<AllocFailed<T>> for DoorFault {
    ghost from_gives = { λ _ e. e ≡ Starved };

    fn from(_e: AllocFailed<T>) -> DoorFault {
        DoorFault::NoMemory
    }
}

/// Doors in the order in which they were given. They break no rule.
#[derive(Drop)]
pub struct Doors {
    doors: Vec<Door>,
}

impl Model for Doors {
    ghost use Rattle.std.specs.Prelude.{◌≡◌, List, None};
    ghost use Rattle.gw_text.specs.model.Doors.{Door as Plain, door_fault};

    ghost Value = { List Plain };

    ghost view = { λ d. d.doors.items };

    ghost invariant = { λ d. door_fault d.doors.items ≡ None };
}

impl Doors {
    /// The doors, if they break no rule.
    #[tactic(auto, unfolding(crate::specs::model::Doors::door_fault))]
    pub fn new(_alloc: Global, doors: Vec<Door>) -> Result<Doors, DoorFault>
        ensures value { IfOk result (λ taken. taken ≡ doors.items) }
        ensures taken { OnOk result (model.door_fault doors.items ≡ None) }
        ensures refused { IfErr result (λ e. model.door_fault doors.items ≡ seen e) }
    {
        if doors.len() > MOST {
            return Err(DoorFault::TooManyDoors);
        }
        if has_two_addresses(doors.as_slice()) {
            return Err(DoorFault::TwoAddresses);
        }
        if has_a_door_twice(doors.as_slice()) {
            return Err(DoorFault::DoorTwice);
        }
        Ok(Doors { doors })
    }

    /// No doors.
    #[tactic(auto, unfolding(crate::specs::model::Doors::door_fault))]
    pub fn none(alloc: Global) -> Doors
        ensures { result ≡ [] }
    {
        Doors {
            doors: Vec::new(alloc),
        }
    }

    /// The doors by their numbers.
    pub fn doors(&self) -> &[Door]
        ensures value { result.now ≡ self.now }
        ensures rules { model.door_fault self.now ≡ None }
    {
        self.doors.as_slice()
    }

    /// The first door of a Gateway. Its address is that of all of the Gateway's doors.
    pub fn first(&self, gateway: &Key) -> Option<&Door>
        ensures { option_copied result ≡ model.first_door gateway.now self.now }
    {
        self.doors.iter().find(|door| door.gateway == *gateway)
    }

    /// Whether a door of the Gateway is for this port of its listeners.
    pub fn has_port(&self, gateway: &Key, port: u16) -> bool
        ensures { result ≡ model.has_port gateway.now port self.now }
    {
        self.doors
            .iter()
            .any(|door| door.gateway == *gateway && door.port == port)
    }
}

fn has_any_another_address(door: &Door, others: &[Door]) -> bool
    ensures { result ≡ list_any (model.have_two_addresses door.now) others.now }
{
    others.iter().any(|other| door.has_another_address(other))
}

fn has_two_addresses(doors: &[Door]) -> bool
    ensures { result ≡ model.some_two model.have_two_addresses doors.now }
{
    'doors: for (i, door) in doors.iter().enumerate() {
        if has_any_another_address(door, &doors[i + 1..]) {
            return true;
        }
    }
    false
}

fn is_any_the_same_door(door: &Door, others: &[Door]) -> bool
    ensures { result ≡ list_any (model.are_one_door door.now) others.now }
{
    others.iter().any(|other| door.is_the_same_door(other))
}

fn has_a_door_twice(doors: &[Door]) -> bool
    ensures { result ≡ model.some_two model.are_one_door doors.now }
{
    'doors: for (i, door) in doors.iter().enumerate() {
        if is_any_the_same_door(door, &doors[i + 1..]) {
            return true;
        }
    }
    false
}

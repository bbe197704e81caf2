//! What is kept of all Routes.
ghost use Rattle.std.specs.Prelude.{◌≡◌, ◌+◌, ◌≤◌, [], All, IfOk, IfSome, OnOk, None, Some, length, map, option_map, option_copied, option_to_list, slice_get, if◌then◌else◌, cond};
ghost use Rattle.std.specs.Arc.{arc_value};
ghost use Rattle.gw_eval.specs.Kept.{kept_route_at, kept_routes_of};
ghost use Rattle.gw_eval.specs.Results.{gateway_status_at};
ghost use Rattle.gw_kept.specs.Held as rules;
ghost use Rattle.gw_kept.specs.Places as places;
ghost use Rattle.gw_match.specs.model.Listed as listed;
ghost use Rattle.gw_match.specs.model.Telling.{tables_of};
ghost use Rattle.gw_rows.specs.model.Rows.{ServedListener as PlainListener};
ghost use Rattle.gw_text.specs.model.Doors.{Door as PlainDoor};
ghost use Rattle.gw_text.specs.model.Names.{Key as PlainKey, same_key};

use crate::changed::with_at;
use crate::counted::{changed_counts, numbers_of};
use crate::counts::Counts;
use crate::door::{HeldDoor, shared_tables};
use crate::place::{Place, place_in};
use crate::served::served_anew;
use gw_eval::{KeptRoute, eval_counted_gateway, eval_kept_route};
use gw_match::DoorTable;
use gw_shared::{Shared, SharedList};
use gw_status::{GatewayStatus, RouteStatus, RouteStatuses};
use gw_store::World;
use gw_text::{Doors, Key, NoMemory, Steps, Text};
use std::alloc::Global;
use std::marker::Model;
use std::sync::Arc;
use std::sync::ledger::Ledger;

/// What is kept of all Routes for a controller of some name, with their statuses, how many are attached to each listener, and the tables of
/// the served listeners of doors. What is changed shares with its copies all but what the change touches.
pub struct KeptRoutes {
    controller: Arc<Text>,
    kept: SharedList<KeptRoute>,
    statuses: RouteStatuses,
    counts: Counts,
    doors: Vec<HeldDoor>,
}

// Written out, so that crates above don't prove anew how its parts are dropped.
impl Drop for KeptRoutes {
    fn drop(self) {
        let KeptRoutes {
            controller: _,
            kept: _,
            statuses: _,
            counts: _,
            doors: _,
        } = self;
    }
}

impl Model for KeptRoutes {
    ghost use Rattle.std.specs.Prelude.{map};
    ghost use Rattle.std.specs.Arc.{arc_value};
    ghost use Rattle.gw_kept.specs.Held.{Held, IsHeld, served_by};

    ghost Value = { Held };

    ghost view = { λ k. record { controller = arc_value k.controller; kept = k.kept; doors = map served_by k.doors.items } };

    ghost invariant = { λ k. IsHeld (arc_value k.controller) k.kept k.statuses k.counts k.doors.items };
}

// What stands at the place.
fn former(kept: &SharedList<KeptRoute>, place: Place) -> Option<&KeptRoute>
    ensures { option_copied result ≡ cond place.is_taken (slice_get kept.now place.at) None }
{
    if !place.is_taken {
        return None;
    }
    kept.get(place.at)
}

fn value_of(kept: &Option<Shared<KeptRoute>>) -> Option<&KeptRoute>
    ensures { option_copied result ≡ kept.now }
{
    match kept {
        Some(kept) => Some(kept),
        None => None,
    }
}

fn status_of(kept: &Option<Shared<KeptRoute>>) -> Result<Option<Shared<RouteStatus>>, NoMemory>
    ensures { IfOk result (λ status. status ≡ option_map (λ k. k.status) kept.now) }
{
    match kept {
        Some(kept) => Ok(Some(kept.status.share()?)),
        None => Ok(None),
    }
}

fn doors_without_listeners(alloc: Global, doors: &Doors) -> Result<Vec<HeldDoor>, NoMemory>
    ensures { IfOk result (λ all. all.items ≡ map rules.door_alone doors.now) }
{
    let doors = doors.doors();
    let mut all = Vec::with_capacity(alloc, doors.len())?;
    'doors: for door in doors {
        all.push(HeldDoor::new(alloc, door)?)?;
    }
    Ok(all)
}

// The doors with the rows of a Route at the place, or with none there.
fn changed_doors(
    alloc: Global,
    doors: Vec<HeldDoor>,
    place: Place,
    kept: Option<&KeptRoute>,
) -> Result<Vec<HeldDoor>, NoMemory>
    requires plans { IfSome (option_copied kept) rules.HasItsPlans }
    requires tables { All (λ d. All (rules.Takes place d.door (option_to_list (option_copied kept))) d.tables) doors.items }
    ensures { IfOk result (λ all. all.items ≡ map (rules.door_with place (option_to_list (option_copied kept.entry))) doors.items) }
{
    let mut all = Vec::with_capacity(alloc, doors.len())?;
    'doors: for door in doors {
        all.push(door.changed(alloc, place, kept)?)?;
    }
    Ok(all)
}

// A table of all rows of each door.
fn door_tables(alloc: Global, doors: &[HeldDoor]) -> Result<Vec<Arc<DoorTable>>, NoMemory>
    requires { All (λ d. listed.AreOfOneDoor d.tables) doors.now }
    ensures { IfOk result (λ all. map arc_value all.items ≡ map (λ d. listed.rows_with d.tables) doors.now) }
{
    let mut all = Vec::with_capacity(alloc, doors.len())?;
    'doors: for door in doors {
        let tables = shared_tables(alloc, door.tables.as_slice())?;
        all.push(Arc::new(alloc, DoorTable::of(tables))?)?;
    }
    Ok(all)
}

impl KeptRoutes {
    /// What is kept of no Routes, with no served listeners.
    pub fn new(alloc: Global, doors: &Doors, controller: Arc<Text>) -> Result<Self, NoMemory>
        ensures { IfOk result (λ k. k ≡ record { controller = arc_value controller; kept = []; doors = map rules.without_listeners doors.now }) }
    {
        Ok(KeptRoutes {
            controller,
            kept: SharedList::new(alloc),
            statuses: RouteStatuses::new(alloc),
            counts: Counts::new(alloc),
            doors: doors_without_listeners(alloc, doors)?,
        })
    }

    /// A copy, which shares all.
    pub fn share(&self, alloc: Global) -> Result<Self, NoMemory>
        ensures { IfOk result (λ copy. copy ≡ self.now) }
    {
        Ok(KeptRoutes {
            controller: self.controller.clone()?,
            kept: self.kept.share(alloc)?,
            statuses: self.statuses.share(alloc)?,
            counts: self.counts.share(alloc)?,
            doors: shared_doors(alloc, self.doors.as_slice())?,
        })
    }

    /// What is kept of each Route.
    pub fn kept(&self) -> &SharedList<KeptRoute>
        ensures value { result.now ≡ self.now.kept }
        ensures order { places.IsInOrder rules.kept_route_key result.now }
    {
        &self.kept
    }

    /// The statuses of the Routes.
    pub fn statuses(&self, alloc: Global) -> Result<RouteStatuses, NoMemory>
        ensures { IfOk result (λ statuses. statuses ≡ map (λ k. k.status) self.now.kept) }
    {
        self.statuses.share(alloc)
    }

    // The same with this under the key, and nothing else there.
    fn with(
        self,
        alloc: Global,
        key: &Key,
        value: Option<Shared<KeptRoute>>,
    ) -> Result<Self, NoMemory>
        requires own { IfSome value (λ k. rules.kept_route_key k ≡ key.now) }
        requires evaluated { IfSome value (rules.IsEvaluated self.controller) }
        ensures found { IfOk result (λ k. (other : PlainKey) → places.kept_at rules.kept_route_key other k.kept
            ≡ (if same_key key.now other then value else places.kept_at rules.kept_route_key other self.kept)) }
        ensures same { IfOk result (λ k. k ≡ record self { kept = k.kept }) }
    {
        let KeptRoutes {
            controller,
            kept,
            statuses,
            counts,
            doors,
        } = self;
        let place = place_in(&kept, key);
        let fresh = value_of(&value);
        let counts = changed_counts(alloc, &counts, former(&kept, place), fresh)?;
        let doors = changed_doors(alloc, doors, place, fresh)?;
        let statuses = with_at(alloc, statuses, place, status_of(&value)?)?;
        let kept = with_at(alloc, kept, place, value)?;
        Ok(KeptRoutes {
            controller,
            kept,
            statuses,
            counts,
            doors,
        })
    }

    /// The same, where the Route of this key is evaluated in this world: none where it isn't held there.
    pub fn with_route<L: Ledger>(
        self,
        alloc: Global,
        world: &World,
        doors: &Doors,
        key: &Key,
        steps: &mut Steps<L>,
    ) -> Result<Self, NoMemory>
        ensures found { IfOk result (λ k. (other : PlainKey) → places.kept_at rules.kept_route_key other k.kept
            ≡ (if same_key key.now other then kept_route_at self.controller world.now.world key.now else places.kept_at rules.kept_route_key other self.kept)) }
        ensures same { IfOk result (λ k. k ≡ record self { kept = k.kept }) }
        ensures steps { steps.new ≡ steps.old + 1 }
    {
        let kept = eval_kept_route(alloc, world, doors, &self.controller, key, steps)?;
        self.with(alloc, key, kept)
    }

    /// The same, where the doors of the Gateway of this key have the listeners that are served there in this world.
    pub fn with_gateway(
        self,
        alloc: Global,
        world: &World,
        doors: &Doors,
        gateway: &Key,
    ) -> Result<Self, NoMemory>
        ensures { IfOk result (λ k. k ≡ record self { doors = map (rules.served_anew doors.now self.controller world.now.world gateway.now) self.doors }) }
    {
        let KeptRoutes {
            controller,
            kept,
            statuses,
            counts,
            doors: held,
        } = self;
        let held = doors_anew(
            alloc,
            world,
            doors,
            &controller,
            gateway,
            held.as_slice(),
            &kept,
        )?;
        Ok(KeptRoutes {
            controller,
            kept,
            statuses,
            counts,
            doors: held,
        })
    }

    /// The status of the Gateway of this key on a host with these doors: none where it isn't in the world, or isn't managed. No Route is
    /// looked at.
    pub fn gateway_status<L: Ledger>(
        &self,
        alloc: Global,
        world: &World,
        doors: &Doors,
        key: &Key,
        steps: &mut Steps<L>,
    ) -> Result<Option<GatewayStatus>, NoMemory>
        requires { self.now.kept ≡ kept_routes_of self.now.controller world.now.world }
        ensures status { IfOk result (λ status. status ≡ gateway_status_at doors.now self.now.controller world.now.world key.now) }
        ensures steps { OnOk result (steps.new ≡ steps.old + 1) }
        ensures most { steps.new ≤ steps.old + 1 }
    {
        let numbers = numbers_of(alloc, &self.counts, world, key)?;
        let attached = numbers.as_slice();
        eval_counted_gateway(alloc, world, doors, &self.controller, key, attached, steps)
    }

    /// A table of the rows of each door, where all Routes and all doors are evaluated in this world.
    pub fn tables(
        &self,
        alloc: Global,
        world: &World,
        _doors: &Doors,
    ) -> Result<Vec<Arc<DoorTable>>, NoMemory>
        requires kept { self.now.kept ≡ kept_routes_of self.now.controller world.now.world }
        requires served { self.now.doors ≡ map (rules.served_door _doors.now self.now.controller world.now.world) _doors.now }
        ensures { IfOk result (λ all. map arc_value all.items ≡ tables_of _doors.now self.now.controller world.now.world) }
    {
        // The Routes stand in key order, so that no two of them have one row.
        let _routes = world.routes();
        door_tables(alloc, self.doors.as_slice())
    }
}

fn shared_doors(alloc: Global, doors: &[HeldDoor]) -> Result<Vec<HeldDoor>, NoMemory>
    ensures { IfOk result (λ all. all.items ≡ doors.now) }
{
    let mut all = Vec::with_capacity(alloc, doors.len())?;
    'doors: for door in doors {
        all.push(door.share(alloc)?)?;
    }
    Ok(all)
}

// The door, with the listeners that are served there in this world if it is one of this Gateway.
fn door_anew(
    alloc: Global,
    world: &World,
    doors: &Doors,
    controller: &Text,
    gateway: &Key,
    held: &HeldDoor,
    kept: &SharedList<KeptRoute>,
) -> Result<HeldDoor, NoMemory>
    requires plans { All rules.HasItsPlans kept.now }
    requires rows { (l : PlainListener) → rules.HasRows held.now.door kept.now l }
    requires tables { All (rules.IsOf held.now.door kept.now) held.now.tables }
    ensures served { IfOk result (λ d. rules.served_by d ≡ rules.served_anew doors.now controller.now world.now.world gateway.now (rules.served_by held.now)) }
    ensures tables { IfOk result (λ d. All (rules.IsOf d.door kept.now) d.tables) }
{
    if *gateway != held.door.gateway {
        return held.share(alloc);
    }
    served_anew(alloc, world, doors, controller, held, kept)
}

// The doors; those of this Gateway with the listeners that are served there in this world.
fn doors_anew(
    alloc: Global,
    world: &World,
    doors: &Doors,
    controller: &Text,
    gateway: &Key,
    held: &[HeldDoor],
    kept: &SharedList<KeptRoute>,
) -> Result<Vec<HeldDoor>, NoMemory>
    requires plans { All rules.HasItsPlans kept.now }
    requires rows { (door : PlainDoor) (l : PlainListener) → rules.HasRows door kept.now l }
    requires tables { All (λ d. All (rules.IsOf d.door kept.now) d.tables) held.now }
    ensures served { IfOk result (λ all. map rules.served_by all.items ≡ map (rules.served_anew doors.now controller.now world.now.world gateway.now) (map rules.served_by held.now)) }
    ensures tables { IfOk result (λ all. All (λ d. All (rules.IsOf d.door kept.now) d.tables) all.items) }
{
    let mut all = Vec::with_capacity(alloc, held.len())?;
    'doors: for door in held {
        all.push(door_anew(alloc, world, doors, controller, gateway, door, kept)?)?;
    }
    Ok(all)
}

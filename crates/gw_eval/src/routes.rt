//! The statuses of Routes, and how many are attached to each listener.
ghost use Rattle.std.specs.Prelude.{◌≡◌, ◌+◌, ◌^◌, IfOk, OnOk, length};
ghost use Rattle.gw_text.specs.model.Statuses as statuses;
ghost use Rattle.gw_text.specs.model.World.{gateway_key, namespace_labels};
ghost use Rattle.gw_eval.specs.Counting.{entries_in, more, no_numbers, AreBelow, AreNumbers, AreRows};

use crate::attached::Counts;
use crate::entries::{Entry, entries_by, parent_statuses};
use crate::home::Home;
use crate::references::resolved_refs;
use gw_labels::Labels;
use gw_route::HttpRoute;
use gw_status::{ParentStatuses, RouteStatus, RouteStatuses, Shared};
use gw_store::World;
use gw_text::{NoMemory, Steps, Text};
use std::alloc::Global;
use std::sync::ledger::Ledger;

// The entries of a Route whose namespace has these labels. The Route is counted.
fn counted_entries<'r>(
    alloc: Global,
    controller: &Text,
    world: &World,
    labels: &Labels,
    route: &'r HttpRoute,
    counts: &mut Counts,
) -> Result<Vec<Entry<'r>>, NoMemory>
    requires labels { labels.now ≡ namespace_labels world.now.world route.now.meta.key.namespace }
    requires rows { AreRows world.now.world counts.old }
    requires room { AreBelow (2 ^ 63) counts.old }
    ensures entries { IfOk result (λ all. entries_in all.items ≡ statuses.entries_of controller.now world.now.world route.now) }
    ensures rows { OnOk result (AreRows world.now.world counts.new) }
    ensures numbers { OnOk result ((number : _) → AreNumbers world.now.world counts.old number → AreNumbers world.now.world counts.new
        (λ s place. more (statuses.is_attached (gateway_key s.object) place (statuses.entries_of controller.now world.now.world route.now)) (number s place))) }
{
    let all = entries_by(alloc, controller, world, labels, route)?;
    counts.count_route(all.as_slice());
    Ok(all)
}

/// How many Routes are attached to each listener.
pub fn counts(alloc: Global, controller: &Text, world: &World) -> Result<Counts, NoMemory>
    ensures rows { IfOk result (AreRows world.now.world) }
    ensures numbers { IfOk result (λ counts. AreNumbers world.now.world counts (λ s place. statuses.attached_at controller.now world.now.world (gateway_key s.object) place)) }
{
    let mut counts = Counts::new(alloc, world)?;
    let mut home = Home::none(alloc);
    'routes: for route in world.routes() {
        home.enter(alloc, world, &route.meta.key.namespace)?;
        counted_entries(alloc, controller, world, home.labels(), route, &mut counts)?;
    }
    Ok(counts)
}

/// What the entries of a Route say.
#[tactic(auto, unfolding(gw_text::specs::model::Statuses::parent_statuses_of))]
pub fn route_parents(
    alloc: Global,
    controller: &Text,
    world: &World,
    route: &HttpRoute,
    entries: &[Entry<'_>],
) -> Result<ParentStatuses, NoMemory>
    requires entries { entries_in entries.now ≡ statuses.entries_of controller.now world.now.world route.now }
    ensures { IfOk result (λ all. all ≡ statuses.parent_statuses_of controller.now world.now.world route.now) }
{
    let resolved = resolved_refs(alloc, world, route)?;
    parent_statuses(alloc, controller, resolved, entries)
}

/// The status of a Route that has these entries.
pub fn route_status(
    alloc: Global,
    controller: &Text,
    world: &World,
    route: &HttpRoute,
    entries: &[Entry<'_>],
) -> Result<RouteStatus, NoMemory>
    requires entries { entries_in entries.now ≡ statuses.entries_of controller.now world.now.world route.now }
    ensures { IfOk result (λ status. status ≡ statuses.route_status_of controller.now world.now.world route.now) }
{
    Ok(RouteStatus {
        key: route.meta.key.copy(alloc)?,
        parents: route_parents(alloc, controller, world, route, entries)?,
    })
}

/// A handle on it.
pub fn shared_status(
    alloc: Global,
    controller: &Text,
    world: &World,
    route: &HttpRoute,
    entries: &[Entry<'_>],
) -> Result<Shared<RouteStatus>, NoMemory>
    requires entries { entries_in entries.now ≡ statuses.entries_of controller.now world.now.world route.now }
    ensures { IfOk result (λ status. status ≡ statuses.route_status_of controller.now world.now.world route.now) }
{
    let status = route_status(alloc, controller, world, route, entries)?;
    Shared::new(alloc, status)
}

/// The statuses of all Routes, in key order, each counted at the listeners to which it is attached. A step for each Route.
pub fn route_statuses<L: Ledger>(
    alloc: Global,
    controller: &Text,
    world: &World,
    counts: &mut Counts,
    steps: &mut Steps<L>,
) -> Result<RouteStatuses, NoMemory>
    requires none { counts.old ≡ no_numbers world.now.world.gateways }
    ensures statuses { IfOk result (λ all. all ≡ statuses.route_statuses_of controller.now world.now.world) }
    ensures rows { OnOk result (AreRows world.now.world counts.new) }
    ensures numbers { OnOk result (AreNumbers world.now.world counts.new (λ s place. statuses.attached_at controller.now world.now.world (gateway_key s.object) place)) }
    ensures steps { OnOk result (steps.new ≡ steps.old + length world.now.world.routes) }
{
    let mut all = Vec::with_capacity(alloc, world.routes().len())?;
    let mut home = Home::none(alloc);
    'routes: for route in world.routes() {
        steps.tick();
        home.enter(alloc, world, &route.meta.key.namespace)?;
        let entries = counted_entries(alloc, controller, world, home.labels(), route, counts)?;
        all.push(shared_status(alloc, controller, world, route, entries.as_slice())?)?;
    }
    Ok(RouteStatuses::from_vec(alloc, all)?)
}

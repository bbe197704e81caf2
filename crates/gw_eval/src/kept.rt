//! What is kept of Routes from change to change, and what is evaluated out of it.
ghost use Rattle.std.specs.Prelude.{◌≡◌, ◌+◌, ◌<◌, ◌++◌, ℕ, IfOk, IfSome, OnOk, get_or, length, map, option_map};
ghost use Rattle.gw_text.specs.model.Statuses as statuses;
ghost use Rattle.gw_text.specs.model.World.{gateway_at, route_at};
ghost use Rattle.gw_eval.specs.Counting.{entries_in};
ghost use Rattle.gw_eval.specs.Kept as keeps;
ghost use Rattle.gw_eval.specs.Results.{gateway_status_at};

use crate::entries::{Entry, entries, managed_position};
use crate::gateways::gateway_status;
use crate::plans::plans;
use crate::result::copy_places;
use crate::routes::shared_status;
use crate::shared_plans::Plans;
use gw_attach::Places;
use gw_route::HttpRoute;
use gw_status::{GatewayStatus, RouteStatus, Shared};
use gw_store::World;
use gw_text::{Doors, Key, List, NoMemory, Steps, Stored, Text};
use std::alloc::Global;
use std::marker::Model;
use std::sync::ledger::Ledger;

/// To which listeners of which Gateway an entry attaches its Route.
#[derive(Drop)]
pub struct AttachedAt {
    pub gateway: Key,
    pub listeners: Places,
}

impl Model for AttachedAt {
    ghost use Rattle.gw_eval.specs.Kept.{AttachedAt as Plain};

    ghost Value = { Plain };

    ghost view = { λ a. record { gateway = a.gateway; listeners = a.listeners } };
}

/// All that is kept of a Route.
pub struct KeptRoute {
    pub route: Stored<HttpRoute>,
    pub status: Shared<RouteStatus>,
    /// One for each entry.
    pub attached: List<AttachedAt>,
    /// One for each rule.
    pub plans: Plans,
}

impl Model for KeptRoute {
    ghost use Rattle.gw_eval.specs.Kept.{KeptRoute as Plain};

    ghost Value = { Plain };

    ghost view = { λ k. record { route = k.route; status = k.status; attached = k.attached; plans = k.plans } };
}

// Written out, so that crates above don't prove anew how its parts are dropped.
impl Drop for KeptRoute {
    fn drop(self) {
        let KeptRoute {
            route: _,
            status: _,
            attached: _,
            plans: _,
        } = self;
    }
}

fn attached_at(alloc: Global, entry: &Entry<'_>) -> Result<AttachedAt, NoMemory>
    ensures { IfOk result (λ at. at ≡ keeps.attached_of entry.now.entry) }
{
    Ok(AttachedAt {
        gateway: entry.parent.key(alloc)?,
        listeners: copy_places(alloc, entry.attachment.listeners.as_slice())?,
    })
}

fn all_attached(alloc: Global, entries: &[Entry<'_>]) -> Result<List<AttachedAt>, NoMemory>
    ensures { IfOk result (λ all. all ≡ map keeps.attached_of (entries_in entries.now)) }
{
    let mut all = List::new(alloc);
    'entries: for entry in entries {
        all.push(attached_at(alloc, entry)?)?;
    }
    Ok(all)
}

// What is kept of a Route.
fn kept_route(
    alloc: Global,
    controller: &Text,
    world: &World,
    route: &Stored<HttpRoute>,
) -> Result<KeptRoute, NoMemory>
    ensures { IfOk result (λ kept. kept ≡ keeps.kept_route_of controller.now world.now.world route.now) }
{
    let entries = entries(alloc, controller, world, route)?;
    let entries = entries.as_slice();
    Ok(KeptRoute {
        route: route.share()?,
        status: shared_status(alloc, controller, world, route, entries)?,
        attached: all_attached(alloc, entries)?,
        plans: plans(alloc, world, route)?,
    })
}

/// What is kept of the Route of this key, for a controller of this name: none where it isn't in the world. Doors play no part in it.
pub fn eval_kept_route<L: Ledger>(
    alloc: Global,
    w: &World,
    _doors: &Doors,
    controller: &Text,
    key: &Key,
    steps: &mut Steps<L>,
) -> Result<Option<Shared<KeptRoute>>, NoMemory>
    ensures route { IfOk result (λ kept. kept ≡ keeps.kept_route_at controller.now w.now.world key.now) }
    ensures steps { steps.new ≡ steps.old + 1 }
{
    steps.tick();
    let Some(route) = w.route(key) else {
        return Ok(None);
    };
    let kept = kept_route(alloc, controller, w, route)?;
    Ok(Some(Shared::new(alloc, kept)?))
}

/// The status of the Gateway of this key, for a controller of this name on a host with these doors, where so many Routes are attached to
/// each of its listeners: none where the Gateway isn't in the world, or isn't managed. No Route is looked at.
pub fn eval_counted_gateway<L: Ledger>(
    alloc: Global,
    w: &World,
    doors: &Doors,
    controller: &Text,
    key: &Key,
    attached: &[u64],
    steps: &mut Steps<L>,
) -> Result<Option<GatewayStatus>, NoMemory>
    requires length { IfSome (gateway_at w.now.world key.now) (λ s. length attached.now ≡ length s.object.listeners) }
    requires numbers { (place : ℕ) → place < length attached.now → get_or attached.now place 0 ≡ statuses.attached_at controller.now w.now.world key.now place }
    ensures status { IfOk result (λ status. status ≡ gateway_status_at doors.now controller.now w.now.world key.now) }
    ensures steps { steps.new ≡ steps.old + 1 }
{
    steps.tick();
    let Some(place) = managed_position(alloc, controller, w, key)? else {
        return Ok(None);
    };
    let gateway = &w.gateways()[place];
    let status = gateway_status(alloc, controller, doors, w, gateway, attached)?;
    Ok(Some(status))
}

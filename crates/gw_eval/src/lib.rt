//! The plain evaluation: statuses, results and the rows of doors from all objects of a world.
#![tactic(auto)]

ghost use Rattle.std.specs.Prelude.{◌≡◌, ◌+◌, IfOk, OnOk, length};
ghost use Rattle.gw_text.specs.model.Statuses as statuses;
ghost use Rattle.gw_eval.specs.Results.{gateway_status_at, route_result_at};

mod attached;
mod candidate;
mod classes;
mod door_rows;
mod entries;
mod gateways;
mod home;
mod hostnames;
mod kept;
mod plans;
mod references;
mod result;
mod routes;
mod served;
mod shared_plans;

use attached::Counts;
pub use classes::class_statuses;
pub use door_rows::{eval_rows, kept_rows};
use entries::managed_position;
use gateways::{gateway_status, gateway_statuses};
use gw_status::{GatewayStatus, Statuses};
use gw_store::World;
use gw_text::{Doors, Key, NoMemory, Steps, Text};
pub use kept::{AttachedAt, KeptRoute, eval_counted_gateway, eval_kept_route};
use result::route_result;
pub use result::{Attachments, RouteResult};
use routes::{counts, route_statuses};
pub use served::served_listeners;
pub use shared_plans::Plans;
use std::alloc::Global;
use std::sync::ledger::Ledger;

/// The status of the Gateway of this key, for a controller of this name on a host with these doors: none where the Gateway isn't in the
/// world, or isn't managed. For one that is, all Routes of the world are gone through.
#[tactic(auto, using(crate::proofs::Rows::row_length, crate::proofs::Rows::rows_length))]
pub fn eval_gateway<L: Ledger>(
    alloc: Global,
    w: &World,
    doors: &Doors,
    controller: &Text,
    key: &Key,
    steps: &mut Steps<L>,
) -> Result<Option<GatewayStatus>, NoMemory>
    ensures status { IfOk result (λ status. status ≡ gateway_status_at doors.now controller.now w.now.world key.now) }
    ensures steps { steps.new ≡ steps.old + 1 }
{
    steps.tick();
    let Some(place) = managed_position(alloc, controller, w, key)? else {
        return Ok(None);
    };
    let gateway = &w.gateways()[place];
    let counts = counts(alloc, controller, w)?;
    let attached = counts.of_gateway(place);
    let status = gateway_status(alloc, controller, doors, w, gateway, attached)?;
    Ok(Some(status))
}

/// The result of the Route of this key, for a controller of this name: none where it isn't in the world. Doors play no part in it.
pub fn eval_route<L: Ledger>(
    alloc: Global,
    w: &World,
    _doors: &Doors,
    controller: &Text,
    key: &Key,
    steps: &mut Steps<L>,
) -> Result<Option<RouteResult>, NoMemory>
    ensures route { IfOk result (λ found. found ≡ route_result_at controller.now w.now.world key.now) }
    ensures steps { steps.new ≡ steps.old + 1 }
{
    steps.tick();
    let Some(route) = w.route(key) else {
        return Ok(None);
    };
    Ok(Some(route_result(alloc, controller, w, route)?))
}

/// The statuses of a world, for a controller of this name on a host with these doors. A step for each Route and for each Gateway.
#[tactic(auto, using(crate::proofs::Rows::no_rows))]
pub fn eval_all<L: Ledger>(
    alloc: Global,
    w: &World,
    doors: &Doors,
    controller: &Text,
    steps: &mut Steps<L>,
) -> Result<Statuses, NoMemory>
    ensures statuses { IfOk result (λ all. all ≡ statuses.statuses_of doors.now controller.now w.now.world) }
    ensures steps { OnOk result (steps.new ≡ steps.old + length w.now.world.routes + length w.now.world.gateways) }
{
    let mut counts = Counts::new(alloc, w)?;
    let routes = route_statuses(alloc, controller, w, &mut counts, steps)?;
    Ok(Statuses {
        classes: class_statuses(alloc, controller, w)?,
        gateways: gateway_statuses(alloc, controller, doors, w, &counts, steps)?,
        routes,
    })
}

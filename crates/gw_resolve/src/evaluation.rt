//! The evaluation of the Routes and Gateways that a change touches.
ghost use Rattle.std.specs.Prelude.{◌≡◌, ◌+◌, ◌<◌, false, length, map, All, IfOk, OnOk};
ghost use Rattle.std.specs.Arc.{arc_value};
ghost use Rattle.gw_deps.specs.Edges.{has_key};
ghost use Rattle.gw_eval.specs.Kept as keeps;
ghost use Rattle.gw_eval.specs.Results.{gateway_status_at};
ghost use Rattle.gw_kept.specs.Held.{gateway_status_key, kept_route_key, served_door};
ghost use Rattle.gw_kept.specs.Places.{IsInOrder, kept_at};
ghost use Rattle.gw_text.specs.model.Names.{Key as PlainKey};
ghost use Rattle.gw_text.specs.model.Statuses as statuses;
ghost use Rattle.gw_text.specs.model.World as worlds;
ghost use Rattle.gw_resolve.specs.Cores.{AreKept, AreOf, tables_at};

use gw_deps::{Sorted, Touched};
use gw_eval::class_statuses;
use gw_kept::{KeptRoutes, replaced};
use gw_match::Tables;
use gw_status::{GatewayStatus, GatewayStatuses, Shared, Statuses};
use gw_store::World;
use gw_text::{Doors, NoMemory, Steps, Text};
use std::alloc::Global;
use std::sync::Arc;
use std::sync::ledger::{Blank, Ledger};

/// What is kept of all Routes, and the statuses and tables of some objects.
#[derive(Drop)]
pub(crate) struct Evaluation {
    pub(crate) kept: KeptRoutes,
    pub(crate) statuses: Statuses,
    pub(crate) tables: Arc<Tables>,
}

// What is kept of all Routes, of which those of the touched keys are evaluated. A step for each.
fn routes_after<L: Ledger>(
    alloc: Global,
    world: &World,
    doors: &Doors,
    former: &KeptRoutes,
    touched: &Touched,
    steps: &mut Steps<L>,
) -> Result<KeptRoutes, NoMemory>
    requires { (k : PlainKey) → has_key k touched.now.routes ≡ false → kept_at kept_route_key k former.now.kept ≡ keeps.kept_route_at former.now.controller world.now.world k }
    ensures kept { IfOk result (λ r. r ≡ record former.now { kept = keeps.kept_routes_of former.now.controller world.now.world }) }
    ensures steps { OnOk result (steps.new ≡ steps.old + length touched.now.routes) }
{
    let mut kept = former.share(alloc)?;
    'keys: for key in touched.routes.as_slice() {
        kept = kept.with_route(alloc, world, doors, key, steps)?;
    }
    // Both stand in key order, so they are one where they tell the same of each key.
    let (_kept, _routes) = (kept.kept(), world.routes());
    Ok(kept)
}

// The same, where the doors of the touched Gateways have the listeners that are served there.
fn doors_after(
    alloc: Global,
    world: &World,
    doors: &Doors,
    former: KeptRoutes,
    touched: &Touched,
) -> Result<KeptRoutes, NoMemory>
    requires { All (λ d. has_key d.door.gateway touched.now.gateways ≡ false → d ≡ served_door doors.now former.controller world.now.world d.door) former.doors }
    ensures { IfOk result (λ r. r ≡ record former { doors = map (λ d. served_door doors.now former.controller world.now.world d.door) former.doors }) }
{
    let mut kept = former;
    'gateways: for gateway in touched.gateways.as_slice() {
        kept = kept.with_gateway(alloc, world, doors, gateway)?;
    }
    Ok(kept)
}

fn share_status(
    alloc: Global,
    status: Option<GatewayStatus>,
) -> Result<Option<Shared<GatewayStatus>>, NoMemory>
    ensures { IfOk result (λ shared. shared ≡ status) }
{
    match status {
        Some(status) => Ok(Some(Shared::new(alloc, status)?)),
        None => Ok(None),
    }
}

// The statuses of all Gateways, of which those of the touched keys are evaluated. A step for each.
fn gateways_after<L: Ledger>(
    alloc: Global,
    world: &World,
    doors: &Doors,
    kept: &KeptRoutes,
    former: &GatewayStatuses,
    touched: &Touched,
    steps: &mut Steps<L>,
) -> Result<GatewayStatuses, NoMemory>
    requires kept { kept.now.kept ≡ keeps.kept_routes_of kept.now.controller world.now.world }
    requires order { IsInOrder gateway_status_key former.now }
    requires others { (k : PlainKey) → has_key k touched.now.gateways ≡ false → kept_at gateway_status_key k former.now ≡ gateway_status_at doors.now kept.now.controller world.now.world k }
    ensures statuses { IfOk result (λ all. all ≡ statuses.gateway_statuses_of doors.now kept.now.controller world.now.world) }
    ensures steps { OnOk result (steps.new ≡ steps.old + length touched.now.gateways) }
{
    let mut all = former.share(alloc)?;
    'keys: for key in touched.gateways.as_slice() {
        let status = kept.gateway_status(alloc, world, doors, key, steps)?;
        all = replaced(alloc, all, key, share_status(alloc, status)?)?;
    }
    // Both stand in key order, so they are one where they tell the same of each key.
    let _gateways = world.gateways();
    Ok(all)
}

/// Evaluates the Routes and Gateways that are touched, where of all others it is known what they are. A step for each.
pub(crate) fn evaluate<L: Ledger>(
    alloc: Global,
    doors: &Arc<Doors>,
    controller: &Arc<Text>,
    world: &World,
    former: &KeptRoutes,
    gateways: &GatewayStatuses,
    touched: &Touched,
    steps: &mut Steps<L>,
) -> Result<Evaluation, NoMemory>
    requires controller { former.now.controller ≡ arc_value controller.now }
    requires routes { (k : PlainKey) → has_key k touched.now.routes ≡ false → kept_at kept_route_key k former.now.kept ≡ keeps.kept_route_at (arc_value controller.now) world.now.world k }
    requires doors { map (λ d. d.door) former.now.doors ≡ arc_value doors.now }
    requires served { All (λ d. has_key d.door.gateway touched.now.gateways ≡ false → d ≡ served_door (arc_value doors.now) (arc_value controller.now) world.now.world d.door) former.now.doors }
    requires gateways_order { IsInOrder gateway_status_key gateways.now }
    requires gateways { (k : PlainKey) → has_key k touched.now.gateways ≡ false → kept_at gateway_status_key k gateways.now ≡ gateway_status_at (arc_value doors.now) (arc_value controller.now) world.now.world k }
    ensures kept { IfOk result (λ e. AreKept e.kept (arc_value doors.now) (arc_value controller.now) world.now.world) }
    ensures evaluated { IfOk result (λ e. AreOf e.statuses (arc_value e.tables) (arc_value doors.now) (arc_value controller.now) world.now.world) }
    ensures steps { OnOk result (steps.new ≡ steps.old + (length touched.now.routes + length touched.now.gateways)) }
{
    let routes = routes_after(alloc, world, doors, former, touched, steps)?;
    let kept = doors_after(alloc, world, doors, routes, touched)?;
    let statuses = Statuses {
        classes: class_statuses(alloc, controller, world)?,
        gateways: gateways_after(alloc, world, doors, &kept, gateways, touched, steps)?,
        routes: kept.statuses(alloc)?,
    };
    let tables = tables_of(alloc, doors, controller, world, &kept)?;
    Ok(Evaluation {
        kept,
        statuses,
        tables,
    })
}

/// Evaluates a world without Routes and Gateways. Nobody asks for the steps.
pub(crate) fn evaluate_nothing<L: Ledger>(
    alloc: Global,
    doors: &Arc<Doors>,
    controller: &Arc<Text>,
    world: &World,
    blank: Blank,
) -> Result<Evaluation, NoMemory>
    requires nothing { world.now.world ≡ worlds.nothing }
    requires name { blank.name ≡ L.name }
    requires parts { blank.parts ≡ L.parts }
    requires positive { 0 < L.parts }
    ensures kept { IfOk result (λ e. AreKept e.kept (arc_value doors.now) (arc_value controller.now) world.now.world) }
    ensures evaluated { IfOk result (λ e. AreOf e.statuses (arc_value e.tables) (arc_value doors.now) (arc_value controller.now) world.now.world) }
{
    let mut steps: Steps<L> = Steps::open(blank);
    let touched = Touched {
        routes: Sorted::new(alloc),
        gateways: Sorted::new(alloc),
    };
    let former = KeptRoutes::new(alloc, doors, controller.clone()?)?;
    let gateways = GatewayStatuses::new(alloc);
    evaluate(
        alloc, doors, controller, world, &former, &gateways, &touched, &mut steps,
    )
}

// The tables of the doors, out of what is kept of all Routes.
fn tables_of(
    alloc: Global,
    doors: &Arc<Doors>,
    controller: &Arc<Text>,
    world: &World,
    kept: &KeptRoutes,
) -> Result<Arc<Tables>, NoMemory>
    requires { AreKept kept.now (arc_value doors.now) (arc_value controller.now) world.now.world }
    ensures { IfOk result (λ tables. arc_value tables ≡ tables_at (arc_value doors.now) (arc_value controller.now) world.now.world) }
{
    let tables = kept.tables(alloc, world, doors)?;
    let tables = Tables::new(world.changes(), doors.clone()?, controller.clone()?, tables);
    Ok(Arc::new(alloc, tables)?)
}

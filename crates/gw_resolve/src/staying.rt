//! What of the kept results an event leaves as it was.
ghost use Rattle.std.specs.Prelude.{◌≡◌, ℤ, All, false, map};
ghost use Rattle.std.specs.List.Sorted.{IsStrictlySortedBy};
ghost use Rattle.gw_deps.specs.Edges.{has_key, name_order};
ghost use Rattle.gw_deps.specs.Touching.{AreTouched};
ghost use Rattle.gw_eval.specs.Kept.{kept_route_at};
ghost use Rattle.gw_eval.specs.Results.{gateway_status_at};
ghost use Rattle.gw_store.specs.SeenEvents.{seen_event};
ghost use Rattle.gw_text.specs.model.Names.{Key as PlainKey};
ghost use Rattle.gw_text.specs.model.Statuses.{gateway_statuses_of};
ghost use Rattle.gw_text.specs.model.World.{apply};
ghost use Rattle.gw_kept.specs.Held.{gateway_status_key, kept_route_key, served_door};
ghost use Rattle.gw_kept.specs.Places.{IsInOrder, kept_at};
ghost use Rattle.gw_resolve.specs.Cores.{AreKept};

use gw_deps::Touched;
use gw_kept::KeptRoutes;
use gw_status::GatewayStatuses;
use gw_store::{Event, World};
use gw_text::{Doors, Text};
use gw_untouched::{gateways_stay, objects_stand_in_order, routes_stay, touched_keys_are_all};

/// What is kept stands in the order of keys, and for the keys that the event doesn't touch it is what there is after the event, whenever
/// that comes. Each touched key is there once.
pub(crate) fn others_stay(
    world: &World,
    doors: &Doors,
    controller: &Text,
    kept: &KeptRoutes,
    gateways: &GatewayStatuses,
    event: &Event,
    touched: &Touched,
)
    requires kept { AreKept kept.now doors.now controller.now world.now.world }
    requires gateways { gateways.now ≡ gateway_statuses_of doors.now controller.now world.now.world }
    requires touched { (at : ℤ) → AreTouched world.now.world (seen_event event.now) at touched.now }
    ensures routes { (at : ℤ) (k : PlainKey) → has_key k touched.now.routes ≡ false
        → kept_at kept_route_key k kept.now.kept ≡ kept_route_at controller.now (apply world.now.world (record { event = seen_event event.now; at = at })) k }
    ensures served { (at : ℤ) → All (λ d. has_key d.door.gateway touched.now.gateways ≡ false
        → d ≡ served_door doors.now controller.now (apply world.now.world (record { event = seen_event event.now; at = at })) d.door) kept.now.doors }
    ensures doors { map (λ d. d.door) kept.now.doors ≡ doors.now }
    ensures gateways_order { IsInOrder gateway_status_key gateways.now }
    ensures gateways { (at : ℤ) (k : PlainKey) → has_key k touched.now.gateways ≡ false
        → kept_at gateway_status_key k gateways.now ≡ gateway_status_at doors.now controller.now (apply world.now.world (record { event = seen_event event.now; at = at })) k }
    ensures routes_once { IsStrictlySortedBy name_order touched.now.routes }
    ensures gateways_once { IsStrictlySortedBy name_order touched.now.gateways }
{
    // All objects stand in key order, so that what is kept is found by its key.
    let (_routes, _gateways) = (world.routes(), world.gateways());
    objects_stand_in_order(world, event);
    routes_stay();
    gateways_stay();
    touched_keys_are_all();
    let (_keys, _gateway_keys) = (touched.routes.as_slice(), touched.gateways.as_slice());
}

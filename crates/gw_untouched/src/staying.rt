ghost use Rattle.std.specs.Prelude.{◌≡◌, ℕ, ℤ, List, false};
ghost use Rattle.gw_deps.specs.Edges.{has_key};
ghost use Rattle.gw_deps.specs.Touching.{AreTouched, Touched, event_kind};
ghost use Rattle.gw_text.specs.model.Doors.{Door};
ghost use Rattle.gw_text.specs.model.Names.{Key};
ghost use Rattle.gw_text.specs.model.Objects.{Event};
ghost use Rattle.gw_text.specs.model.World.{World, is_route_kind};
ghost use Rattle.gw_untouched.specs.Untouched.{GatewayStays, IsAfter, IsOrderedFor, LeavesGateway, LeavesRoute, RouteStays};

/// A Route that an event doesn't touch stays as it was, and so does what is evaluated of it.
pub fn routes_stay()
    ensures { (controller : List ℕ) (w after : World) (event : Event) (at : ℤ) (key : Key)
        → IsAfter w event at after → IsOrderedFor w event → LeavesRoute w event at key → RouteStays controller w after key }
{}

/// A Gateway that an event doesn't touch stays as it was, and so does what is evaluated of it and served at its doors.
pub fn gateways_stay()
    ensures { (doors : List Door) (controller : List ℕ) (w after : World) (event : Event) (at : ℤ) (key : Key)
        → IsAfter w event at after → IsOrderedFor w event → LeavesGateway w event at key → GatewayStays doors controller w after key }
{}

/// An event doesn't touch what isn't among the touched keys.
#[tactic(auto, using(crate::proofs::Laws::route_left, crate::proofs::Laws::gateway_left))]
pub fn touched_keys_are_all()
    ensures routes { (w : World) (event : Event) (at : ℤ) (touched : Touched) (key : Key) → AreTouched w event at touched → has_key key touched.routes ≡ false → LeavesRoute w event at key }
    ensures gateways { (w : World) (event : Event) (at : ℤ) (touched : Touched) (key : Key) → AreTouched w event at touched → has_key key touched.gateways ≡ false → LeavesGateway w event at key }
{}

//! The Routes and Gateways that depend on an object that changes.
ghost use Rattle.std.specs.Prelude.{◌≡◌, ◌||◌, ◌&&◌, ℤ, false, is_some, IfOk, OnOk};
ghost use Rattle.std.specs.List.{list_any};
ghost use Rattle.gw_store.specs.SeenEvents.{seen_event, seen_object};
ghost use Rattle.gw_text.specs.declared.kind.Kind.TheVariants as kinds;
ghost use Rattle.gw_text.specs.model.Names.{Key as PlainKey, cluster_key, same_key};
ghost use Rattle.gw_text.specs.model.Objects.{object_kind, object_key, puts};
ghost use Rattle.gw_text.specs.model.Stored.{IsInKeyOrder, stored_at};
ghost use Rattle.gw_text.specs.model.World.{gateway_at, route_at, route_key, slice_key};
ghost use Rattle.gw_deps.specs.Edges.{edge_to, has_edge, has_key};
ghost use Rattle.gw_deps.specs.Indexes.{IsIndexOf};
ghost use Rattle.gw_deps.specs.Touching.{AreTouched, AreTouchedIn, depends_on_slice, has_held_parent, is_held_parent, is_some_with};

use crate::edge::{Edge, edges_from};
use crate::index::Index;
use crate::key::SharedKey;
use crate::keys::{Keys, Touched};
use crate::lookup::find;
use crate::object_edges::service_name;
use crate::sorted::Sorted;
use gw_objects::EndpointSlice;
use gw_route::{HttpRoute, ParentRef};
use gw_store::{Event, Object, World};
use gw_text::{Key, Kind, NoMemory};
use std::alloc::Global;

fn add_all(keys: &mut Keys, edges: &[Edge]) -> Result<(), NoMemory>
    ensures { OnOk result ((k : PlainKey) → has_key k keys.new.list ≡ (list_any (λ e. same_key e.dependant k) edges.now || has_key k keys.old.list)) }
{
    'edges: for edge in edges {
        keys.add(edge.dependant().share()?)?;
    }
    Ok(())
}

// Puts the keys of those that depend on what has this namespace and name to the others.
fn add_dependants(
    keys: &mut Keys,
    edges: &Sorted<Edge>,
    namespace: &[u8],
    name: &[u8],
) -> Result<(), NoMemory>
    ensures { OnOk result ((k : PlainKey) → has_key k keys.new.list
        ≡ (has_edge (edge_to k (record { namespace = namespace.now; name = name.now })) edges.now.list || has_key k keys.old.list)) }
{
    add_all(keys, edges_from(edges, namespace, name))
}

fn dependants(
    alloc: Global,
    edges: &Sorted<Edge>,
    namespace: &[u8],
    name: &[u8],
) -> Result<Keys, NoMemory>
    ensures { IfOk result (λ keys. (k : PlainKey) → has_key k keys.list ≡ has_edge (edge_to k (record { namespace = namespace.now; name = name.now })) edges.now.list) }
{
    let mut keys = Sorted::new(alloc);
    add_dependants(&mut keys, edges, namespace, name)?;
    Ok(keys)
}

// Puts the key of the Gateway that the parentRef names to the others, if it is held.
fn add_parent(
    alloc: Global,
    world: &World,
    gateways: &mut Keys,
    parent: &ParentRef,
) -> Result<(), NoMemory>
    ensures { OnOk result ((k : PlainKey) → has_key k gateways.new.list ≡ (is_held_parent world.now.world k parent.now || has_key k gateways.old.list)) }
{
    if !parent.names_gateway() {
        return Ok(());
    }
    let key = parent.key(alloc)?;
    if !world.holds(Kind::Gateway, &key) {
        return Ok(());
    }
    gateways.add(SharedKey::of(alloc, &key)?)?;
    Ok(())
}

// Puts the keys of the held Gateways that the Route names to the others.
fn add_parents(
    alloc: Global,
    world: &World,
    gateways: &mut Keys,
    route: &HttpRoute,
) -> Result<(), NoMemory>
    ensures { OnOk result ((k : PlainKey) → has_key k gateways.new.list ≡ (has_held_parent world.now.world k route.now || has_key k gateways.old.list)) }
{
    'parents: for parent in route.parent_refs.as_slice() {
        add_parent(alloc, world, gateways, parent)?;
    }
    Ok(())
}

// Puts the Routes that depend on the Gateway of this key to the others.
fn add_under(index: &Index, routes: &mut Keys, gateway: &Key) -> Result<(), NoMemory>
    ensures { OnOk result ((k : PlainKey) → has_key k routes.new.list ≡ (has_edge (edge_to k gateway.now) index.now.by_gateway.list || has_key k routes.old.list)) }
{
    let (namespace, name) = (gateway.namespace.bytes(), gateway.name.bytes());
    add_dependants(routes, &index.by_gateway, namespace, name)?;
    Ok(())
}

// The Routes that depend on one of the Gateways.
fn routes_under(alloc: Global, index: &Index, gateways: &[SharedKey]) -> Result<Keys, NoMemory>
    ensures { IfOk result (λ keys. (k : PlainKey) → has_key k keys.list ≡ list_any (λ g. has_edge (edge_to k g) index.now.by_gateway.list) gateways.now) }
{
    let mut routes = Sorted::new(alloc);
    'gateways: for gateway in gateways {
        add_under(index, &mut routes, gateway)?;
    }
    Ok(routes)
}

// The Gateways of the class, and the Routes that name them.
fn by_class(alloc: Global, index: &Index, key: &Key) -> Result<Touched, NoMemory>
    ensures gateways { IfOk result (λ t. (k : PlainKey) → has_key k t.gateways ≡ has_edge (edge_to k (cluster_key key.now.name)) index.now.by_class.list) }
    ensures routes { IfOk result (λ t. (k : PlainKey) → has_key k t.routes ≡ list_any (λ g. has_edge (edge_to k g) index.now.by_gateway.list) t.gateways) }
{
    let gateways = dependants(alloc, &index.by_class, b"", key.name.bytes())?;
    let routes = routes_under(alloc, index, gateways.as_slice())?;
    Ok(Touched { routes, gateways })
}

// The key of the Gateway, where it is held.
fn held_gateway(alloc: Global, world: &World, key: &Key) -> Result<Keys, NoMemory>
    ensures { IfOk result (λ keys. (k : PlainKey) → has_key k keys.list ≡ (same_key key.now k && is_some (gateway_at world.now.world key.now))) }
{
    let mut gateways = Sorted::new(alloc);
    if !world.holds(Kind::Gateway, key) {
        return Ok(gateways);
    }
    gateways.add(SharedKey::of(alloc, key)?)?;
    Ok(gateways)
}

// The Gateway, where it is held, and the Routes that name it.
fn by_gateway(alloc: Global, index: &Index, world: &World, key: &Key) -> Result<Touched, NoMemory>
    ensures routes { IfOk result (λ t. (k : PlainKey) → has_key k t.routes ≡ has_edge (edge_to k key.now) index.now.by_gateway.list) }
    ensures gateways { IfOk result (λ t. (k : PlainKey) → has_key k t.gateways ≡ (same_key key.now k && is_some (gateway_at world.now.world key.now))) }
{
    let (namespace, name) = (key.namespace.bytes(), key.name.bytes());
    Ok(Touched {
        routes: dependants(alloc, &index.by_gateway, namespace, name)?,
        gateways: held_gateway(alloc, world, key)?,
    })
}

// Puts the Route and the held Gateways that it names to the others.
fn add_route(
    alloc: Global,
    world: &World,
    touched: &mut Touched,
    route: &HttpRoute,
) -> Result<(), NoMemory>
    ensures routes { OnOk result ((k : PlainKey) → has_key k touched.new.routes ≡ (same_key route.now.meta.key k || has_key k touched.old.routes)) }
    ensures gateways { OnOk result ((k : PlainKey) → has_key k touched.new.gateways ≡ (has_held_parent world.now.world k route.now || has_key k touched.old.gateways)) }
{
    touched.routes.add(SharedKey::of(alloc, &route.meta.key)?)?;
    add_parents(alloc, world, &mut touched.gateways, route)
}

// The Route, where it is held, and the Gateways that it names.
fn by_route(alloc: Global, world: &World, key: &Key) -> Result<Touched, NoMemory>
    ensures order { IsInKeyOrder route_key world.now.world.routes }
    ensures routes { IfOk result (λ t. (k : PlainKey) → has_key k t.routes ≡ is_some_with (λ r. same_key r.meta.key k) (route_at world.now.world key.now)) }
    ensures gateways { IfOk result (λ t. (k : PlainKey) → has_key k t.gateways ≡ is_some_with (has_held_parent world.now.world k) (route_at world.now.world key.now)) }
{
    let mut touched = Touched::nothing(alloc);
    match find(world.routes(), key) {
        Some(route) => {
            add_route(alloc, world, &mut touched, route)?;
            Ok(touched)
        }
        None => Ok(touched),
    }
}

// Puts the held Gateways that the Route of this key names to the others.
fn add_parents_at(
    alloc: Global,
    world: &World,
    gateways: &mut Keys,
    key: &Key,
) -> Result<(), NoMemory>
    ensures { OnOk result ((k : PlainKey) → has_key k gateways.new.list ≡ (is_some_with (has_held_parent world.now.world k) (route_at world.now.world key.now) || has_key k gateways.old.list)) }
{
    match world.route(key) {
        Some(route) => add_parents(alloc, world, gateways, route),
        None => Ok(()),
    }
}

// The held Gateways that the Routes name.
fn gateways_over(alloc: Global, world: &World, routes: &[SharedKey]) -> Result<Keys, NoMemory>
    ensures { IfOk result (λ keys. (k : PlainKey) → has_key k keys.list ≡ list_any (λ r. is_some_with (has_held_parent world.now.world k) (route_at world.now.world r)) routes.now) }
{
    let mut gateways = Sorted::new(alloc);
    'routes: for route in routes {
        add_parents_at(alloc, world, &mut gateways, route)?;
    }
    Ok(gateways)
}

// The Routes of the namespace, and the Gateways that they name.
fn by_namespace(alloc: Global, index: &Index, world: &World, key: &Key) -> Result<Touched, NoMemory>
    ensures order { IsInKeyOrder route_key world.now.world.routes }
    ensures routes { IfOk result (λ t. (k : PlainKey) → has_key k t.routes ≡ has_edge (edge_to k (cluster_key key.now.name)) index.now.by_namespace.list) }
    ensures gateways { IfOk result (λ t. (k : PlainKey) → has_key k t.gateways ≡ list_any (λ r. is_some_with (has_held_parent world.now.world k) (route_at world.now.world r)) t.routes) }
{
    // All stand in key order, so that each is found by its key.
    let _held = world.routes();
    let routes = dependants(alloc, &index.by_namespace, b"", key.name.bytes())?;
    let gateways = gateways_over(alloc, world, routes.as_slice())?;
    Ok(Touched { routes, gateways })
}

// Those that depend on what has this namespace and name, which are Routes alone.
fn routes_alone(
    alloc: Global,
    edges: &Sorted<Edge>,
    namespace: &[u8],
    name: &[u8],
) -> Result<Touched, NoMemory>
    ensures routes { IfOk result (λ t. (k : PlainKey) → has_key k t.routes ≡ has_edge (edge_to k (record { namespace = namespace.now; name = name.now })) edges.now.list) }
    ensures gateways { IfOk result (λ t. (k : PlainKey) → has_key k t.gateways ≡ false) }
{
    Ok(Touched {
        routes: dependants(alloc, edges, namespace, name)?,
        gateways: Sorted::new(alloc),
    })
}

// Puts the Routes that refer to the Service of the slice to the others.
fn add_slice(index: &Index, routes: &mut Keys, slice: &EndpointSlice) -> Result<(), NoMemory>
    ensures { OnOk result ((k : PlainKey) → has_key k routes.new.list ≡ (depends_on_slice index.now.by_service.list k slice.now || has_key k routes.old.list)) }
{
    match service_name(slice) {
        Some(name) => {
            let namespace = slice.meta.key.namespace.bytes();
            add_dependants(routes, &index.by_service, namespace, name.as_bytes())
        }
        None => Ok(()),
    }
}

// The Routes that refer to the Service of the slice, where it is held.
fn by_slice(alloc: Global, index: &Index, world: &World, key: &Key) -> Result<Touched, NoMemory>
    ensures order { IsInKeyOrder slice_key world.now.world.slices }
    ensures routes { IfOk result (λ t. (k : PlainKey) → has_key k t.routes
        ≡ is_some_with (depends_on_slice index.now.by_service.list k) (stored_at slice_key key.now world.now.world.slices)) }
    ensures gateways { IfOk result (λ t. (k : PlainKey) → has_key k t.gateways ≡ false) }
{
    let mut touched = Touched::nothing(alloc);
    match find(world.slices(), key) {
        Some(slice) => {
            add_slice(index, &mut touched.routes, slice)?;
            Ok(touched)
        }
        None => Ok(touched),
    }
}

// Those that depend on the object of this kind and key in the world.
fn touched_before(
    alloc: Global,
    index: &Index,
    world: &World,
    kind: Kind,
    key: &Key,
) -> Result<Touched, NoMemory>
    requires { IsIndexOf world.now.world index.now }
    ensures { IfOk result (AreTouchedIn world.now.world kind key.now) }
{
    match kind {
        Kind::GatewayClass => by_class(alloc, index, key),
        Kind::Gateway => by_gateway(alloc, index, world, key),
        Kind::HttpRoute => by_route(alloc, world, key),
        Kind::ReferenceGrant => routes_alone(alloc, &index.by_grant, b"", key.namespace.bytes()),
        Kind::Namespace => by_namespace(alloc, index, world, key),
        Kind::Service => {
            let (namespace, name) = (key.namespace.bytes(), key.name.bytes());
            routes_alone(alloc, &index.by_service, namespace, name)
        }
        Kind::EndpointSlice => by_slice(alloc, index, world, key),
    }
}

// Puts those that depend on the object after it was put to those before it. Of other kinds they are the same.
fn add_after(
    alloc: Global,
    index: &Index,
    world: &World,
    touched: &mut Touched,
    object: &Object,
) -> Result<(), NoMemory>
    requires index { IsIndexOf world.now.world index.now }
    requires before { AreTouchedIn world.now.world (object_kind (seen_object object.now)) (object_key (seen_object object.now)) touched.old }
    ensures { OnOk result ((at : ℤ) → AreTouched world.now.world (puts (seen_object object.now)) at touched.new) }
{
    match object {
        Object::Gateway(gateway) => {
            let key = SharedKey::of(alloc, &gateway.meta.key)?;
            touched.gateways.add(key)
        }
        Object::HttpRoute(route) => add_route(alloc, world, touched, route),
        Object::EndpointSlice(slice) => add_slice(index, &mut touched.routes, slice),
        _ => Ok(()),
    }
}

/// The Routes and Gateways whose class, Gateway, namespace, grants, Service or slices the event changes, each once, of the index and the
/// world before it.
pub fn touched(
    alloc: Global,
    index: &Index,
    world: &World,
    event: &Event,
) -> Result<Touched, NoMemory>
    requires { IsIndexOf world.now.world index.now }
    ensures { IfOk result (λ touched. (at : ℤ) → AreTouched world.now.world (seen_event event.now) at touched) }
{
    match event {
        Event::Put(object) => {
            let mut touched = touched_before(alloc, index, world, object.kind(), object.key())?;
            add_after(alloc, index, world, &mut touched, object)?;
            Ok(touched)
        }
        Event::Remove(kind, key) => touched_before(alloc, index, world, *kind, key),
    }
}

//! The edges that go and those that come with an event.
ghost use Rattle.std.specs.Prelude.{◌≡◌, ◌≤◌, ◌||◌, ◌&&◌, [], not, length, IfOk, None, option_copied, option_map};
ghost use Rattle.std.specs.Option.{option_map_or};
ghost use Rattle.gw_text.specs.model.Objects.{puts, removes};
ghost use Rattle.gw_text.specs.model.Stored.{IsInKeyOrder, stored_at};
ghost use Rattle.gw_text.specs.model.World.{gateway_key, route_key};
ghost use Rattle.gw_store.specs.SeenEvents.{seen_event, seen_object};
ghost use Rattle.gw_deps.specs.Edges as edges;
ghost use Rattle.gw_deps.specs.Edges.{has_edge, same_edge};
ghost use Rattle.gw_deps.specs.Indexes as indexes;
ghost use Rattle.gw_deps.specs.Indexes.{AreAlike, AreEdges, AreExchanges, HasKey, Replaces};

use crate::edge::Edge;
use crate::lookup::find;
use crate::object_edges::{RouteEdges, class_edges, route_edges};
use crate::sorted::Sorted;
use gw_objects::Gateway;
use gw_route::HttpRoute;
use gw_store::{Event, Object, World};
use gw_text::{Key, Kind, NoMemory};
use std::alloc::Global;
use std::marker::Model;

/// The edges of one list that an object gave, and those that it gives.
#[derive(Drop)]
pub struct Exchange {
    pub former: Sorted<Edge>,
    pub next: Sorted<Edge>,
}

impl Model for Exchange {
    ghost use Rattle.gw_deps.specs.Indexes.{Exchange as Plain};

    ghost Value = { Plain };

    ghost view = { λ e. record { former = e.former.list; next = e.next.list } };
}

// Takes an edge away that goes and doesn't come again.
fn remove_one(edges: &mut Sorted<Edge>, edge: &Edge, next: &Sorted<Edge>)
    ensures has { (x : _) → has_edge x edges.new.list ≡ (has_edge x edges.old.list && not (same_edge edge.now x && not (has_edge x next.now.list))) }
    ensures spare { edges.old.spare ≤ edges.new.spare }
{
    if next.has(edge) {
        return;
    }
    edges.remove(edge);
}

fn remove_former(edges: &mut Sorted<Edge>, former: &[Edge], next: &Sorted<Edge>)
    ensures has { (x : _) → has_edge x edges.new.list ≡ (has_edge x edges.old.list && not (has_edge x former.now && not (has_edge x next.now.list))) }
    ensures spare { edges.old.spare ≤ edges.new.spare }
{
    'edges: for edge in former {
        remove_one(edges, edge, next);
    }
}

fn put_next(edges: &mut Sorted<Edge>, mut next: Vec<Edge>)
    requires { length next.items ≤ edges.old.spare }
    ensures { (x : _) → has_edge x edges.new.list ≡ (has_edge x next.items || has_edge x edges.old.list) }
{
    'edges: while let Some(edge) = next.pop() {
        edges.put(edge);
    }
}

impl Exchange {
    fn nothing(alloc: Global) -> Self
        ensures { result ≡ indexes.nothing }
    {
        Exchange {
            former: Sorted::new(alloc),
            next: Sorted::new(alloc),
        }
    }

    /// Does it. Takes no memory. Most objects give the same edges again, which then stay where they are.
    pub fn apply(self, edges: &mut Sorted<Edge>)
        requires { length self.next ≤ edges.old.spare }
        ensures { indexes.Exchanges self edges.old.list edges.new.list }
    {
        let Exchange { former, next } = self;
        remove_former(edges, former.as_slice(), &next);
        put_next(edges, next.into_vec());
    }
}

/// The exchanges of an index.
#[derive(Drop)]
pub struct Exchanges {
    pub by_class: Exchange,
    pub by_gateway: Exchange,
    pub by_namespace: Exchange,
    pub by_service: Exchange,
    pub by_grant: Exchange,
}

impl Model for Exchanges {
    ghost use Rattle.gw_deps.specs.Indexes.{IndexExchange as Plain};

    ghost Value = { Plain };

    ghost view = { λ e. record {
      by_class = e.by_class;
      by_gateway = e.by_gateway;
      by_namespace = e.by_namespace;
      by_service = e.by_service;
      by_grant = e.by_grant;
    } };
}

impl Exchanges {
    fn nothing(alloc: Global) -> Self
        ensures { result ≡ record {
          by_class = indexes.nothing;
          by_gateway = indexes.nothing;
          by_namespace = indexes.nothing;
          by_service = indexes.nothing;
          by_grant = indexes.nothing;
        } }
    {
        Exchanges {
            by_class: Exchange::nothing(alloc),
            by_gateway: Exchange::nothing(alloc),
            by_namespace: Exchange::nothing(alloc),
            by_service: Exchange::nothing(alloc),
            by_grant: Exchange::nothing(alloc),
        }
    }
}

fn edges_of_gateway(alloc: Global, gateway: Option<&Gateway>) -> Result<Sorted<Edge>, NoMemory>
    ensures { IfOk result (λ s. AreEdges s.list (option_map_or edges.class_edges (option_copied gateway.entry) [])) }
{
    match gateway {
        Some(gateway) => class_edges(alloc, gateway),
        None => Ok(Sorted::new(alloc)),
    }
}

fn edges_of_route(alloc: Global, route: Option<&HttpRoute>) -> Result<RouteEdges, NoMemory>
    ensures parents { IfOk result (λ e. AreEdges e.parents.list (option_map_or edges.parent_edges (option_copied route.entry) [])) }
    ensures namespace { IfOk result (λ e. AreEdges e.namespace.list (option_map_or edges.namespace_edges (option_copied route.entry) [])) }
    ensures services { IfOk result (λ e. AreEdges e.services.list (option_map_or edges.service_edges (option_copied route.entry) [])) }
    ensures grants { IfOk result (λ e. AreEdges e.grants.list (option_map_or edges.grant_edges (option_copied route.entry) [])) }
{
    match route {
        Some(route) => route_edges(alloc, route),
        None => Ok(RouteEdges::none(alloc)),
    }
}

fn held_gateway<'w>(world: &'w World, key: &Key) -> Option<&'w Gateway>
    ensures found { option_copied result ≡ option_map (λ s. s.object) (stored_at gateway_key key.now world.now.world.gateways) }
    ensures order { IsInKeyOrder gateway_key world.now.world.gateways }
    ensures alike { AreAlike gateway_key key.now world.now.world.gateways }
{
    match find(world.gateways(), key) {
        Some(gateway) => Some(gateway),
        None => None,
    }
}

fn held_route<'w>(world: &'w World, key: &Key) -> Option<&'w HttpRoute>
    ensures found { option_copied result ≡ option_map (λ s. s.object) (stored_at route_key key.now world.now.world.routes) }
    ensures order { IsInKeyOrder route_key world.now.world.routes }
    ensures alike { AreAlike route_key key.now world.now.world.routes }
{
    match find(world.routes(), key) {
        Some(route) => Some(route),
        None => None,
    }
}

// The exchange where the Gateway of this key becomes another one, or goes.
fn gateway_exchange(
    alloc: Global,
    world: &World,
    key: &Key,
    next: Option<&Gateway>,
) -> Result<Exchange, NoMemory>
    requires { HasKey gateway_key key.now (option_copied next) }
    ensures { IfOk result (Replaces gateway_key edges.class_edges key.now (option_copied next.entry) world.now.world.gateways) }
{
    Ok(Exchange {
        former: edges_of_gateway(alloc, held_gateway(world, key))?,
        next: edges_of_gateway(alloc, next)?,
    })
}

/// The exchanges of a Route.
#[derive(Drop)]
struct RouteExchanges {
    by_gateway: Exchange,
    by_namespace: Exchange,
    by_service: Exchange,
    by_grant: Exchange,
}

// The exchanges where the Route of this key becomes another one, or goes.
fn route_exchanges(
    alloc: Global,
    world: &World,
    key: &Key,
    next: Option<&HttpRoute>,
) -> Result<RouteExchanges, NoMemory>
    requires { HasKey route_key key.now (option_copied next) }
    ensures by_gateway { IfOk result (λ e. Replaces route_key edges.parent_edges key.now (option_copied next.entry) world.now.world.routes e.by_gateway) }
    ensures by_namespace { IfOk result (λ e. Replaces route_key edges.namespace_edges key.now (option_copied next.entry) world.now.world.routes e.by_namespace) }
    ensures by_service { IfOk result (λ e. Replaces route_key edges.service_edges key.now (option_copied next.entry) world.now.world.routes e.by_service) }
    ensures by_grant { IfOk result (λ e. Replaces route_key edges.grant_edges key.now (option_copied next.entry) world.now.world.routes e.by_grant) }
{
    let former = edges_of_route(alloc, held_route(world, key))?;
    let next = edges_of_route(alloc, next)?;
    Ok(RouteExchanges {
        by_gateway: Exchange {
            former: former.parents,
            next: next.parents,
        },
        by_namespace: Exchange {
            former: former.namespace,
            next: next.namespace,
        },
        by_service: Exchange {
            former: former.services,
            next: next.services,
        },
        by_grant: Exchange {
            former: former.grants,
            next: next.grants,
        },
    })
}

// Those of an index, where a Gateway alone changes.
fn of_gateway(alloc: Global, by_class: Exchange) -> Exchanges
    ensures { result ≡ record {
      by_class = by_class;
      by_gateway = indexes.nothing;
      by_namespace = indexes.nothing;
      by_service = indexes.nothing;
      by_grant = indexes.nothing;
    } }
{
    Exchanges {
        by_class,
        by_gateway: Exchange::nothing(alloc),
        by_namespace: Exchange::nothing(alloc),
        by_service: Exchange::nothing(alloc),
        by_grant: Exchange::nothing(alloc),
    }
}

// Those of an index, where a Route alone changes.
fn of_route(alloc: Global, route: RouteExchanges) -> Exchanges
    ensures { result ≡ record {
      by_class = indexes.nothing;
      by_gateway = route.by_gateway;
      by_namespace = route.by_namespace;
      by_service = route.by_service;
      by_grant = route.by_grant;
    } }
{
    Exchanges {
        by_class: Exchange::nothing(alloc),
        by_gateway: route.by_gateway,
        by_namespace: route.by_namespace,
        by_service: route.by_service,
        by_grant: route.by_grant,
    }
}

fn put_exchanges(alloc: Global, world: &World, object: &Object) -> Result<Exchanges, NoMemory>
    ensures { IfOk result (AreExchanges world.now.world (puts (seen_object object.now))) }
{
    match object {
        Object::Gateway(gateway) => {
            let key = &gateway.meta.key;
            let by_class = gateway_exchange(alloc, world, key, Some(gateway))?;
            Ok(of_gateway(alloc, by_class))
        }
        Object::HttpRoute(route) => {
            let route = route_exchanges(alloc, world, &route.meta.key, Some(route))?;
            Ok(of_route(alloc, route))
        }
        _ => Ok(Exchanges::nothing(alloc)),
    }
}

fn removal_exchanges(
    alloc: Global,
    world: &World,
    kind: Kind,
    key: &Key,
) -> Result<Exchanges, NoMemory>
    ensures { IfOk result (AreExchanges world.now.world (removes kind key.now)) }
{
    match kind {
        Kind::Gateway => {
            let by_class = gateway_exchange(alloc, world, key, None)?;
            Ok(of_gateway(alloc, by_class))
        }
        Kind::HttpRoute => {
            let route = route_exchanges(alloc, world, key, None)?;
            Ok(of_route(alloc, route))
        }
        _ => Ok(Exchanges::nothing(alloc)),
    }
}

/// The exchanges of the event, over the world before it. Gateways and Routes alone give edges.
pub fn exchanges_by(alloc: Global, world: &World, event: &Event) -> Result<Exchanges, NoMemory>
    ensures { IfOk result (AreExchanges world.now.world (seen_event event.now)) }
{
    match event {
        Event::Put(object) => put_exchanges(alloc, world, object),
        Event::Remove(kind, key) => removal_exchanges(alloc, world, *kind, key),
    }
}

//! The edges that one object gives.
ghost use Rattle.std.specs.Prelude.{◌≡◌, ◌||◌, [], IfOk, OnOk, option_map};
ghost use Rattle.std.specs.List.{list_any};
ghost use Rattle.gw_text.specs.model.Routes.{names_gateway};
ghost use Rattle.gw_text.specs.model.Selectors.{label_of};
ghost use Rattle.std.specs.Prelude.{codes};
ghost use Rattle.gw_deps.specs.Edges as edges;
ghost use Rattle.gw_deps.specs.Edges.{has_edge, gives, names_service, leaves, parent_edge, service_edge, grant_edge};
ghost use Rattle.gw_deps.specs.Indexes.{AreEdges};

use crate::edge::{Edge, add_edge};
use crate::key::SharedKey;
use crate::sorted::Sorted;
use gw_objects::{EndpointSlice, Gateway};
use gw_route::{BackendRef, HttpRoute, ParentRef};
use gw_text::NoMemory;
use std::alloc::Global;

/// The edge of a Gateway from its class.
pub fn class_edges(alloc: Global, gateway: &Gateway) -> Result<Sorted<Edge>, NoMemory>
    ensures { IfOk result (λ s. AreEdges s.list (edges.class_edges gateway.now)) }
{
    let key = SharedKey::of(alloc, &gateway.meta.key)?;
    let mut all = Sorted::new(alloc);
    let class = gateway.gateway_class_name.bytes();
    add_edge(alloc, &mut all, b"", class, &key)?;
    Ok(all)
}

/// The edges of a Route.
#[derive(Drop)]
pub struct RouteEdges {
    pub parents: Sorted<Edge>,
    pub namespace: Sorted<Edge>,
    pub services: Sorted<Edge>,
    pub grants: Sorted<Edge>,
}

impl RouteEdges {
    /// Those without a Route.
    pub fn none(alloc: Global) -> Self
        ensures parents { result.parents.list ≡ [] }
        ensures namespace { result.namespace.list ≡ [] }
        ensures services { result.services.list ≡ [] }
        ensures grants { result.grants.list ≡ [] }
    {
        RouteEdges {
            parents: Sorted::new(alloc),
            namespace: Sorted::new(alloc),
            services: Sorted::new(alloc),
            grants: Sorted::new(alloc),
        }
    }
}

fn add_parent(
    alloc: Global,
    all: &mut Sorted<Edge>,
    key: &SharedKey,
    parent: &ParentRef,
) -> Result<(), NoMemory>
    ensures { OnOk result ((x : _) → has_edge x all.new.list ≡ (gives names_gateway (parent_edge key.now) x parent.now || has_edge x all.old.list)) }
{
    if !parent.names_gateway() {
        return Ok(());
    }
    add_edge(
        alloc,
        all,
        parent.namespace.bytes(),
        parent.name.bytes(),
        key,
    )
}

fn parent_edges(alloc: Global, key: &SharedKey, route: &HttpRoute) -> Result<Sorted<Edge>, NoMemory>
    requires { key.now ≡ route.now.meta.key }
    ensures { IfOk result (λ s. AreEdges s.list (edges.parent_edges route.now)) }
{
    let mut all = Sorted::new(alloc);
    'parents: for parent in route.parent_refs.as_slice() {
        add_parent(alloc, &mut all, key, parent)?;
    }
    Ok(all)
}

fn namespace_edges(
    alloc: Global,
    key: &SharedKey,
    route: &HttpRoute,
) -> Result<Sorted<Edge>, NoMemory>
    requires { key.now ≡ route.now.meta.key }
    ensures { IfOk result (λ s. AreEdges s.list (edges.namespace_edges route.now)) }
{
    let mut all = Sorted::new(alloc);
    let namespace = route.meta.key.namespace.bytes();
    add_edge(alloc, &mut all, b"", namespace, key)?;
    Ok(all)
}

fn add_service(
    alloc: Global,
    all: &mut Sorted<Edge>,
    key: &SharedKey,
    backend: &BackendRef,
) -> Result<(), NoMemory>
    ensures { OnOk result ((x : _) → has_edge x all.new.list ≡ (gives names_service (service_edge key.now) x backend.now || has_edge x all.old.list)) }
{
    if !backend.names_service() {
        return Ok(());
    }
    add_edge(
        alloc,
        all,
        backend.namespace.bytes(),
        backend.name.bytes(),
        key,
    )
}

fn add_grant(
    alloc: Global,
    all: &mut Sorted<Edge>,
    key: &SharedKey,
    backend: &BackendRef,
) -> Result<(), NoMemory>
    ensures { OnOk result ((x : _) → has_edge x all.new.list ≡ (gives (leaves key.now.namespace) (grant_edge key.now) x backend.now || has_edge x all.old.list)) }
{
    if backend.namespace.bytes() == key.namespace.bytes() {
        return Ok(());
    }
    add_edge(alloc, all, b"", backend.namespace.bytes(), key)
}

/// The edges from Services, and those from other namespaces.
#[derive(Drop)]
struct BackendEdges {
    services: Sorted<Edge>,
    grants: Sorted<Edge>,
}

impl BackendEdges {
    // Puts the edges of the backendRefs of a rule to the others.
    fn add_rule(
        &mut self,
        alloc: Global,
        key: &SharedKey,
        backends: &[BackendRef],
    ) -> Result<(), NoMemory>
        ensures services { OnOk result ((x : _) → has_edge x self.new.services.list
            ≡ (list_any (gives names_service (service_edge key.now) x) backends.now || has_edge x self.old.services.list)) }
        ensures grants { OnOk result ((x : _) → has_edge x self.new.grants.list
            ≡ (list_any (gives (leaves key.now.namespace) (grant_edge key.now) x) backends.now || has_edge x self.old.grants.list)) }
    {
        'backends: for backend in backends {
            add_service(alloc, &mut self.services, key, backend)?;
            add_grant(alloc, &mut self.grants, key, backend)?;
        }
        Ok(())
    }
}

fn backend_edges(
    alloc: Global,
    key: &SharedKey,
    route: &HttpRoute,
) -> Result<BackendEdges, NoMemory>
    requires { key.now ≡ route.now.meta.key }
    ensures services { IfOk result (λ e. AreEdges e.services.list (edges.service_edges route.now)) }
    ensures grants { IfOk result (λ e. AreEdges e.grants.list (edges.grant_edges route.now)) }
{
    let mut all = BackendEdges {
        services: Sorted::new(alloc),
        grants: Sorted::new(alloc),
    };
    'rules: for rule in route.rules.as_slice() {
        all.add_rule(alloc, key, rule.backend_refs.as_slice())?;
    }
    Ok(all)
}

/// The edges of a Route, from all that it names.
pub fn route_edges(alloc: Global, route: &HttpRoute) -> Result<RouteEdges, NoMemory>
    ensures parents { IfOk result (λ e. AreEdges e.parents.list (edges.parent_edges route.now)) }
    ensures namespace { IfOk result (λ e. AreEdges e.namespace.list (edges.namespace_edges route.now)) }
    ensures services { IfOk result (λ e. AreEdges e.services.list (edges.service_edges route.now)) }
    ensures grants { IfOk result (λ e. AreEdges e.grants.list (edges.grant_edges route.now)) }
{
    let key = SharedKey::of(alloc, &route.meta.key)?;
    let parents = parent_edges(alloc, &key, route)?;
    let namespace = namespace_edges(alloc, &key, route)?;
    let BackendEdges { services, grants } = backend_edges(alloc, &key, route)?;
    Ok(RouteEdges {
        parents,
        namespace,
        services,
        grants,
    })
}

/// The name of the Service of a slice, in the slice's namespace.
pub fn service_name(slice: &EndpointSlice) -> Option<&str>
    ensures { option_map (λ name. name.now) result ≡ label_of (codes "kubernetes.io/service-name") slice.now.labels }
{
    slice.labels.get("kubernetes.io/service-name")
}

//! Whether a ReferenceGrant permits a Route to refer to a Service of another namespace.
#![tactic(auto)]

ghost use Rattle.std.specs.Prelude.{◌≡◌, true, bytes_eq};
ghost use Rattle.std.specs.List.{list_any};
ghost use Rattle.std.specs.Option.{option_map_or};
ghost use Rattle.gw_text.specs.model.References as rules;
ghost use Rattle.gw_text.specs.model.Routes.{is_core_service};
ghost use Rattle.gw_text.specs.model.Stored.{objects_of};

use gw_objects::{GrantFrom, GrantTo, ReferenceGrant};
use gw_text::{GATEWAY_GROUP, Key, Stored, Text};

// Whether the entry is for the HTTPRoutes of this namespace.
#[tactic(auto, unfolding(gw_text::specs::model::Kinds::gateway_group))]
fn is_from(namespace: &Text, from: &GrantFrom) -> bool
    ensures { result ≡ rules.is_from namespace.now from.now }
{
    from.group.bytes() == GATEWAY_GROUP.as_bytes()
        && from.kind.bytes() == b"HTTPRoute".as_slice()
        && from.namespace.bytes() == namespace.bytes()
}

fn has_from(namespace: &Text, entries: &[GrantFrom]) -> bool
    ensures { result ≡ list_any (rules.is_from namespace.now) entries.now }
{
    entries.iter().any(|from| is_from(namespace, from))
}

fn is_service(to: &GrantTo) -> bool
    ensures { result ≡ is_core_service to.now.group to.now.kind }
{
    to.group.bytes().is_empty() && to.kind.bytes() == b"Service".as_slice()
}

fn has_name(name: &Text, to: &GrantTo) -> bool
    ensures { result ≡ option_map_or (bytes_eq name.now) to.now.name true }
{
    match &to.name {
        Some(own) => name.bytes() == own.bytes(),
        None => true,
    }
}

// Whether the entry is for the Service of this name, alone or among all.
fn is_to(name: &Text, to: &GrantTo) -> bool
    ensures { result ≡ rules.is_to name.now to.now }
{
    is_service(to) && has_name(name, to)
}

fn has_to(name: &Text, entries: &[GrantTo]) -> bool
    ensures { result ≡ list_any (rules.is_to name.now) entries.now }
{
    entries.iter().any(|to| is_to(name, to))
}

// A grant speaks of the Services of its own namespace. Both entries have to stand in the one grant.
#[tactic(auto, unfolding(gw_text::specs::model::References::permits))]
fn permits(namespace: &Text, service: &Key, grant: &ReferenceGrant) -> bool
    ensures { result ≡ rules.permits namespace.now service.now grant.now }
{
    grant.meta.key.is_in(&service.namespace)
        && has_from(namespace, grant.from.as_slice())
        && has_to(&service.name, grant.to.as_slice())
}

/// Whether some grant permits the HTTPRoutes of `route_namespace` to refer to the Service. Grants of other namespaces than
/// the Service's may be among them, and count nothing.
pub fn granted(grants: &[Stored<ReferenceGrant>], route_namespace: &Text, service: &Key) -> bool
    ensures { result ≡ rules.granted (objects_of grants.now) route_namespace.now service.now }
{
    grants
        .iter()
        .any(|grant| permits(route_namespace, service, grant))
}

//! Whether the backendRefs of Routes are resolved, and what becomes of each.
ghost use Rattle.std.specs.Prelude.{◌≡◌, IfOk, option_copied, option_map};
ghost use Rattle.gw_text.specs.model.References as references;
ghost use Rattle.gw_text.specs.model.Routes.{backend_key};
ghost use Rattle.gw_text.specs.model.World as worlds;
ghost use Rattle.gw_route.specs.States.{seen_state};
ghost use Rattle.gw_eval.specs.Results.{first_fault_in, first_fault_of, resolved_in};

use gw_backend::{backend_state, unresolved};
use gw_grant::granted;
use gw_objects::Service;
use gw_route::{BackendRef, BackendState, HttpRoute, Rule};
use gw_status::{CondKind, Condition, Reason};
use gw_store::World;
use gw_text::{Key, NoMemory, Text};
use std::alloc::Global;

// Whether a Route of this namespace may refer to what the backendRef names, which has this key.
fn is_permitted(world: &World, namespace: &Text, to: &BackendRef, key: &Key) -> bool
    requires key { key.now ≡ backend_key to.now }
    ensures { result ≡ references.is_permitted world.now.world namespace.now to.now }
{
    *to.namespace == *namespace || granted(world.grants_in(&to.namespace), namespace, key)
}

// The Service of this key, if it is held.
fn service<'w>(world: &'w World, key: &Key) -> Option<&'w Service>
    ensures { option_copied result ≡ option_map (λ s. s.object) (worlds.service_at world.now.world key.now) }
{
    let found = world.service(key)?;
    Some(found)
}

/// What becomes of the backendRef of a Route of this namespace.
pub fn state(
    alloc: Global,
    world: &World,
    namespace: &Text,
    to: &BackendRef,
) -> Result<BackendState, NoMemory>
    ensures { IfOk result (λ state. seen_state state ≡ references.backend_state_in world.now.world namespace.now to.now) }
{
    let key = to.key(alloc)?;
    let permitted = is_permitted(world, namespace, to, &key);
    let slices = world.slices_of(alloc, &key)?;
    backend_state(
        alloc,
        to,
        permitted,
        service(world, &key),
        slices.as_slice(),
    )
}

// Why the backendRef of a Route of this namespace isn't resolved, if it isn't.
#[tactic(auto, unfolding(gw_text::specs::model::References::backend_state_in))]
fn fault(
    alloc: Global,
    world: &World,
    namespace: &Text,
    to: &BackendRef,
) -> Result<Option<Reason>, NoMemory>
    ensures { IfOk result (λ reason. reason ≡ references.unresolved (references.backend_state_in world.now.world namespace.now to.now)) }
{
    let key = to.key(alloc)?;
    let permitted = is_permitted(world, namespace, to, &key);
    Ok(unresolved(to, permitted, service(world, &key)))
}

// Why the first of these that isn't resolved isn't.
#[tactic(auto, unfolding(crate::specs::Results::first_fault_of))]
fn first_fault(
    alloc: Global,
    world: &World,
    namespace: &Text,
    refs: &[BackendRef],
) -> Result<Option<Reason>, NoMemory>
    ensures { IfOk result (λ reason. reason ≡ first_fault_of world.now.world namespace.now refs.now) }
{
    'refs: for to in refs {
        let reason = fault(alloc, world, namespace, to)?;
        if reason.is_some() {
            return Ok(reason);
        }
    }
    Ok(None)
}

// Why the first backendRef of these rules of a Route of this namespace that isn't resolved isn't.
#[tactic(auto, unfolding(crate::specs::Results::first_fault_in, crate::specs::Results::first_fault_of))]
fn fault_of_rules(
    alloc: Global,
    world: &World,
    namespace: &Text,
    rules: &[Rule],
) -> Result<Option<Reason>, NoMemory>
    ensures { IfOk result (λ reason. reason ≡ first_fault_in world.now.world namespace.now rules.now) }
{
    'rules: for rule in rules {
        let reason = first_fault(alloc, world, namespace, rule.backend_refs.as_slice())?;
        if reason.is_some() {
            return Ok(reason);
        }
    }
    Ok(None)
}

// ResolvedRefs, but for this reason against it.
fn resolved_unless(reason: Option<Reason>) -> Condition
    ensures { result ≡ references.resolved_unless reason }
{
    match reason {
        Some(reason) => Condition::false_by(CondKind::ResolvedRefs, reason),
        None => Condition::true_by(CondKind::ResolvedRefs, Reason::ResolvedRefs),
    }
}

#[tactic(auto, unfolding(crate::specs::Results::resolved_in))]
fn resolved_by_rules(
    alloc: Global,
    world: &World,
    namespace: &Text,
    rules: &[Rule],
) -> Result<Condition, NoMemory>
    ensures { IfOk result (λ condition. condition ≡ resolved_in world.now.world namespace.now rules.now) }
{
    Ok(resolved_unless(fault_of_rules(alloc, world, namespace, rules)?))
}

fn namespace_of(route: &HttpRoute) -> &Text
    ensures { result.now ≡ route.now.meta.key.namespace }
{
    &route.meta.key.namespace
}

/// ResolvedRefs of a Route, in each of its entries.
pub fn resolved_refs(alloc: Global, world: &World, route: &HttpRoute) -> Result<Condition, NoMemory>
    ensures { IfOk result (λ condition. condition ≡ references.resolved_refs_of world.now.world route.now) }
{
    let namespace = namespace_of(route);
    let condition = resolved_by_rules(alloc, world, namespace, route.rules.as_slice())?;
    Ok(condition)
}

//! What the rules of Routes do.
ghost use Rattle.std.specs.Prelude.{◌≡◌, IfOk, map, option_copied, unwrap_or};
ghost use Rattle.gw_text.specs.model.Filters.{no_edits};
ghost use Rattle.gw_text.specs.model.Plans as rules;

use crate::references::state;
use crate::shared_plans::Plans;
use gw_route::{
    BackendRef, Edits, HttpRoute, Rule, copy_edits, copy_filters, request_edits_in,
    response_edits_in,
};
use gw_rows::{Backend, Backends, Plan};
use gw_store::World;
use gw_text::{Fields, Names, NoMemory, Text};
use std::alloc::Global;

// The same edits, or none.
fn edits(alloc: Global, given: Option<&Edits>) -> Result<Edits, NoMemory>
    ensures { IfOk result (λ edits. edits ≡ unwrap_or (option_copied given.entry) no_edits) }
{
    match given {
        Some(edits) => copy_edits(alloc, edits),
        None => Ok(Edits {
            set: Fields::new(alloc),
            add: Fields::new(alloc),
            remove: Names::new(alloc),
        }),
    }
}

fn backend(
    alloc: Global,
    world: &World,
    namespace: &Text,
    to: &BackendRef,
) -> Result<Backend, NoMemory>
    ensures { IfOk result (λ backend. backend ≡ rules.backend_of world.now.world namespace.now to.now) }
{
    Ok(Backend {
        weight: to.weight,
        key: to.key(alloc)?,
        port: to.port.unwrap_or(0),
        state: state(alloc, world, namespace, to)?,
        request: edits(alloc, request_edits_in(to.filters.as_slice()))?,
        response: edits(alloc, response_edits_in(to.filters.as_slice()))?,
    })
}

/// The rule of a Route of this namespace.
pub fn plan(alloc: Global, world: &World, namespace: &Text, rule: &Rule) -> Result<Plan, NoMemory>
    ensures { IfOk result (λ plan. plan ≡ rules.plan_of world.now.world namespace.now rule.now) }
{
    let mut backends = Backends::new(alloc);
    'refs: for to in rule.backend_refs.as_slice() {
        backends.push(backend(alloc, world, namespace, to)?)?;
    }
    Ok(Plan {
        filters: copy_filters(alloc, rule.filters.as_slice())?,
        backends,
    })
}

/// The rules of a Route, in list order.
pub fn plans(alloc: Global, world: &World, route: &HttpRoute) -> Result<Plans, NoMemory>
    ensures { IfOk result (λ all. all ≡ rules.plans_of world.now.world route.now) }
{
    let mut all = Plans::new(alloc);
    'rules: for rule in route.rules.as_slice() {
        let plan = plan(alloc, world, &route.meta.key.namespace, rule)?;
        all.push(alloc, plan)?;
    }
    Ok(all)
}

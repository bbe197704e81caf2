//! The Routes that are attached to the Gateway of a door, each evaluated once.
ghost use Rattle.std.specs.Prelude.{◌≡◌, ◌<◌, ◌++◌, ◌∷◌, [], IfOk, OnOk, filter, flat_map, length, map, if◌then◌else◌};
ghost use Rattle.std.specs.List.{enumerate_from};
ghost use Rattle.gw_text.specs.model.Routes.{parent_key};
ghost use Rattle.gw_text.specs.model.Names.{same_key};
ghost use Rattle.gw_text.specs.model.Plans.{plan_of};
ghost use Rattle.gw_text.specs.model.World.{namespace_labels};
ghost use Rattle.gw_eval.specs.Candidates as evaluated;
ghost use Rattle.gw_eval.specs.Counting.{entries_in};

use crate::entries::{Entry, entries_by};
use crate::home::Home;
use crate::kept::{AttachedAt, KeptRoute};
use crate::plans::plan;
use crate::served::number;
use crate::shared_plans::Plans;
use gw_labels::Labels;
use gw_route::{HttpRoute, ParentRef, Rule};
use gw_rows::Plan;
use gw_store::World;
use gw_text::{Door, Key, NoMemory, Stored, Text};
use std::alloc::Global;
use std::marker::Model;
use std::sync::Arc;

/// A rule of a Route.
#[derive(Drop)]
pub struct PlannedRule<'w> {
    /// Its place in the Route.
    pub number: u32,
    pub rule: &'w Rule,
    pub plan: Arc<Plan>,
}

impl<'w> Model for PlannedRule<'w> {
    ghost use Rattle.gw_eval.specs.Candidates.{PlannedRule as Plain};

    ghost Value = { Plain };

    ghost view = { λ p. record { number = p.number; rule = p.rule.now; plan = p.plan.value } };
}

/// A Route that some entry attaches to a listener of the door's Gateway.
#[derive(Drop)]
pub struct Candidate<'w> {
    pub route: &'w Stored<HttpRoute>,
    /// The places of the Gateway's listeners to which its entries attach it.
    pub places: Vec<usize>,
    pub rules: Vec<PlannedRule<'w>>,
}

impl<'w> Model for Candidate<'w> {
    ghost use Rattle.gw_eval.specs.Candidates.{Candidate as Plain};

    ghost Value = { Plain };

    ghost view = { λ c. record { route = c.route.now; places = c.places.items; rules = c.rules.items } };
}

fn planned_rule<'w>(
    alloc: Global,
    world: &World,
    namespace: &Text,
    place: usize,
    rule: &'w Rule,
) -> Result<PlannedRule<'w>, NoMemory>
    ensures { IfOk result (λ planned. planned ≡ evaluated.planned_rule world.now.world namespace.now (place, rule.now)) }
{
    let plan = plan(alloc, world, namespace, rule)?;
    Ok(PlannedRule {
        number: number(place)?,
        rule,
        plan: Arc::new(alloc, plan)?,
    })
}

// The rules of a Route of this namespace.
fn planned_rules<'w>(
    alloc: Global,
    world: &World,
    namespace: &Text,
    rules: &'w [Rule],
) -> Result<Vec<PlannedRule<'w>>, NoMemory>
    ensures { IfOk result (λ all. all.items ≡ evaluated.planned_rules world.now.world namespace.now rules.now) }
{
    let mut all = Vec::with_capacity(alloc, rules.len())?;
    'rules: for (place, rule) in rules.iter().enumerate() {
        all.push(planned_rule(alloc, world, namespace, place, rule)?)?;
    }
    Ok(all)
}

fn names(parent: &ParentRef, gateway: &Key) -> bool
    ensures { result ≡ same_key gateway.now (parent_key parent.now) }
{
    gateway.namespace == *parent.namespace && gateway.name == *parent.name
}

fn push_places(places: &mut Vec<usize>, gateway: &Key, entry: &Entry<'_>) -> Result<(), NoMemory>
    ensures { OnOk result (places.new.items ≡ places.old.items ++ evaluated.places_of gateway.now entry.now.entry) }
{
    if names(entry.parent, gateway) {
        places.extend_from_slice(entry.attachment.listeners.as_slice())?;
    }
    Ok(())
}

// The listeners of the Gateway of this key to which these entries attach their Route.
fn places_in(alloc: Global, gateway: &Key, entries: &[Entry<'_>]) -> Result<Vec<usize>, NoMemory>
    ensures { IfOk result (λ places. places.items ≡ evaluated.places_in gateway.now (entries_in entries.now)) }
{
    let mut places = Vec::new(alloc);
    'entries: for entry in entries {
        push_places(&mut places, gateway, entry)?;
    }
    Ok(places)
}

// Puts the Route, whose namespace has these labels, to the others, where it is attached to some listener of the Gateway.
fn push_candidate<'w>(
    alloc: Global,
    controller: &Text,
    world: &World,
    door: &Door,
    labels: &Labels,
    all: &mut Vec<Candidate<'w>>,
    route: &'w Stored<HttpRoute>,
) -> Result<(), NoMemory>
    requires { labels.now ≡ namespace_labels world.now.world route.now.object.meta.key.namespace }
    ensures { OnOk result (all.new.items ≡ all.old.items ++ filter evaluated.has_places (evaluated.candidate_of controller.now world.now.world door.now route.now ∷ [])) }
{
    let entries = entries_by(alloc, controller, world, labels, route)?;
    let places = places_in(alloc, &door.gateway, entries.as_slice())?;
    if !places.is_empty() {
        let namespace = &route.meta.key.namespace;
        let rules = planned_rules(alloc, world, namespace, route.rules.as_slice())?;
        all.push(Candidate {
            route,
            places,
            rules,
        })?;
    }
    Ok(())
}

/// The Routes that are attached to the door's Gateway, in key order.
#[tactic(auto, unfolding(crate::specs::Candidates::candidates_of))]
pub fn candidates<'w>(
    alloc: Global,
    controller: &Text,
    world: &'w World,
    door: &Door,
) -> Result<Vec<Candidate<'w>>, NoMemory>
    ensures { IfOk result (λ all. all.items ≡ evaluated.candidates_of controller.now world.now.world door.now) }
{
    let mut all = Vec::new(alloc);
    let mut home = Home::none(alloc);
    'routes: for route in world.routes() {
        home.enter(alloc, world, &route.meta.key.namespace)?;
        let labels = home.labels();
        push_candidate(alloc, controller, world, door, labels, &mut all, route)?;
    }
    Ok(all)
}

// The rules of a Route of this namespace, with what is kept of what they do.
fn kept_rules<'w>(
    alloc: Global,
    plans: &Plans,
    rules: &'w [Rule],
) -> Result<Vec<PlannedRule<'w>>, NoMemory>
    requires { length plans.now ≡ length rules.now }
    ensures { IfOk result (λ all. all.items ≡ evaluated.rules_with plans.now rules.now) }
{
    let mut all = Vec::with_capacity(alloc, rules.len())?;
    'rules: for (place, rule) in rules.iter().enumerate() {
        all.push(PlannedRule {
            number: number(place)?,
            rule,
            plan: plans.at(place)?,
        })?;
    }
    Ok(all)
}

fn push_kept_places(places: &mut Vec<usize>, gateway: &Key, at: &AttachedAt) -> Result<(), NoMemory>
    ensures { OnOk result (places.new.items ≡ places.old.items ++ evaluated.places_at gateway.now at.now) }
{
    if *gateway == at.gateway {
        places.extend_from_slice(at.listeners.as_slice())?;
    }
    Ok(())
}

// The listeners of the Gateway of this key to which the entries of a Route attach it.
fn kept_places(alloc: Global, gateway: &Key, kept: &KeptRoute) -> Result<Vec<usize>, NoMemory>
    ensures { IfOk result (λ places. places.items ≡ flat_map (evaluated.places_at gateway.now) kept.now.attached) }
{
    let mut places = Vec::new(alloc);
    'entries: for at in kept.attached.as_slice() {
        push_kept_places(&mut places, gateway, at)?;
    }
    Ok(places)
}

/// What is evaluated of a Route, out of what is kept of it.
pub fn kept_candidate<'w>(
    alloc: Global,
    door: &Door,
    kept: &'w KeptRoute,
) -> Result<Candidate<'w>, NoMemory>
    requires { length kept.now.plans ≡ length kept.now.route.object.rules }
    ensures { IfOk result (λ c. c ≡ evaluated.candidate_with door.now kept.now) }
{
    Ok(Candidate {
        route: &kept.route,
        places: kept_places(alloc, &door.gateway, kept)?,
        rules: kept_rules(alloc, &kept.plans, kept.route.rules.as_slice())?,
    })
}

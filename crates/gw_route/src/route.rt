ghost use Rattle.std.specs.Prelude.{◌≡◌, ◌∷◌, [], IfOk};
ghost use Rattle.gw_json.specs.Words.{Gives};
ghost use Rattle.gw_json.specs.Fields.{node_of};
ghost use Rattle.gw_route.specs.Routes as routes;

use crate::backend::BackendIn;
use crate::field_names::{BACKEND_REFS, PARENT_REFS};
use crate::filter::FilterForm;
use crate::matching::{MatchForm, or_default};
use crate::parent::ParentIn;
use crate::plain::{HttpRoute, Rule};
use gw_forms as forms;
use gw_json::{Cursor, Form, Refusal};
use gw_text::{Meta, NamespaceName};
use std::alloc::{AllocError, Global};

/// A rule of a Route of the namespace `own`.
#[derive(Clone, Copy)]
pub struct RuleIn<'o> {
    pub own: &'o NamespaceName,
}

impl<'o> Form for RuleIn<'o> {
    type Value = Rule;

    ghost seen = { λ value. value };

    ghost of = { λ form. routes.rule_of form.own.now };

    #[tactic(auto, unfolding(crate::specs::Routes::rule_of))]
    fn read(&self, alloc: Global, at: &Cursor<'_>) -> Result<Rule, Refusal> {
        Ok(Rule {
            matches: or_default(alloc, at.listed(alloc, "matches", 64, MatchForm)?)?,
            filters: at.listed(alloc, "filters", 16, FilterForm)?,
            backend_refs: at.listed(alloc, BACKEND_REFS, 16, BackendIn { own: self.own })?,
            timeouts: at.is_given(alloc, "timeouts")?,
        })
    }
}

// The rule of a Route that doesn't list any.
fn default_rule(alloc: Global) -> Result<Rule, AllocError>
    ensures { IfOk result (λ rule. rule ≡ routes.default_rule) }
{
    let rule = Rule {
        matches: or_default(alloc, Vec::new(alloc))?,
        filters: Vec::new(alloc),
        backend_refs: Vec::new(alloc),
        timeouts: false,
    };
    Ok(rule)
}

fn default_rules(alloc: Global) -> Result<Vec<Rule>, AllocError>
    ensures { IfOk result (λ v. v.items ≡ routes.default_rule ∷ []) }
{
    let mut rules = Vec::with_capacity(alloc, 1)?;
    rules.push(default_rule(alloc)?)?;
    Ok(rules)
}

#[tactic(auto, unfolding(crate::specs::Routes::rules_of, gw_json::specs::Presence::defaulted))]
fn rules(alloc: Global, own: &NamespaceName, spec: &Cursor<'_>) -> Result<Vec<Rule>, Refusal>
    ensures { Gives (λ v. v.items) result (routes.rules_of own.now (node_of spec.now)) }
{
    match spec.get(alloc, "rules")? {
        Some(found) => found.each(alloc, 16, RuleIn { own }),
        None => Ok(default_rules(alloc)?),
    }
}

/// The HTTPRoute that the object `at` is, whose metadata was read before.
#[tactic(auto, unfolding(crate::specs::Routes::route_of))]
pub fn read_route(alloc: Global, meta: Meta, at: &Cursor<'_>) -> Result<HttpRoute, Refusal>
    ensures { Gives (λ route. route) result (routes.route_of meta (node_of at.now)) }
{
    let own = meta.key.namespace_name(alloc)?;
    let spec = at.spec(alloc)?;
    let parent_refs = spec.listed(alloc, PARENT_REFS, 32, ParentIn { own: &own })?;
    let hostnames = spec.listed(alloc, "hostnames", 16, forms::Hostname)?;
    let rules = rules(alloc, &own, &spec)?;
    Ok(HttpRoute {
        meta,
        parent_refs,
        hostnames,
        rules,
    })
}

ghost use Rattle.gw_json.specs.Words.{Gives};
ghost use Rattle.gw_json.specs.Fields.{node_of};
ghost use Rattle.gw_json.specs.Presence.{any_length};
ghost use Rattle.gw_objects.specs.Gateways as gateways;

use crate::selector::SelectorForm;
use gw_forms as forms;
use gw_json::{Cursor, Form, Refusal, TextForm};
use gw_labels::Selector;
use gw_text::{FromNamespaces, GATEWAY_GROUP, Text};
use std::alloc::{AllocError, Global};
use std::marker::Model;

/// A kind of Route.
#[derive(Drop)]
pub struct RouteKind {
    pub group: Text,
    pub kind: Text,
}

impl Model for RouteKind {
    ghost use Rattle.gw_text.specs.model.Gateways.{RouteKind as Plain};

    ghost Value = { Plain };

    ghost view = { λ k. record { group = k.group; kind = k.kind } };
}

/// An item of allowedRoutes.kinds.
#[derive(Clone, Copy)]
struct RouteKindForm;

impl Form for RouteKindForm {
    type Value = RouteKind;

    ghost seen = { λ value. value };

    ghost of = { λ _. gateways.route_kind_of };

    #[tactic(auto, unfolding(crate::specs::Gateways::route_kind_of))]
    fn read(&self, alloc: Global, at: &Cursor<'_>) -> Result<RouteKind, Refusal> {
        let group = at.defaulted(alloc, "group", forms::Word, Text::of(alloc, GATEWAY_GROUP)?)?;
        let kind = at.needed(alloc, "kind", forms::Word)?;
        Ok(RouteKind { group, kind })
    }
}

/// Which Routes may attach to a listener.
#[derive(Drop)]
pub struct AllowedRoutes {
    pub from: FromNamespaces,
    /// Read where `from` is Selector. An absent one accepts no namespace.
    pub selector: Option<Selector>,
    /// The kinds that are named, if any.
    pub kinds: Vec<RouteKind>,
}

impl Model for AllowedRoutes {
    ghost use Rattle.std.specs.Prelude.{option_map};
    ghost use Rattle.gw_text.specs.model.Gateways.{AllowedRoutes as Plain};
    ghost use Rattle.gw_objects.specs.Seen.{seen_selector};

    ghost Value = { Plain };

    ghost view = { λ r. record { from = r.from; selector = option_map seen_selector r.selector; kinds = r.kinds.items } };
}

/// The choice of namespaces.
#[derive(Clone, Copy)]
struct FromName;

impl TextForm for FromName {
    type Value = FromNamespaces;

    ghost most = { λ _. any_length };

    ghost value = { λ _. gateways.named_from };

    fn most(&self) -> usize {
        usize::MAX
    }

    #[tactic(auto, unfolding(crate::specs::Gateways::named_from))]
    fn value(&self, _alloc: Global, text: &str) -> Result<Option<FromNamespaces>, AllocError> {
        match text {
            "All" => Ok(Some(FromNamespaces::All)),
            "Same" => Ok(Some(FromNamespaces::Same)),
            "Selector" => Ok(Some(FromNamespaces::Selector)),
            _ => Ok(None),
        }
    }
}

fn selector_for(
    alloc: Global,
    from: FromNamespaces,
    at: &Cursor<'_>,
) -> Result<Option<Selector>, Refusal>
    ensures { Gives (λ x. x) result (gateways.selector_for from (node_of at.now)) }
{
    match from {
        FromNamespaces::Selector => at.given(alloc, "selector", SelectorForm),
        FromNamespaces::All | FromNamespaces::Same => Ok(None),
    }
}

/// The namespaces from which Routes may attach, and the selector.
#[derive(Clone, Copy)]
struct NamespacesForm;

impl Form for NamespacesForm {
    type Value = (FromNamespaces, Option<Selector>);

    ghost seen = { λ value. value };

    ghost of = { λ _. gateways.namespaces_of };

    #[tactic(auto, unfolding(crate::specs::Gateways::namespaces_of))]
    fn read(
        &self,
        alloc: Global,
        at: &Cursor<'_>,
    ) -> Result<(FromNamespaces, Option<Selector>), Refusal> {
        let from = at.defaulted(alloc, "from", FromName, FromNamespaces::Same)?;
        let selector = selector_for(alloc, from, at)?;
        Ok((from, selector))
    }
}

/// The Routes that a listener allows.
#[derive(Clone, Copy)]
pub struct AllowedRoutesForm;

impl Form for AllowedRoutesForm {
    type Value = AllowedRoutes;

    ghost seen = { λ value. value };

    ghost of = { λ _. gateways.allowed_routes_of };

    #[tactic(auto, unfolding(crate::specs::Gateways::allowed_routes_of))]
    fn read(&self, alloc: Global, at: &Cursor<'_>) -> Result<AllowedRoutes, Refusal> {
        let default = (FromNamespaces::Same, None);
        let (from, selector) = at.defaulted(alloc, "namespaces", NamespacesForm, default)?;
        let kinds = at.listed(alloc, "kinds", 8, RouteKindForm)?;
        Ok(AllowedRoutes {
            from,
            selector,
            kinds,
        })
    }
}

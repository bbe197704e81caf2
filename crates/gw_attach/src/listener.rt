//! Whether a listener takes a Route: it is selected by the parentRef, it allows the Route, and they have a hostname in common.
ghost use Rattle.std.specs.Prelude.{◌≡◌, ◌==◌, ℕ, List, true, bytes_eq, option_map};
ghost use Rattle.std.specs.List.{list_any};
ghost use Rattle.std.specs.Option.{option_map_or};
ghost use Rattle.gw_text.specs.model.Attachment as rules;
ghost use Rattle.gw_text.specs.model.Hostnames.{meets as meets_host, meets_some};
ghost use Rattle.gw_text.specs.model.Selectors.{selector_accepts};
ghost use Rattle.gw_objects.specs.Seen.{seen_selector};

use gw_host::meets;
use gw_labels::{Labels, Selector, accepts};
use gw_objects::{Gateway, Listener};
use gw_route::{HttpRoute, ParentRef};
use gw_text::{FromNamespaces, Host};

/// A Gateway as a Route sees it that wants to be attached there.
#[derive(Clone, Copy)]
pub struct Target<'g> {
    pub gateway: &'g Gateway,
    /// Whether the Route stands in the Gateway's own namespace.
    pub is_own: bool,
}

/// Whether the Route stands in the Gateway's own namespace.
pub fn is_own(gateway: &Gateway, route: &HttpRoute) -> bool
    ensures { result ≡ bytes_eq gateway.now.meta.key.namespace route.now.meta.key.namespace }
{
    gateway.meta.key.namespace == route.meta.key.namespace
}

fn has_section(parent: &ParentRef, listener: &Listener) -> bool
    ensures { result ≡ option_map_or (bytes_eq listener.now.name) parent.now.section_name true }
{
    match &parent.section_name {
        Some(name) => listener.name.bytes() == name.bytes(),
        None => true,
    }
}

fn has_port(parent: &ParentRef, listener: &Listener) -> bool
    ensures { result ≡ option_map_or (λ port. port == listener.now.port) parent.now.port true }
{
    match parent.port {
        Some(port) => port == listener.port,
        None => true,
    }
}

/// Whether the parentRef selects the listener.
pub fn selects(parent: &ParentRef, listener: &Listener) -> bool
    ensures { result ≡ rules.selects parent.now listener.now }
{
    has_section(parent, listener) && has_port(parent, listener)
}

// An absent selector accepts no namespace.
#[tactic(auto, unfolding(gw_text::specs::model::Selectors::selector_accepts), using(crate::proofs::Selectors::selects_is))]
fn accepts_labels(selector: &Option<Selector>, labels: &Labels) -> bool
    ensures { result ≡ selector_accepts (option_map seen_selector selector.now) labels.now }
{
    match selector {
        Some(selector) => accepts(selector, labels),
        None => false,
    }
}

fn takes_from(is_own: bool, labels: &Labels, listener: &Listener) -> bool
    ensures { (own other : List ℕ) → is_own ≡ bytes_eq own other →
        result ≡ rules.takes_from listener.now.allowed_routes.from listener.now.allowed_routes.selector own other labels.now }
{
    match listener.allowed_routes.from {
        FromNamespaces::All => true,
        FromNamespaces::Same => is_own,
        FromNamespaces::Selector => accepts_labels(&listener.allowed_routes.selector, labels),
    }
}

/// Whether the listener allows the Route, whose namespace has these labels.
#[tactic(auto, unfolding(gw_text::specs::model::Attachment::allows))]
pub fn allows(target: &Target<'_>, labels: &Labels, route: &HttpRoute, listener: &Listener) -> bool
    requires own { target.now.is_own ≡ bytes_eq target.now.gateway.now.meta.key.namespace route.now.meta.key.namespace }
    ensures { result ≡ rules.allows target.now.gateway.now labels.now route.now listener.now }
{
    listener.supports_http_route() && takes_from(target.is_own, labels, listener)
}

fn meets_one_of(own: &Host, hostnames: &[Host]) -> bool
    ensures { result ≡ list_any (meets_host own.now) hostnames.now }
{
    hostnames.iter().any(|other| meets(own, other))
}

/// Whether the listener has a hostname in common with a Route that has these.
#[tactic(auto, using(crate::proofs::Hostnames::meets_given))]
pub fn has_common_hostname(listener: &Listener, hostnames: &[Host]) -> bool
    ensures { result ≡ meets_some listener.now.hostname hostnames.now }
{
    match &listener.hostname {
        Some(own) => hostnames.is_empty() || meets_one_of(own, hostnames),
        None => true,
    }
}

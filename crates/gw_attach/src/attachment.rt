ghost use Rattle.std.specs.Prelude.{◌≡◌, ◌||◌, ◌++◌, [], ℕ, List, bytes_eq, IfOk, OnOk};
ghost use Rattle.std.specs.List.{list_any};
ghost use Rattle.gw_text.specs.model.Attachment as rules;
ghost use Rattle.gw_text.specs.model.Gateways.{Gateway as PlainGateway};
ghost use Rattle.gw_text.specs.model.Routes.{ParentRef as PlainParent};
ghost use Rattle.gw_route.specs.Reasons.{condition_of};
ghost use Rattle.gw_attach.specs.Places.{place_if};

use crate::listener::{Target, allows, has_common_hostname, is_own, selects};
use gw_labels::Labels;
use gw_objects::{Gateway, Listener};
use gw_route::{HttpRoute, ParentRef, RouteReason, unsupported};
use gw_text::{List, NoMemory};
use std::alloc::Global;
use std::marker::Model;

/// The places of listeners in a Gateway's list, in their order.
pub type Places = List<usize>;

/// What comes of a Route at a Gateway that one of its parentRefs names.
#[derive(Drop)]
pub struct Attachment {
    pub reason: RouteReason,
    /// The listeners to which the Route is attached: none unless it is accepted.
    pub listeners: Places,
}

impl Model for Attachment {
    ghost use Rattle.gw_text.specs.model.Attachment.{Attachment as Plain};
    ghost use Rattle.gw_route.specs.Reasons.{condition_of};

    ghost Value = { Plain };

    ghost view = { λ a. record { accepted = condition_of a.reason; listeners = a.listeners } };
}

/// What was found at the listeners so far.
#[derive(Drop)]
struct Found {
    /// Whether the parentRef selects some listener.
    selected: bool,
    /// Whether some listener that it selects allows the Route.
    allowed: bool,
    /// Whether some of those has a hostname in common with it.
    taken: bool,
    places: Places,
}

// What is found at the listener at this place.
fn visit(
    gateway: &Gateway,
    is_own: bool,
    labels: &Labels,
    route: &HttpRoute,
    parent: &ParentRef,
    place: usize,
    listener: &Listener,
    found: &mut Found,
) -> Result<(), NoMemory>
    requires own { is_own ≡ bytes_eq gateway.now.meta.key.namespace route.now.meta.key.namespace }
    ensures selected { OnOk result (found.new.selected ≡ (found.old.selected || rules.selects parent.now listener.now)) }
    ensures allowed { OnOk result (found.new.allowed ≡ (found.old.allowed || rules.selects_and_allows gateway.now labels.now route.now parent.now listener.now)) }
    ensures taken { OnOk result (found.new.taken ≡ (found.old.taken || rules.takes gateway.now labels.now route.now parent.now listener.now)) }
    ensures places { OnOk result (found.new.places ≡ found.old.places ++ place_if (rules.takes gateway.now labels.now route.now parent.now listener.now) place) }
{
    if !selects(parent, listener) {
        return Ok(());
    }
    found.selected = true;
    if !allows(&Target { gateway, is_own }, labels, route, listener) {
        return Ok(());
    }
    found.allowed = true;
    if !has_common_hostname(listener, route.hostnames.as_slice()) {
        return Ok(());
    }
    found.taken = true;
    found.places.push(place)?;
    Ok(())
}

// No places, with room for all listeners of the Gateway.
fn no_places(alloc: Global, gateway: &Gateway) -> Result<Places, NoMemory>
    ensures { IfOk result (λ places. places ≡ []) }
{
    Ok(Places::from_vec(Vec::with_capacity(alloc, gateway.listeners.len())?))
}

// What is found at all listeners of the Gateway; the places are put into an empty list.
fn visit_all(
    places: Places,
    gateway: &Gateway,
    labels: &Labels,
    route: &HttpRoute,
    parent: &ParentRef,
) -> Result<Found, NoMemory>
    requires { places ≡ [] }
    ensures selected { IfOk result (λ found. found.selected ≡ list_any (rules.selects parent.now) gateway.now.listeners) }
    ensures allowed { IfOk result (λ found. found.allowed ≡ list_any (rules.selects_and_allows gateway.now labels.now route.now parent.now) gateway.now.listeners) }
    ensures taken { IfOk result (λ found. found.taken ≡ list_any (rules.takes gateway.now labels.now route.now parent.now) gateway.now.listeners) }
    ensures places { IfOk result (λ found. found.places ≡ rules.places_of (rules.takes gateway.now labels.now route.now parent.now) gateway.now.listeners) }
{
    let mut found = Found {
        selected: false,
        allowed: false,
        taken: false,
        places,
    };
    let is_own = is_own(gateway, route);
    'listeners: for (place, listener) in gateway.listeners.iter().enumerate() {
        visit(
            gateway, is_own, labels, route, parent, place, listener, &mut found,
        )?;
    }
    Ok(found)
}

// The first reason that holds.
#[tactic(auto, unfolding(gw_text::specs::model::Attachment::route_accepted_of))]
fn reason(found: &Found, route: &HttpRoute) -> RouteReason
    ensures { (gateway : PlainGateway) (labels : List (List ℕ × List ℕ)) (parent : PlainParent) →
        found.now.selected ≡ list_any (rules.selects parent) gateway.listeners →
        found.now.allowed ≡ list_any (rules.selects_and_allows gateway labels route.now parent) gateway.listeners →
        found.now.taken ≡ list_any (rules.takes gateway labels route.now parent) gateway.listeners →
        condition_of result ≡ rules.route_accepted_of gateway labels route.now parent }
{
    if !found.selected {
        RouteReason::NoMatchingParent
    } else if !found.allowed {
        RouteReason::NotAllowedByListeners
    } else if !found.taken {
        RouteReason::NoMatchingListenerHostname
    } else {
        unsupported(route).unwrap_or(RouteReason::Accepted)
    }
}

/// The attachment of a Route, whose namespace has these labels, by a parentRef that names the Gateway.
#[tactic(auto, unfolding(gw_text::specs::model::Attachment::attachment_of))]
pub fn attach(
    alloc: Global,
    g: &Gateway,
    labels: &Labels,
    route: &HttpRoute,
    parent: &ParentRef,
) -> Result<Attachment, NoMemory>
    ensures { IfOk result (λ a. a ≡ rules.attachment_of g.now labels.now route.now parent.now) }
{
    let found = visit_all(no_places(alloc, g)?, g, labels, route, parent)?;
    let reason = reason(&found, route);
    let listeners = match reason {
        RouteReason::Accepted => found.places,
        _ => Places::new(alloc),
    };
    Ok(Attachment { reason, listeners })
}

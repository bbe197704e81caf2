ghost use Rattle.std.specs.Prelude.{◌≡◌, ◌++◌, IfOk, OnOk, codes, string_bytes, map};
ghost use Rattle.serde_json.specs.View.{view};
ghost use Rattle.serde_json.specs.Written.{compact_text};
ghost use Rattle.gw_json.specs.Lines.{line_of};
ghost use Rattle.gw_status.specs.StatusText.{truth_text, condition_data, http_route_data, supported_kinds, class_data, listener_data, address_data, addresses_of, gateway_status_data, gateway_data, route_data, route_line, classes_text, gateways_text, routes_text, statuses_text};

use crate::send::RouteLine;
use crate::status::{
    ClassStatus, GatewayStatus, GatewayStatuses, ListenerStatus, RouteStatus, RouteStatuses,
    Statuses,
};
use gw_json::push_line;
use gw_shared::Shared;
use gw_text::{Condition, GATEWAY_GROUP, NoMemory, Socket, Text};
use serde_json::{Value, json};
use std::alloc::Global;

/// The status of a condition.
pub fn truth(is: bool) -> &'static str
    ensures { result.now ≡ truth_text is }
{
    if is { "True" } else { "False" }
}

fn condition_value(alloc: Global, condition: &Condition) -> Result<Value, NoMemory>
    ensures { IfOk result (λ v. view v ≡ condition_data condition.now) }
{
    json!(in alloc; {"reason": condition.reason.text(), "status": truth(condition.truth), "type": condition.kind.text()})
}

fn condition_values(alloc: Global, conditions: &[Condition]) -> Result<Vec<Value>, NoMemory>
    ensures { IfOk result (λ v. map view v.items ≡ map condition_data conditions.now) }
{
    let mut values = Vec::new(alloc);
    'conditions: for condition in conditions {
        values.push(condition_value(alloc, condition)?)?;
    }
    Ok(values)
}

#[tactic(auto, unfolding(crate::specs::StatusText::class_data))]
fn class_value(alloc: Global, status: &ClassStatus) -> Result<Value, NoMemory>
    ensures { IfOk result (λ v. view v ≡ class_data status.now) }
{
    let name = status.key.name.printed(alloc)?;
    let conditions = condition_values(alloc, &[status.accepted])?;
    json!(in alloc; {"kind": "GatewayClass", "name": name.as_str(), "status": {"conditions": Value::Array(conditions)}})
}

#[tactic(auto, unfolding(gw_text::specs::model::Kinds::gateway_group))]
fn http_route(alloc: Global) -> Result<Value, NoMemory>
    ensures { IfOk result (λ v. view v ≡ http_route_data) }
{
    json!(in alloc; {"group": GATEWAY_GROUP, "kind": "HTTPRoute"})
}

fn kind_values(alloc: Global, http: bool) -> Result<Vec<Value>, NoMemory>
    ensures { IfOk result (λ v. map view v.items ≡ supported_kinds http) }
{
    let mut values = Vec::new(alloc);
    if http {
        values.push(http_route(alloc)?)?;
    }
    Ok(values)
}

#[tactic(auto, unfolding(crate::specs::StatusText::listener_data))]
fn listener_value(alloc: Global, status: &ListenerStatus) -> Result<Value, NoMemory>
    ensures { IfOk result (λ v. view v ≡ listener_data status.now) }
{
    let state = &status.state;
    let name = status.name.printed(alloc)?;
    let kinds = kind_values(alloc, state.http)?;
    let conditions = [
        state.accepted,
        state.conflicted,
        state.programmed,
        state.resolved,
    ];
    let conditions = condition_values(alloc, &conditions)?;
    json!(in alloc; {"attachedRoutes": status.attached, "conditions": Value::Array(conditions), "name": name.as_str(), "supportedKinds": Value::Array(kinds)})
}

fn listener_values(alloc: Global, statuses: &[ListenerStatus]) -> Result<Vec<Value>, NoMemory>
    ensures { IfOk result (λ v. map view v.items ≡ map listener_data statuses.now) }
{
    let mut values = Vec::new(alloc);
    'statuses: for status in statuses {
        values.push(listener_value(alloc, status)?)?;
    }
    Ok(values)
}

fn address_value(alloc: Global, at: &Socket) -> Result<Value, NoMemory>
    ensures { IfOk result (λ v. view v ≡ address_data at.now) }
{
    let address = at.print_address(alloc)?;
    let address = address.printed(alloc)?;
    json!(in alloc; {"type": "IPAddress", "value": address.as_str()})
}

fn address_values(alloc: Global, address: &Option<Socket>) -> Result<Vec<Value>, NoMemory>
    ensures { IfOk result (λ v. map view v.items ≡ addresses_of address.now) }
{
    let mut values = Vec::new(alloc);
    if let Some(at) = address {
        values.push(address_value(alloc, at)?)?;
    }
    Ok(values)
}

fn gateway_status(alloc: Global, status: &GatewayStatus) -> Result<Value, NoMemory>
    ensures { IfOk result (λ v. view v ≡ gateway_status_data status.now) }
{
    let state = &status.state;
    let addresses = address_values(alloc, &state.address)?;
    let conditions = condition_values(alloc, &[state.accepted, state.programmed])?;
    let listeners = listener_values(alloc, status.listeners.as_slice())?;
    json!(in alloc; {"addresses": Value::Array(addresses), "conditions": Value::Array(conditions), "listeners": Value::Array(listeners)})
}

#[tactic(auto, unfolding(crate::specs::StatusText::gateway_data))]
fn gateway_value(alloc: Global, status: &GatewayStatus) -> Result<Value, NoMemory>
    ensures { IfOk result (λ v. view v ≡ gateway_data status.now) }
{
    let name = status.key.name.printed(alloc)?;
    let namespace = status.key.namespace.printed(alloc)?;
    let status = gateway_status(alloc, status)?;
    json!(in alloc; {"kind": "Gateway", "name": name.as_str(), "namespace": namespace.as_str(), "status": status})
}

#[tactic(auto, using(crate::proofs::Floats::class_has_no_float))]
fn push_class(alloc: Global, status: &ClassStatus, text: &mut String) -> Result<(), NoMemory>
    ensures { OnOk result (string_bytes text.new ≡ string_bytes text.old ++ line_of (class_data status.now)) }
{
    let value = class_value(alloc, status)?;
    push_line(alloc, text, &value)
}

#[tactic(auto, using(crate::proofs::Floats::gateway_has_no_float))]
fn push_gateway(alloc: Global, status: &GatewayStatus, text: &mut String) -> Result<(), NoMemory>
    ensures { OnOk result (string_bytes text.new ≡ string_bytes text.old ++ line_of (gateway_data status.now)) }
{
    let value = gateway_value(alloc, status)?;
    push_line(alloc, text, &value)
}

fn push_classes(alloc: Global, statuses: &[ClassStatus], text: &mut String) -> Result<(), NoMemory>
    ensures { OnOk result (string_bytes text.new ≡ string_bytes text.old ++ classes_text statuses.now) }
{
    'statuses: for status in statuses {
        push_class(alloc, status, text)?;
    }
    Ok(())
}

fn push_gateway_piece(
    alloc: Global,
    piece: &[Shared<GatewayStatus>],
    text: &mut String,
) -> Result<(), NoMemory>
    ensures { OnOk result (string_bytes text.new ≡ string_bytes text.old ++ gateways_text piece.now) }
{
    'statuses: for status in piece {
        push_gateway(alloc, status, text)?;
    }
    Ok(())
}

fn push_gateways(
    alloc: Global,
    statuses: &GatewayStatuses,
    text: &mut String,
) -> Result<(), NoMemory>
    ensures { OnOk result (string_bytes text.new ≡ string_bytes text.old ++ gateways_text statuses.now) }
{
    let mut at = 0;
    'pieces: while at < statuses.len() {
        let piece = statuses.piece(at);
        push_gateway_piece(alloc, piece, text)?;
        at += piece.len();
    }
    Ok(())
}

// The line of a Route, with its entries.
fn route_text(alloc: Global, status: &RouteStatus) -> Result<String, NoMemory>
    ensures { IfOk result (λ line. string_bytes line ≡ compact_text (route_data status.now)) }
{
    match serde_json::to_string(alloc, &RouteLine { alloc, status }) {
        Ok(line) => Ok(line),
        Err(_) => Err(NoMemory),
    }
}

fn push_route(alloc: Global, status: &RouteStatus, text: &mut String) -> Result<(), NoMemory>
    ensures { OnOk result (string_bytes text.new ≡ string_bytes text.old ++ route_line status.now status.now.parents) }
{
    if status.parents.as_slice().is_empty() {
        return Ok(());
    }
    let line = route_text(alloc, status)?;
    text.push_str(line.as_str())?;
    text.push('\n')
}

fn push_route_piece(
    alloc: Global,
    piece: &[Shared<RouteStatus>],
    text: &mut String,
) -> Result<(), NoMemory>
    ensures { OnOk result (string_bytes text.new ≡ string_bytes text.old ++ routes_text piece.now) }
{
    'statuses: for status in piece {
        push_route(alloc, status, text)?;
    }
    Ok(())
}

fn push_routes(alloc: Global, statuses: &RouteStatuses, text: &mut String) -> Result<(), NoMemory>
    ensures { OnOk result (string_bytes text.new ≡ string_bytes text.old ++ routes_text statuses.now) }
{
    let mut at = 0;
    'pieces: while at < statuses.len() {
        let piece = statuses.piece(at);
        push_route_piece(alloc, piece, text)?;
        at += piece.len();
    }
    Ok(())
}

/// Adds a line of JSON for each class, then one for each Gateway, then one for each Route that has entries.
#[tactic(auto, unfolding(crate::specs::StatusText::statuses_text))]
pub fn push_statuses(alloc: Global, s: &Statuses, text: &mut String) -> Result<(), NoMemory>
    ensures { OnOk result (string_bytes text.new ≡ string_bytes text.old ++ statuses_text s.now) }
{
    push_classes(alloc, s.classes.as_slice(), text)?;
    push_gateways(alloc, &s.gateways, text)?;
    push_routes(alloc, &s.routes, text)
}

/// The text of the statuses alone.
pub fn write_statuses(alloc: Global, s: &Statuses) -> Result<Text, NoMemory>
    ensures { IfOk result (λ text. text ≡ statuses_text s.now) }
{
    let mut text = String::new(alloc);
    push_statuses(alloc, s, &mut text)?;
    Ok(Text::from_vec(text.into_bytes()))
}

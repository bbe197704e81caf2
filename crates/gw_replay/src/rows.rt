//! The lines of rows.
ghost use Rattle.std.specs.Prelude.{◌≡◌, ◌++◌, IfOk, OnOk, codes, option_map, option_copied, string_bytes};
ghost use Rattle.gw_replies.specs.model.Written.{fault_text};
ghost use Rattle.gw_text.specs.model.Addresses.{socket_text};
ghost use Rattle.gw_text.specs.model.Forms.{printed};
ghost use Rattle.serde_json.specs.View.{members_view, view};
ghost use Rattle.gw_replay.specs.Lines as lines;
ghost use Rattle.gw_replay.specs.Pairs as pairs;

use crate::print::Said;
use gw_answers::{BackendKey, ServedRow};
use gw_json::{push_line, put_number, put_text};
use gw_link::Exchange;
use gw_replies::{BackendFault, FaultName};
use gw_text::{NoMemory, Text};
use serde_json::{Map, Value};
use std::alloc::Global;

/// A line for each row. The exchanges are those of the rows for which a connection was opened, in their order.
pub(crate) fn push_rows(
    alloc: Global,
    text: &mut String,
    said: Said<'_>,
    rows: &[ServedRow],
    exchanges: &[Exchange],
) -> Result<(), NoMemory>
    ensures { OnOk result (string_bytes text.new ≡ string_bytes text.old ++ pairs.paired_text said.entry.name.now said.entry.line rows.now exchanges.now) }
{
    let mut left = exchanges;
    'rows: for row in rows {
        let (exchange, others) = exchange_of(row, left);
        push_row(alloc, text, said, row, sent_in(row, exchange))?;
        left = others;
    }
    Ok(())
}

// The exchange of the row, if it has one, and the others.
fn exchange_of<'e>(
    row: &ServedRow,
    exchanges: &'e [Exchange],
) -> (Option<&'e Exchange>, &'e [Exchange])
    ensures next { option_copied result.0 ≡ pairs.next_exchange (pairs.has_exchange row.now) exchanges.now }
    ensures left { result.1.now ≡ pairs.exchanges_left (pairs.has_exchange row.now) exchanges.now }
{
    if !has_exchange(row) {
        return (None, exchanges);
    }
    match exchanges.split_first() {
        Some((exchange, others)) => (Some(exchange), others),
        None => (None, exchanges),
    }
}

// Whether a connection was opened for the row.
fn has_exchange(row: &ServedRow) -> bool
    ensures { result ≡ pairs.has_exchange row.now }
{
    row.endpoint.is_some() && !matches!(row.fault, Some(FaultName::Backend(BackendFault::Open)))
}

// What was sent in the row's exchange, where it was all.
fn sent_in<'e>(row: &ServedRow, exchange: Option<&'e Exchange>) -> Option<&'e [u8]>
    ensures { option_map (λ f. f.now) result ≡ pairs.sent_in (pairs.is_send row.now.fault) (option_copied exchange.entry) }
{
    match row.fault {
        Some(FaultName::Backend(BackendFault::Send)) => None,
        _ => Some(exchange?.sent.as_slice()),
    }
}

#[tactic(auto, using(crate::proofs::Floats::row_has_no_float))]
fn push_row(
    alloc: Global,
    text: &mut String,
    said: Said<'_>,
    row: &ServedRow,
    forward: Option<&[u8]>,
) -> Result<(), NoMemory>
    ensures { OnOk result (string_bytes text.new ≡ string_bytes text.old ++ lines.row_line said.entry.name.now said.entry.line row.now (option_map (λ f. f.now) forward.entry)) }
{
    let value = row_value(alloc, said, row, forward)?;
    push_line(alloc, text, &value)
}

#[tactic(auto, unfolding(crate::specs::Lines::row_data))]
fn row_value(
    alloc: Global,
    said: Said<'_>,
    row: &ServedRow,
    forward: Option<&[u8]>,
) -> Result<Value, NoMemory>
    ensures { IfOk result (λ v. view v ≡ lines.row_data said.entry.name.now said.entry.line row.now (option_map (λ f. f.now) forward.entry)) }
{
    let mut members = Map::new(alloc);
    put_number(alloc, &mut members, "status", u64::from(row.status))?;
    put_number(alloc, &mut members, "line", said.line)?;
    put_number(alloc, &mut members, "front", row.front)?;
    put_text(alloc, &mut members, "conn", said.name)?;
    put_listener(alloc, &mut members, row)?;
    put_route(alloc, &mut members, row)?;
    put_backend(alloc, &mut members, row)?;
    put_endpoint(alloc, &mut members, row)?;
    put_fault(alloc, &mut members, row)?;
    put_forward(alloc, &mut members, forward)?;
    Ok(Value::from(members))
}

fn put_listener(
    alloc: Global,
    members: &mut Map<String, Value>,
    row: &ServedRow,
) -> Result<(), NoMemory>
    ensures { OnOk result (members_view members.new.entries ≡ lines.put_if (codes "listener") printed row.now.listener (members_view members.old.entries)) }
{
    match &row.listener {
        Some(listener) => {
            let listener = listener.printed(alloc)?;
            put_text(alloc, members, "listener", listener.as_str())
        }
        None => Ok(()),
    }
}

// The Route, and the places of its rule and match.
fn put_route(
    alloc: Global,
    members: &mut Map<String, Value>,
    row: &ServedRow,
) -> Result<(), NoMemory>
    ensures { OnOk result (members_view members.new.entries ≡ lines.put_route row.now.route row.now (members_view members.old.entries)) }
{
    match &row.route {
        Some(key) => {
            put_number(alloc, members, "rule", u64::from(row.rule))?;
            let route = key.print(alloc)?;
            let route = route.printed(alloc)?;
            put_text(alloc, members, "route", route.as_str())?;
            put_number(alloc, members, "match", u64::from(row.place))
        }
        None => Ok(()),
    }
}

fn put_backend(
    alloc: Global,
    members: &mut Map<String, Value>,
    row: &ServedRow,
) -> Result<(), NoMemory>
    ensures { OnOk result (members_view members.new.entries ≡ lines.put_if (codes "backend") (λ b. printed (lines.backend_text b)) row.now.backend (members_view members.old.entries)) }
{
    match &row.backend {
        Some(backend) => {
            let backend = backend_text(alloc, backend)?;
            let backend = backend.printed(alloc)?;
            put_text(alloc, members, "backend", backend.as_str())
        }
        None => Ok(()),
    }
}

// The key of the Service, `:` and the port.
fn backend_text(alloc: Global, backend: &BackendKey) -> Result<Text, NoMemory>
    ensures { IfOk result (λ text. text ≡ lines.backend_text backend.now) }
{
    let key = backend.key.print(alloc)?;
    let mut text = key.bytes().to_vec(alloc)?;
    let port = format!(in alloc; ":{}", backend.port)?;
    text.extend_from_slice(port.as_bytes())?;
    Ok(Text::from_vec(text))
}

fn put_endpoint(
    alloc: Global,
    members: &mut Map<String, Value>,
    row: &ServedRow,
) -> Result<(), NoMemory>
    ensures { OnOk result (members_view members.new.entries ≡ lines.put_if (codes "endpoint") (λ socket. printed (socket_text socket)) row.now.endpoint (members_view members.old.entries)) }
{
    match row.endpoint {
        Some(socket) => {
            let endpoint = socket.print(alloc)?;
            let endpoint = endpoint.printed(alloc)?;
            put_text(alloc, members, "endpoint", endpoint.as_str())
        }
        None => Ok(()),
    }
}

fn put_fault(
    alloc: Global,
    members: &mut Map<String, Value>,
    row: &ServedRow,
) -> Result<(), NoMemory>
    ensures { OnOk result (members_view members.new.entries ≡ lines.put_if (codes "fault") fault_text row.now.fault (members_view members.old.entries)) }
{
    match row.fault {
        Some(fault) => put_text(alloc, members, "fault", fault.as_str()),
        None => Ok(()),
    }
}

fn put_forward(
    alloc: Global,
    members: &mut Map<String, Value>,
    forward: Option<&[u8]>,
) -> Result<(), NoMemory>
    ensures { OnOk result (members_view members.new.entries ≡ lines.put_if (codes "forward") printed (option_map (λ f. f.now) forward.entry) (members_view members.old.entries)) }
{
    match forward {
        Some(bytes) => {
            let forward = Text::from_bytes(alloc, bytes)?;
            let forward = forward.printed(alloc)?;
            put_text(alloc, members, "forward", forward.as_str())
        }
        None => Ok(()),
    }
}

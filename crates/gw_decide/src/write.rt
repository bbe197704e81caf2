//! The text of what becomes of a request, and of why.
ghost use Rattle.std.specs.Prelude.{◌≡◌, ◌++◌, IfOk, OnOk, IsTrue, Some, codes, map, option_copied, string_bytes};
ghost use Rattle.serde_json.specs.Data.{put};
ghost use Rattle.serde_json.specs.View.{members_view, view};
ghost use Rattle.gw_json.specs.Lines.{line_of};
ghost use Rattle.gw_route.specs.States.{seen_state};
ghost use Rattle.gw_text.specs.model.Matches as matches;
ghost use Rattle.gw_decide.specs.ExplainText as texts;
ghost use Rattle.gw_decide.specs.Seen.{path_fits, seen_verdict};
ghost use Rattle.gw_decide.specs.model.Verdicts as verdicts;

use crate::routes::explain;
use crate::verdict::{Verdict, decide, redirect_in};
use crate::why::Why;
use gw_filters::location;
use gw_frames::Request;
use gw_json::{push_line, put_number, put_text};
use gw_match::DoorTable;
use gw_route::{BackendState, Redirect};
use gw_rows::{Backend, Row, ServedListener};
use gw_text::{Key, NoMemory, Text};
use serde_json::{Map, Value, json, put};
use std::alloc::Global;

/// The status of a redirect that gives none.
const FOUND: u16 = 302;

/// What becomes of the request at the door after so many changes, as a line of JSON; then a line for each Route with rows there.
#[tactic(auto, unfolding(crate::specs::ExplainText::explain_text))]
pub fn write_explain(
    alloc: Global,
    t: &DoorTable,
    request: &Request,
    front: u64,
) -> Result<Text, NoMemory>
    ensures { IfOk result (λ text. text ≡ texts.explain_text t.now request.now front) }
{
    let mut text = String::new(alloc);
    let verdict = decide(t, request);
    let listener = t.listener(&request.host);
    push_verdict(alloc, &verdict, listener, request, front, &mut text)?;
    let explained = explain(alloc, t, request)?;
    push_reasons(alloc, explained.as_slice(), &mut text)?;
    Ok(Text::from_vec(text.into_bytes()))
}

#[tactic(auto, using(crate::proofs::Floats::verdict_has_no_float))]
fn push_verdict(
    alloc: Global,
    verdict: &Verdict<'_>,
    listener: Option<&ServedListener>,
    request: &Request,
    front: u64,
    text: &mut String,
) -> Result<(), NoMemory>
    requires { IsTrue (path_fits (seen_verdict verdict.now) request.now) }
    ensures { OnOk result (string_bytes text.new ≡ string_bytes text.old
        ++ line_of (texts.verdict_data (seen_verdict verdict.now) (option_copied listener.entry) request.now front)) }
{
    let value = verdict_value(alloc, verdict, listener, request, front)?;
    push_line(alloc, text, &value)
}

#[tactic(auto, unfolding(crate::specs::ExplainText::verdict_data))]
fn verdict_value(
    alloc: Global,
    verdict: &Verdict<'_>,
    listener: Option<&ServedListener>,
    request: &Request,
    front: u64,
) -> Result<Value, NoMemory>
    requires { IsTrue (path_fits (seen_verdict verdict.now) request.now) }
    ensures { IfOk result (λ v. view v ≡ texts.verdict_data (seen_verdict verdict.now) (option_copied listener.entry) request.now front) }
{
    let mut members = Map::new(alloc);
    put_text(alloc, &mut members, "verdict", verdict.text())?;
    put_number(alloc, &mut members, "front", front)?;
    put_listener(alloc, &mut members, listener)?;
    put_verdict(alloc, &mut members, verdict, request)?;
    Ok(Value::from(members))
}

// The listener that takes the request, if one does.
fn put_listener(
    alloc: Global,
    members: &mut Map<String, Value>,
    listener: Option<&ServedListener>,
) -> Result<(), NoMemory>
    ensures { OnOk result (members_view members.new.entries ≡ texts.with_listener (option_copied listener.entry) (members_view members.old.entries)) }
{
    match listener {
        Some(listener) => {
            let name = listener.name.printed(alloc)?;
            put_text(alloc, members, "listener", name.as_str())
        }
        None => Ok(()),
    }
}

// What a verdict tells beside its name.
fn put_verdict(
    alloc: Global,
    members: &mut Map<String, Value>,
    verdict: &Verdict<'_>,
    request: &Request,
) -> Result<(), NoMemory>
    requires { IsTrue (path_fits (seen_verdict verdict.now) request.now) }
    ensures { OnOk result (members_view members.new.entries ≡ texts.with_verdict (seen_verdict verdict.now) request.now (members_view members.old.entries)) }
{
    match verdict {
        Verdict::NotFound => Ok(()),
        Verdict::Redirect(row) => put_redirecting(alloc, members, row, request),
        Verdict::Nothing(row) => put_row(alloc, members, row),
        Verdict::Choose(row) => put_choosing(alloc, members, row),
    }
}

// The Route of a row, and the places of its rule and match.
fn put_row(alloc: Global, members: &mut Map<String, Value>, row: &Row) -> Result<(), NoMemory>
    ensures { OnOk result (members_view members.new.entries ≡ texts.with_row row.now (members_view members.old.entries)) }
{
    let route = row.key.print(alloc)?;
    put_number(alloc, members, "rule", u64::from(row.rule))?;
    let route = route.printed(alloc)?;
    put_text(alloc, members, "route", route.as_str())?;
    put_number(alloc, members, "match", u64::from(row.place))
}

fn put_redirecting(
    alloc: Global,
    members: &mut Map<String, Value>,
    row: &Row,
    request: &Request,
) -> Result<(), NoMemory>
    requires { IsTrue (matches.path_fits row.now.test.path request.now.path) }
    ensures { OnOk result (members_view members.new.entries
        ≡ texts.with_redirect (verdicts.redirect_in row.now.plan) row.now request.now (texts.with_row row.now (members_view members.old.entries))) }
{
    put_row(alloc, members, row)?;
    match redirect_in(&row.plan) {
        Some(redirect) => put_redirect(alloc, members, redirect, row, request),
        None => Ok(()),
    }
}

// The status and the Location of a redirect.
fn put_redirect(
    alloc: Global,
    members: &mut Map<String, Value>,
    redirect: &Redirect,
    row: &Row,
    request: &Request,
) -> Result<(), NoMemory>
    requires { IsTrue (matches.path_fits row.now.test.path request.now.path) }
    ensures { OnOk result (members_view members.new.entries ≡ texts.with_redirect (Some redirect.now) row.now request.now (members_view members.old.entries)) }
{
    let code = redirect.status_code.unwrap_or(FOUND);
    let location = location(alloc, redirect, &row.test.path, request, row.port)?;
    let location = location.printed(alloc)?;
    put_text(alloc, members, "location", location.as_str())?;
    put_number(alloc, members, "code", u64::from(code))
}

fn put_choosing(alloc: Global, members: &mut Map<String, Value>, row: &Row) -> Result<(), NoMemory>
    ensures { OnOk result (members_view members.new.entries
        ≡ put (codes "backends") (texts.backends_data row.now.plan.backends) (texts.with_row row.now (members_view members.old.entries))) }
{
    put_row(alloc, members, row)?;
    let backends = backend_values(alloc, row.plan.backends.as_slice())?;
    put(members, alloc, "backends", Value::from(backends))
}

fn backend_values(alloc: Global, backends: &[Backend]) -> Result<Vec<Value>, NoMemory>
    ensures { IfOk result (λ v. map view v.items ≡ map texts.backend_data backends.now) }
{
    let mut values = Vec::new(alloc);
    'backends: for backend in backends {
        values.push(backend_value(alloc, backend)?)?;
    }
    Ok(values)
}

fn backend_value(alloc: Global, backend: &Backend) -> Result<Value, NoMemory>
    ensures { IfOk result (λ v. view v ≡ texts.backend_data backend.now) }
{
    json!(in alloc; {"state": state_text(&backend.state), "weight": u64::from(backend.weight)})
}

fn state_text(state: &BackendState) -> &'static str
    ensures { result.now ≡ texts.state_text (seen_state state.now) }
{
    match state {
        BackendState::InvalidKind => "InvalidKind",
        BackendState::NotPermitted => "NotPermitted",
        BackendState::NotFound => "NotFound",
        BackendState::BadProtocol => "BadProtocol",
        BackendState::NoEndpoints => "NoEndpoints",
        BackendState::Ready(_) => "Ready",
    }
}

fn push_reasons(alloc: Global, explained: &[(Key, Why)], text: &mut String) -> Result<(), NoMemory>
    ensures { OnOk result (string_bytes text.new ≡ string_bytes text.old ++ texts.reasons_text explained.now) }
{
    'routes: for entry in explained {
        push_reason(alloc, entry, text)?;
    }
    Ok(())
}

fn push_reason(alloc: Global, entry: &(Key, Why), text: &mut String) -> Result<(), NoMemory>
    ensures { OnOk result (string_bytes text.new ≡ string_bytes text.old ++ line_of (texts.reason_data entry.now)) }
{
    let value = reason_value(alloc, entry)?;
    push_line(alloc, text, &value)
}

fn reason_value(alloc: Global, entry: &(Key, Why)) -> Result<Value, NoMemory>
    ensures { IfOk result (λ v. view v ≡ texts.reason_data entry.now) }
{
    let route = entry.0.print(alloc)?;
    let route = route.printed(alloc)?;
    json!(in alloc; {"reason": entry.1.text(), "route": route.as_str()})
}

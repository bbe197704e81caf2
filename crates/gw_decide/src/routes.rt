ghost use Rattle.std.specs.Prelude.{◌≡◌, IfOk, option_copied};
ghost use Rattle.gw_query.specs.model.Parameters.{parameters_of};
ghost use Rattle.gw_rows.specs.model.Fitting as fitting;
ghost use Rattle.gw_decide.specs.Entries.{explained_over};
ghost use Rattle.gw_decide.specs.model.Reasons as rules;

use crate::reasons::{Explained, Reasons};
use crate::verdict::row_at;
use crate::why::Why;
use gw_frames::Request;
use gw_match::DoorTable;
use gw_query::Parameters;
use gw_rows::{Row, ServedListener, Test, failed_test_with};
use gw_shared::Shared;
use gw_text::NoMemory;
use std::alloc::Global;

/// Each Route with rows at the door, in key order, and why it serves the request or doesn't.
pub fn explain(alloc: Global, t: &DoorTable, request: &Request) -> Result<Explained, NoMemory>
    ensures { IfOk result (λ e. e.items ≡ rules.explained_of t.now request.now) }
{
    let listener = t.listener(&request.host);
    let best = row_at(t, request);
    let rows = t.all_rows(alloc)?;
    explain_rows(alloc, rows.as_slice(), listener, best, request)
}

fn explain_rows(
    alloc: Global,
    rows: &[Shared<Row>],
    listener: Option<&ServedListener>,
    best: Option<&Row>,
    request: &Request,
) -> Result<Explained, NoMemory>
    ensures { IfOk result (λ e. e.items ≡ explained_over (rules.reason_at (option_copied listener.entry) (option_copied best.entry) request.now) rows.now) }
{
    let parameters = Parameters::of(&request.query);
    let mut reasons = Reasons::new(alloc);
    'rows: for row in rows {
        let why = reason_at(listener, best, request, &parameters, row);
        reasons.note(alloc, &row.key, why)?;
    }
    Ok(reasons.into_entries())
}

// Why a row doesn't serve the request, or does. One at another listener isn't tested.
fn reason_at(
    listener: Option<&ServedListener>,
    best: Option<&Row>,
    request: &Request,
    parameters: &Parameters,
    row: &Row,
) -> Why
    requires { parameters.now ≡ parameters_of request.now.query }
    ensures { result ≡ rules.reason_at (option_copied listener.entry) (option_copied best.entry) request.now row.now }
{
    match listener {
        Some(listener) if row.listener == listener.number => reason_here(
            best, request, parameters, row,
        ),
        _ => Why::OtherListener,
    }
}

fn reason_here(best: Option<&Row>, request: &Request, parameters: &Parameters, row: &Row) -> Why
    requires { parameters.now ≡ parameters_of request.now.query }
    ensures { result ≡ rules.reason_here (option_copied best.entry) (fitting.failed_test row.now request.now) row.now }
{
    match failed_test_with(row, request, parameters) {
        Some(test) => failed_at(test),
        None if is_of_its_route(best, row) => Why::Chosen,
        None => Why::Preceded,
    }
}

fn is_of_its_route(best: Option<&Row>, row: &Row) -> bool
    ensures { result ≡ rules.is_of_its_route (option_copied best.entry) row.now }
{
    match best {
        Some(best) => best.key == row.key,
        None => false,
    }
}

fn failed_at(test: Test) -> Why
    ensures { result ≡ rules.failed_at test }
{
    match test {
        Test::Hostname => Why::Hostname,
        Test::Path => Why::Path,
        Test::Method => Why::Method,
        Test::Headers => Why::Headers,
        Test::Query => Why::Query,
    }
}

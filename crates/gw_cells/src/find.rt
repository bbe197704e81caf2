//! How the cells are probed: by the names that may cover the host, and for each of these by the places that may fit the path.
ghost use Rattle.std.specs.Prelude.{◌≡◌, ◌+◌, ◌*◌, ◌<◌, ◌≤◌, ◌==◌, None, true, length, map, take, drop, slice_index, option_copied, if◌then◌else◌};
ghost use Rattle.gw_cells.specs.Cells as cells;
ghost use Rattle.gw_cells.specs.model.Addresses.{DOT};
ghost use Rattle.gw_cells.specs.model.Choice.{first_found};
ghost use Rattle.gw_cells.specs.model.Probes as probes;
ghost use Rattle.gw_query.specs.model.Parameters.{parameters_of};

use crate::maps::Names;
use crate::paths::Paths;
use crate::row_list::RowList;
use gw_frames::Request;
use gw_query::Parameters;
use gw_rows::{Row, fits_with};
use gw_shared::{Shared, SharedList};
use gw_text::Steps;
use std::sync::ledger::Ledger;

// The first row that fits, of those that stand in one piece.
#[tactic(auto, unfolding(crate::specs::Cells::first_fit))]
fn first_in_one<'c>(
    rows: &'c [Shared<Row>],
    request: &Request,
    parameters: &Parameters,
) -> Option<&'c Row>
    requires { parameters.now ≡ parameters_of request.now.query }
    ensures { option_copied result ≡ cells.first_fit request.now rows.now }
{
    'rows: for row in rows {
        if fits_with(row, request, parameters) {
            return Some(row);
        }
    }
    None
}

// The first row that fits, piece by piece.
#[tactic(auto, unfolding(crate::specs::Cells::first_fit))]
fn first_in_many<'c>(
    rows: &'c SharedList<Row>,
    request: &Request,
    parameters: &Parameters,
) -> Option<&'c Row>
    requires { parameters.now ≡ parameters_of request.now.query }
    ensures { option_copied result ≡ cells.first_fit request.now rows.now }
{
    let mut at = 0;
    'pieces: while at < rows.len() {
        let piece = rows.piece(at);
        if let Some(row) = first_in_one(piece, request, parameters) {
            return Some(row);
        }
        at += piece.len();
    }
    None
}

// The first row of a cell that fits.
fn first_fit<'c>(cell: &'c RowList, request: &Request, parameters: &Parameters) -> Option<&'c Row>
    requires { parameters.now ≡ parameters_of request.now.query }
    ensures { option_copied result ≡ cells.first_fit request.now (cells.rows_in cell.now) }
{
    match cell {
        RowList::Few(rows) => first_in_one(rows.as_slice(), request, parameters),
        RowList::Many(rows) => first_in_many(rows, request, parameters),
    }
}

#[tactic(auto, unfolding(crate::specs::Cells::first_fit))]
fn probe_exact<'c>(paths: &'c Paths, request: &Request, parameters: &Parameters) -> Option<&'c Row>
    requires { parameters.now ≡ parameters_of request.now.query }
    ensures { option_copied result ≡ cells.first_fit request.now (cells.at_place paths.now (record { is_exact = true; path = request.now.path })) }
{
    let cell = paths.get(request.path.bytes())?;
    first_fit(&cell.exact, request, parameters)
}

#[tactic(auto, unfolding(crate::specs::Cells::first_fit))]
fn probe_prefix<'c>(
    paths: &'c Paths,
    prefix: &[u8],
    request: &Request,
    parameters: &Parameters,
) -> Option<&'c Row>
    requires { parameters.now ≡ parameters_of request.now.query }
    ensures { option_copied result ≡ cells.first_fit request.now (cells.at_place paths.now (probes.prefix_place prefix.now)) }
{
    let cell = paths.get(prefix)?;
    first_fit(&cell.prefix, request, parameters)
}

// Probes what stands before a byte of the path, where it is a slash.
fn probe_front<'c, L: Ledger>(
    paths: &'c Paths,
    end: usize,
    request: &Request,
    parameters: &Parameters,
    steps: &mut Steps<L>,
) -> Option<&'c Row>
    requires within { end < length request.now.path }
    requires parameters { parameters.now ≡ parameters_of request.now.query }
    ensures row { option_copied result ≡ (if probes.is_slash_at request.now.path end
        then cells.first_fit request.now (cells.at_place paths.now (probes.prefix_place (take end request.now.path))) else None) }
    ensures steps { steps.new ≡ steps.old + (if probes.is_slash_at request.now.path end then 1 else 0) }
{
    let path = request.path.bytes();
    if path[end] != b'/' {
        return None;
    }
    steps.tick();
    probe_prefix(paths, &path[..end], request, parameters)
}

// One step for each front of the path.
fn find_by_front<'c, L: Ledger>(
    paths: &'c Paths,
    request: &Request,
    parameters: &Parameters,
    steps: &mut Steps<L>,
) -> Option<&'c Row>
    requires { parameters.now ≡ parameters_of request.now.query }
    ensures row { option_copied result ≡ first_found (λ p. cells.first_fit request.now (cells.at_place paths.now p))
        (map probes.prefix_place (probes.fronts request.now.path (length request.now.path))) }
    ensures steps { steps.new ≤ steps.old + length (probes.fronts request.now.path (length request.now.path)) }
    ensures later { steps.old ≤ steps.new }
{
    let mut end = request.path.bytes().len();
    'ends: while end > 0 {
        end -= 1;
        if let Some(row) = probe_front(paths, end, request, parameters, steps) {
            return Some(row);
        }
    }
    None
}

// One step for each place, but for that of the exact path.
#[tactic(auto, unfolding(crate::specs::Cells::found_by_place))]
fn find_by_place<'c, L: Ledger>(
    paths: &'c Paths,
    request: &Request,
    parameters: &Parameters,
    steps: &mut Steps<L>,
) -> Option<&'c Row>
    requires { parameters.now ≡ parameters_of request.now.query }
    ensures row { option_copied result ≡ cells.found_by_place (cells.at_place paths.now) request.now }
    ensures steps { steps.new ≤ steps.old + 1 + length (probes.fronts request.now.path (length request.now.path)) }
    ensures later { steps.old ≤ steps.new }
{
    if let Some(row) = probe_exact(paths, request, parameters) {
        return Some(row);
    }
    steps.tick();
    if let Some(row) = probe_prefix(paths, request.path.bytes(), request, parameters) {
        return Some(row);
    }
    find_by_front(paths, request, parameters, steps)
}

// The first step is that of the exact path, also where the name has no cells.
fn probe_name<'c, L: Ledger>(
    names: &'c Names,
    name: &[u8],
    request: &Request,
    parameters: &Parameters,
    steps: &mut Steps<L>,
) -> Option<&'c Row>
    requires { parameters.now ≡ parameters_of request.now.query }
    ensures row { option_copied result ≡ cells.found_by_place (cells.at_name names.now name.now) request.now }
    ensures steps { steps.new ≤ steps.old + probes.most_for_name request.now }
    ensures later { steps.old ≤ steps.new }
{
    steps.tick();
    let paths = names.get(name)?;
    find_by_place(paths, request, parameters, steps)
}

// Probes the name that begins with a byte of the host, where it is a dot.
fn probe_above<'c, L: Ledger>(
    names: &'c Names,
    at: usize,
    request: &Request,
    parameters: &Parameters,
    steps: &mut Steps<L>,
) -> Option<&'c Row>
    requires within { at < length request.now.host }
    requires parameters { parameters.now ≡ parameters_of request.now.query }
    ensures row { option_copied result ≡ (if slice_index request.now.host at == DOT
        then cells.found_by_place (cells.at_name names.now (drop at request.now.host)) request.now else None) }
    ensures steps { steps.new ≤ steps.old + (if slice_index request.now.host at == DOT then probes.most_for_name request.now else 0) }
    ensures later { steps.old ≤ steps.new }
{
    let host = request.host.bytes();
    if host[at] != b'.' {
        return None;
    }
    probe_name(names, &host[at..], request, parameters, steps)
}

fn find_above<'c, L: Ledger>(
    names: &'c Names,
    request: &Request,
    parameters: &Parameters,
    steps: &mut Steps<L>,
) -> Option<&'c Row>
    requires { parameters.now ≡ parameters_of request.now.query }
    ensures row { option_copied result ≡ first_found (λ name. cells.found_by_place (cells.at_name names.now name) request.now) (probes.names_above request.now.host) }
    ensures steps { steps.new ≤ steps.old + length (probes.names_above request.now.host) * probes.most_for_name request.now }
    ensures later { steps.old ≤ steps.new }
{
    'bytes: for at in 0..request.host.bytes().len() {
        if let Some(row) = probe_above(names, at, request, parameters, steps) {
            return Some(row);
        }
    }
    probe_name(names, b"", request, parameters, steps)
}

/// The first row that fits, by name and place.
#[tactic(auto, unfolding(crate::specs::Cells::found_by_name))]
pub(crate) fn find_by_name<'c, L: Ledger>(
    names: &'c Names,
    request: &Request,
    parameters: &Parameters,
    steps: &mut Steps<L>,
) -> Option<&'c Row>
    requires { parameters.now ≡ parameters_of request.now.query }
    ensures row { option_copied result ≡ cells.found_by_name (cells.at_name names.now) request.now }
    ensures steps { steps.new ≤ steps.old + probes.most_probes request.now }
    ensures later { steps.old ≤ steps.new }
{
    if let Some(row) = probe_name(names, request.host.bytes(), request, parameters, steps) {
        return Some(row);
    }
    find_above(names, request, parameters, steps)
}

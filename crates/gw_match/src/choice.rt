//! The table of the listener that takes a request.
ghost use Rattle.std.specs.Prelude.{◌≡◌, option_copied};
ghost use Rattle.std.specs.Ordering.{is_lt};
ghost use Rattle.gw_match.specs.Nearest as nearest;
ghost use Rattle.gw_match.specs.model.Choice as rules;
ghost use Rattle.gw_rows.specs.Kept.{kept};

use crate::listener_table::ListenerTable;
use gw_host::{covers, specificity};
use gw_rows::ServedListener;
use gw_shared::Shared;

fn takes_host(listener: &ServedListener, host: &[u8]) -> bool
    ensures { result ≡ rules.takes_host host.now listener.now }
{
    match &listener.hostname {
        Some(hostname) => covers(hostname, host),
        None => true,
    }
}

// The characters of its precise hostname, and those of its hostname as it is written.
fn characters(listener: &ServedListener) -> (usize, usize)
    ensures precise { result.0 ≡ rules.precise_characters listener.now }
    ensures written { result.1 ≡ rules.hostname_characters listener.now }
{
    match &listener.hostname {
        Some(hostname) => specificity(hostname),
        None => (0, 0),
    }
}

fn is_more_specific(a: &ServedListener, b: &ServedListener) -> bool
    ensures { result ≡ is_lt (rules.specificity a.now b.now) }
{
    let (precise, written) = characters(a);
    let (other_precise, other_written) = characters(b);
    other_precise
        .cmp(&precise)
        .then(other_written.cmp(&written))
        .is_lt()
}

// The table, where its listener takes the host and no more specific one was found.
fn nearer<'t>(
    best: Option<&'t ListenerTable>,
    table: &'t ListenerTable,
    host: &[u8],
) -> Option<&'t ListenerTable>
    ensures { option_copied result ≡ kept nearest.by_specificity (nearest.table_takes host.now) (option_copied best.entry) table.now }
{
    if !takes_host(table.listener(), host) {
        return best;
    }
    match best {
        Some(best) if !is_more_specific(table.listener(), best.listener()) => Some(best),
        _ => Some(table),
    }
}

/// The table of the most specific listener that takes requests for this host.
#[tactic(auto, unfolding(crate::specs::Nearest::table_at))]
pub(crate) fn foremost_table<'t>(
    tables: &'t [Shared<ListenerTable>],
    host: &[u8],
) -> Option<&'t ListenerTable>
    ensures { option_copied result ≡ nearest.table_at tables.now host.now }
{
    let mut best = None;
    'tables: for table in tables {
        best = nearer(best, table, host);
    }
    best
}

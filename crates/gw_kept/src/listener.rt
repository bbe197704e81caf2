//! The table of a listener, and what becomes of it where one Route changes.
ghost use Rattle.std.specs.Prelude.{◌≡◌, ◌≤◌, ◌<◌, true, [], ◌∷◌, All, IfOk, IfSome, length, map, option_copied, option_map, option_to_list};
ghost use Rattle.gw_eval.specs.Candidates.{kept_rows};
ghost use Rattle.gw_kept.specs.Held as held;
ghost use Rattle.gw_kept.specs.Places as places;
ghost use Rattle.gw_match.specs.model.Listed as rules;

use crate::place::{Place, item_at};
use gw_eval::{KeptRoute, kept_rows};
use gw_match::{ListenerTable, RouteRows};
use gw_rows::ServedListener;
use gw_shared::{Shared, SharedList};
use gw_text::{Door, NoMemory};
use std::alloc::Global;

/// The rows of a Route at a listener of the door.
pub(crate) fn route_rows(
    alloc: Global,
    door: &Door,
    listener: &ServedListener,
    kept: &KeptRoute,
) -> Result<RouteRows, NoMemory>
    requires { held.HasItsPlans kept.now }
    ensures { IfOk result (λ rows. rows ≡ kept_rows door.now listener.now kept.now) }
{
    RouteRows::of(alloc, kept_rows(alloc, door, listener, kept)?)
}

fn is_without_rows(rows: &RouteRows) -> bool
    ensures { result ≡ true → rows.now ≡ [] }
{
    rows.as_slice().is_empty()
}

// No rows come in place of no rows.
fn stays_without_rows(table: &ListenerTable, place: Place, rows: &RouteRows) -> bool
    ensures { result ≡ true → places.behind place ≤ length table.now.routes → places.with_at place (rows.now ∷ []) table.now.routes ≡ table.now.routes }
{
    if !place.is_taken || !is_without_rows(rows) {
        return false;
    }
    match table.rows_of(place.at) {
        Some(former) => is_without_rows(former),
        None => false,
    }
}

// The table itself, where nothing else has it, and else a copy.
fn own_table(alloc: Global, table: Shared<ListenerTable>) -> Result<ListenerTable, NoMemory>
    ensures { IfOk result (λ own. own ≡ table) }
{
    match table.into_own() {
        Ok(own) => Ok(own),
        Err(table) => table.copy(alloc),
    }
}

// The table with these rows at the place.
fn with_rows(
    alloc: Global,
    table: Shared<ListenerTable>,
    place: Place,
    rows: RouteRows,
) -> Result<Shared<ListenerTable>, NoMemory>
    requires within { places.behind place ≤ length table.routes }
    requires rows { rules.AreRowsOf table.listener (rules.rows_in (places.with_at place (rows ∷ []) table.routes)) }
    ensures { IfOk result (λ changed. changed ≡ record table { routes = places.with_at place (rows ∷ []) table.routes }) }
{
    if stays_without_rows(&table, place, &rows) {
        return Ok(table);
    }
    let own = own_table(alloc, table)?;
    if place.is_taken {
        return Shared::new(alloc, own.with_put(alloc, place.at, rows)?);
    }
    Shared::new(alloc, own.with_inserted(alloc, place.at, rows)?)
}

// The table without the rows at the place.
fn without_rows(
    alloc: Global,
    table: Shared<ListenerTable>,
    place: Place,
) -> Result<Shared<ListenerTable>, NoMemory>
    requires { places.behind place ≤ length table.routes }
    ensures { IfOk result (λ changed. changed ≡ record table { routes = places.with_at place [] table.routes }) }
{
    if !place.is_taken {
        return Ok(table);
    }
    let own = own_table(alloc, table)?;
    Shared::new(alloc, own.without(alloc, place.at)?)
}

/// The table of a listener of the door, with the rows of a Route at the place, or with none there.
pub(crate) fn changed_table(
    alloc: Global,
    door: &Door,
    table: Shared<ListenerTable>,
    place: Place,
    kept: Option<&KeptRoute>,
) -> Result<Shared<ListenerTable>, NoMemory>
    requires within { places.behind place ≤ length table.routes }
    requires plans { IfSome (option_copied kept) held.HasItsPlans }
    requires rows { rules.AreRowsOf table.listener (rules.rows_in (held.routes_with place door.now (option_to_list (option_copied kept)) table)) }
    ensures { IfOk result (λ changed. changed ≡ held.table_with place door.now (option_to_list (option_copied kept.entry)) table) }
{
    match kept {
        Some(kept) => {
            let rows = route_rows(alloc, door, table.listener(), kept)?;
            with_rows(alloc, table, place, rows)
        }
        None => without_rows(alloc, table, place),
    }
}

fn all_rows(
    alloc: Global,
    door: &Door,
    listener: &ServedListener,
    kept: &SharedList<KeptRoute>,
) -> Result<Vec<Shared<RouteRows>>, NoMemory>
    requires { All held.HasItsPlans kept.now }
    ensures { IfOk result (λ all. all.items ≡ map (kept_rows door.now listener.now) kept.now) }
{
    let mut all = Vec::with_capacity(alloc, kept.len())?;
    'routes: for at in 0..kept.len() {
        let rows = route_rows(alloc, door, listener, item_at(kept, at))?;
        all.push(Shared::new(alloc, rows)?)?;
    }
    Ok(all)
}

/// The table of a listener of the door, made anew of all Routes.
pub(crate) fn table_of(
    alloc: Global,
    door: &Door,
    listener: ServedListener,
    kept: &SharedList<KeptRoute>,
) -> Result<Shared<ListenerTable>, NoMemory>
    requires plans { All held.HasItsPlans kept.now }
    requires rows { rules.AreRowsOf listener (rules.rows_in (map (kept_rows door.now listener) kept.now)) }
    ensures { IfOk result (λ table. table ≡ held.listed_with door.now kept.now listener) }
{
    let routes = all_rows(alloc, door, &listener, kept)?;
    let listener = Shared::new(alloc, listener)?;
    Shared::new(alloc, ListenerTable::of(alloc, listener, routes)?)
}

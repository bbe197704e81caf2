//! The tables of rows that stand listener by listener.
ghost use Rattle.std.specs.Prelude.{◌≡◌, All, IfOk, filter, map};
ghost use Rattle.gw_match.specs.model.Listed as rules;

use crate::handles::own_rows;
use crate::listener_table::ListenerTable;
use crate::route_rows::RouteRows;
use gw_rows::{Row, ServedListener};
use gw_shared::Shared;
use gw_text::NoMemory;
use std::alloc::Global;

fn table_of(
    alloc: Global,
    listener: &Shared<ServedListener>,
    rows: &[Shared<Row>],
) -> Result<Shared<ListenerTable>, NoMemory>
    requires { rules.AreApart (filter (rules.is_row_of listener.now) rows.now) }
    ensures { IfOk result (λ table. table ≡ rules.in_one rows.now listener.now) }
{
    let own = own_rows(alloc, rows, listener)?;
    let empty = ListenerTable::new(alloc, listener.share()?);
    Shared::new(alloc, empty.with_inserted(alloc, 0, RouteRows::new(own))?)
}

/// A table for each listener, with all its rows as those of one Route.
pub(crate) fn tables_of(
    alloc: Global,
    listeners: &[Shared<ServedListener>],
    rows: &[Shared<Row>],
) -> Result<Vec<Shared<ListenerTable>>, NoMemory>
    requires { All (λ l. rules.AreApart (filter (rules.is_row_of l) rows.now)) listeners.now }
    ensures { IfOk result (λ tables. tables.items ≡ map (rules.in_one rows.now) listeners.now) }
{
    let mut tables = Vec::with_capacity(alloc, listeners.len())?;
    'listeners: for listener in listeners {
        tables.push(table_of(alloc, listener, rows)?)?;
    }
    Ok(tables)
}

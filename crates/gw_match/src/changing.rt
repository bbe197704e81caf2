//! The cells of a listener, and how they follow a change of the rows of one Route.
ghost use Rattle.std.specs.Prelude.{◌≡◌, ◌++◌, List, IfOk, OnOk, true};
ghost use Rattle.gw_cells.specs.Held.{AreCellsOf};
ghost use Rattle.gw_match.specs.Standing.{StandFor};
ghost use Rattle.gw_match.specs.model.Listed.{AreApart, rows_in};
ghost use Rattle.gw_rows.specs.model.Rows.{Row as Plain};

use crate::route_rows::RouteRows;
use gw_cells::{Cells, stands_for};
use gw_rows::Row;
use gw_shared::Shared;
use gw_text::NoMemory;
use std::alloc::Global;

fn take_out_all(alloc: Global, cells: &mut Cells, rows: &[Shared<Row>]) -> Result<(), NoMemory>
    ensures { (others : List Plain) → AreCellsOf (rows.now ++ others) cells.old → OnOk result (AreCellsOf others cells.new) }
{
    'rows: for row in rows {
        cells.take_out(alloc, row)?;
    }
    Ok(())
}

// Adds each row, or puts it in place of the one for which it stands.
fn add_all(alloc: Global, cells: &mut Cells, rows: &[Shared<Row>]) -> Result<(), NoMemory>
    ensures added { (others : List Plain) → AreApart (rows.now ++ others) → AreCellsOf others cells.old → OnOk result (AreCellsOf (rows.now ++ others) cells.new) }
    ensures put { (former others : List Plain) → StandFor rows.now former → AreCellsOf (former ++ others) cells.old → OnOk result (AreCellsOf (rows.now ++ others) cells.new) }
{
    'rows: for row in rows {
        cells.add(alloc, row)?;
    }
    Ok(())
}

/// The cells of the rows of these Routes.
pub(crate) fn cells_of(alloc: Global, routes: &[Shared<RouteRows>]) -> Result<Cells, NoMemory>
    requires { AreApart (rows_in routes.now) }
    ensures { IfOk result (λ cells. AreCellsOf (rows_in routes.now) cells) }
{
    let mut cells = Cells::new(alloc);
    'routes: for rows in routes {
        add_all(alloc, &mut cells, rows.as_slice())?;
    }
    Ok(cells)
}

// Whether each of these rows has the place of the one of its number.
fn stand_for(rows: &[Shared<Row>], former: &[Shared<Row>]) -> bool
    ensures { result ≡ true → StandFor rows.now former.now }
{
    if rows.len() != former.len() {
        return false;
    }
    'rows: for at in 0..rows.len() {
        if !stands_for(&rows[at], &former[at]) {
            return false;
        }
    }
    true
}

/// Puts these rows in place of those that a Route had. A cell is copied once where its row has the place of a former one. Where memory is
/// wanted, use the cells no more.
pub(crate) fn change_cells(
    alloc: Global,
    cells: &mut Cells,
    former: &[Shared<Row>],
    rows: &[Shared<Row>],
) -> Result<(), NoMemory>
    ensures { (others : List Plain) → AreCellsOf (former.now ++ others) cells.old → AreApart (rows.now ++ others)
        → OnOk result (AreCellsOf (rows.now ++ others) cells.new) }
{
    if stand_for(rows, former) {
        return add_all(alloc, cells, rows);
    }
    take_out_all(alloc, cells, former)?;
    add_all(alloc, cells, rows)
}

//! The rows of a cell, those that stand before the others first.
ghost use Rattle.std.specs.Prelude.{◌≡◌, ◌<◌, ◌≤◌, ◌∷◌, List, Ok, false, IfErr, IfOk, OnOk, length, slice_index_or};
ghost use Rattle.std.specs.List.Sorted.{IsPartitionPoint, IsStrictlySortedBy};
ghost use Rattle.std.specs.declared.cmp.Ordering.TheVariants.{Less, Equal, Greater};
ghost use Rattle.gw_cells.specs.Cells.{rows_in};
ghost use Rattle.gw_cells.specs.Changes.{AddsRow, PutsRow, TakesOutRow};
ghost use Rattle.gw_cells.specs.model.Order.{IsInOrder};
ghost use Rattle.gw_rows.specs.model.Precedence as rules;
ghost use Rattle.gw_rows.specs.model.Rows.{Row as Plain};

use crate::row_list::RowList;
use gw_rows::{Row, precedence};
use gw_shared::Shared;
use gw_text::NoMemory;
use std::alloc::Global;
use std::cmp::Ordering;

// Where a row stands in a cell, or else where it is to stand. Std's search would tell that what it finds ties with the row, and not that
// they are one row.
fn place_in(cell: &RowList, row: &Row) -> Result<usize, usize>
    ensures found { IfOk result (λ at. at < length (rows_in cell.now)) }
    ensures tied { IfOk result (λ at. (d : Plain) → rules.precedence (slice_index_or (rows_in cell.now) at d) row.now ≡ Equal) }
    ensures one { IfOk result (λ at. (d : Plain) → rules.AreOneRow (slice_index_or (rows_in cell.now) at d) row.now) }
    ensures between { IsStrictlySortedBy rules.precedence (rows_in cell.now) → IfErr result (IsPartitionPoint (λ r. rules.precedence r row.now ≡ Less) (λ r. rules.precedence r row.now ≡ Greater) (rows_in cell.now)) }
    ensures within { IfErr result (λ at. at ≤ length (rows_in cell.now)) }
{
    let mut low = 0;
    let mut high = cell.len();
    'halves: while low < high {
        let middle = low + (high - low) / 2;
        match precedence(cell.at(middle), row) {
            Ordering::Less => low = middle + 1,
            Ordering::Equal => return Ok(middle),
            Ordering::Greater => high = middle,
        }
    }
    Err(low)
}

/// Adds a row; one that precedence doesn't tell from it gives way.
pub(crate) fn add_row(alloc: Global, cell: &mut RowList, row: &Shared<Row>) -> Result<(), NoMemory>
    ensures added { OnOk result (AddsRow row.now (rows_in cell.old) (rows_in cell.new)) }
    ensures put { OnOk result (PutsRow row.now (rows_in cell.old) (rows_in cell.new)) }
{
    let row = row.share()?;
    match place_in(cell, &row) {
        Ok(at) => cell.put(alloc, at, row),
        Err(at) => cell.insert(alloc, at, row),
    }
}

/// Takes out a row, if one stands there that precedence doesn't tell from it, and says whether it did.
pub(crate) fn take_out_row(alloc: Global, cell: &mut RowList, row: &Row) -> Result<bool, NoMemory>
    ensures out { OnOk result (TakesOutRow row.now (rows_in cell.old) (rows_in cell.new)) }
    ensures missing { result ≡ Ok false → (rest : List Plain) → ¬ IsInOrder (row.now ∷ rest) (rows_in cell.old) }
{
    match place_in(cell, row) {
        Ok(at) => {
            cell.remove(alloc, at)?;
            Ok(true)
        }
        Err(_) => Ok(false),
    }
}

ghost use Rattle.std.specs.Prelude.{◌≡◌, Bool, [], Ok, true, false, IfOk, OnOk, List, ◌∷◌};
ghost use Rattle.gw_cells.specs.Cells.{in_cell};
ghost use Rattle.gw_cells.specs.Changes.{AddsRow, PutsRow, TakesOutRow};
ghost use Rattle.gw_cells.specs.model.Addresses.{same_kind};
ghost use Rattle.gw_cells.specs.model.Order.{IsInOrder};
ghost use Rattle.gw_rows.specs.model.Rows.{Row as Plain};

use crate::row_list::RowList;
use crate::rows::{add_row, take_out_row};
use gw_rows::Row;
use gw_shared::Shared;
use gw_text::NoMemory;
use std::alloc::Global;

/// The rows of one hostname and path, those that stand before the others first.
#[derive(Drop)]
pub(crate) struct Cell {
    pub(crate) exact: RowList,
    pub(crate) prefix: RowList,
}

impl Cell {
    /// No rows.
    pub(crate) fn new(alloc: Global) -> Self
        ensures { (is_exact : Bool) → in_cell result is_exact ≡ [] }
    {
        Cell {
            exact: RowList::new(alloc),
            prefix: RowList::new(alloc),
        }
    }

    /// A copy, with handles on the same rows.
    pub(crate) fn share(&self, alloc: Global) -> Result<Self, NoMemory>
        ensures { IfOk result (λ copy. (is_exact : Bool) → in_cell copy is_exact ≡ in_cell self.now is_exact) }
    {
        Ok(Cell {
            exact: self.exact.share(alloc)?,
            prefix: self.prefix.share(alloc)?,
        })
    }

    /// Whether it has no rows.
    pub(crate) fn is_empty(&self) -> bool
        ensures { result ≡ true → (is_exact : Bool) → in_cell self.now is_exact ≡ [] }
    {
        self.exact.len() == 0 && self.prefix.len() == 0
    }

    /// Adds a row; one that precedence doesn't tell from it gives way.
    pub(crate) fn add(
        &mut self,
        alloc: Global,
        is_exact: bool,
        row: &Shared<Row>,
    ) -> Result<(), NoMemory>
        ensures added { OnOk result (AddsRow row.now (in_cell self.old is_exact) (in_cell self.new is_exact)) }
        ensures put { OnOk result (PutsRow row.now (in_cell self.old is_exact) (in_cell self.new is_exact)) }
        ensures others { (other : Bool) → same_kind other is_exact ≡ false → in_cell self.new other ≡ in_cell self.old other }
    {
        if is_exact {
            add_row(alloc, &mut self.exact, row)
        } else {
            add_row(alloc, &mut self.prefix, row)
        }
    }

    /// Takes out a row, and says whether it was there.
    pub(crate) fn take_out(
        &mut self,
        alloc: Global,
        is_exact: bool,
        row: &Row,
    ) -> Result<bool, NoMemory>
        ensures out { OnOk result (TakesOutRow row.now (in_cell self.old is_exact) (in_cell self.new is_exact)) }
        ensures missing { result ≡ Ok false → (rest : List Plain) → ¬ IsInOrder (row.now ∷ rest) (in_cell self.old is_exact) }
        ensures others { (other : Bool) → same_kind other is_exact ≡ false → in_cell self.new other ≡ in_cell self.old other }
    {
        if is_exact {
            take_out_row(alloc, &mut self.exact, row)
        } else {
            take_out_row(alloc, &mut self.prefix, row)
        }
    }
}

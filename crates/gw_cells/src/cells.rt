//! The cells of a listener.
ghost use Rattle.std.specs.Prelude.{◌≡◌, ◌+◌, ◌≤◌, ◌∷◌, [], List, AllPairs, IfOk, OnOk, filter, option_copied};
ghost use Rattle.gw_cells.specs.model.Order.{IsApartFrom, StandsFor};
ghost use Rattle.gw_cells.specs.model.Probes.{most_probes};
ghost use Rattle.gw_rows.specs.model.Fitting.{fits};
ghost use Rattle.gw_rows.specs.model.Precedence.{AreOneRow, precedence};
ghost use Rattle.gw_rows.specs.model.Rows.{Row as Plain, foremost};

use crate::addressing::address_of;
use crate::find::find_by_name;
use crate::maps::{Names, cell_at, put_at};
use gw_frames::Request;
use gw_query::Parameters;
use gw_rows::Row;
use gw_shared::{Shared, SharedMap};
use gw_text::{NoMemory, Steps};
use std::alloc::Global;
use std::sync::ledger::Ledger;

/// Rows in cells by hostname and path. Copies share the cells in which they don't differ.
#[derive(Drop)]
pub struct Cells {
    pub(crate) names: Names,
}

impl Cells {
    ghost use Rattle.gw_cells.specs.Held.{AreCellsOf};

    /// Those of no rows.
    pub fn new(alloc: Global) -> Self
        ensures { AreCellsOf [] result }
    {
        Cells {
            names: SharedMap::new(alloc),
        }
    }

    /// Those of these rows.
    pub fn of(alloc: Global, rows: &[Shared<Row>]) -> Result<Self, NoMemory>
        requires { AllPairs (λ a b. ¬ AreOneRow a b) rows.now }
        ensures { IfOk result (λ cells. AreCellsOf rows.now cells) }
    {
        let mut cells = Cells::new(alloc);
        'rows: for row in rows {
            cells.add(alloc, row)?;
        }
        Ok(cells)
    }

    /// A copy, which shares all cells.
    pub fn share(&self, alloc: Global) -> Result<Self, NoMemory>
        ensures { IfOk result (λ copy. copy ≡ self.now) }
    {
        Ok(Cells {
            names: self.names.share(alloc)?,
        })
    }

    /// Adds a row, which none of those that are there is one row with, or puts it in place of the one for which it stands. Where memory
    /// is wanted, use them no more.
    pub fn add(&mut self, alloc: Global, row: &Shared<Row>) -> Result<(), NoMemory>
        ensures added { (rows : List Plain) → IsApartFrom rows row.now → AreCellsOf rows self.old → OnOk result (AreCellsOf (row.now ∷ rows) self.new) }
        ensures put { (former : Plain) (rest : List Plain) → StandsFor row.now former → AreCellsOf (former ∷ rest) self.old → OnOk result (AreCellsOf (row.now ∷ rest) self.new) }
    {
        let address = address_of(alloc, row)?;
        let mut cell = cell_at(alloc, &self.names, &address)?;
        cell.add(alloc, address.is_exact, row)?;
        put_at(alloc, &mut self.names, &address, cell)
    }

    /// Takes out a row that is there; where it isn't, nothing is done. Where memory is wanted, use them no more.
    pub fn take_out(&mut self, alloc: Global, row: &Row) -> Result<(), NoMemory>
        ensures { (rest : List Plain) → AreCellsOf (row.now ∷ rest) self.old → OnOk result (AreCellsOf rest self.new) }
    {
        let address = address_of(alloc, row)?;
        let mut cell = cell_at(alloc, &self.names, &address)?;
        if !cell.take_out(alloc, address.is_exact, row)? {
            return Ok(());
        }
        put_at(alloc, &mut self.names, &address, cell)
    }

    /// Of the rows that fit, the one that precedence puts first. A step is one probe by name and path; what is passed over within one
    /// cell isn't counted.
    pub fn find<L: Ledger>(&self, request: &Request, steps: &mut Steps<L>) -> Option<&Row>
        ensures row { (rows : List Plain) → AreCellsOf rows self.now → option_copied result ≡ foremost precedence (filter (λ r. fits r request.now) rows) }
        ensures steps { steps.new ≤ steps.old + most_probes request.now }
        ensures later { steps.old ≤ steps.new }
    {
        let parameters = Parameters::of(&request.query);
        find_by_name(&self.names, request, &parameters, steps)
    }
}

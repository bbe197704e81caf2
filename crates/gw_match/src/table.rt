ghost use Rattle.std.specs.Prelude.{◌≡◌, ◌≤◌, ◌+◌, IfOk, option_copied};
ghost use Rattle.gw_cells.specs.model.Probes.{most_probes};
ghost use Rattle.gw_match.specs.model.Choice.{listener_at, row_at};
ghost use Rattle.gw_match.specs.model.Listed as rules;

use crate::choice::foremost_table;
use crate::handles::shared_all;
use crate::listener_table::ListenerTable;
use crate::making::tables_of;
use gw_frames::Request;
use gw_rows::{Row, Rows, ServedListener};
use gw_shared::Shared;
use gw_text::{NoMemory, Steps, Text};
use std::alloc::Global;
use std::marker::Model;
use std::sync::ledger::Ledger;

/// The rows of a door, in a form in which the one that serves a request is found.
pub struct DoorTable {
    tables: Vec<Shared<ListenerTable>>,
}

impl Model for DoorTable {
    ghost use Rattle.gw_match.specs.model.Listed.{AreOfOneDoor, rows_with};
    ghost use Rattle.gw_rows.specs.model.Rows.{Rows as Plain};

    ghost Value = { Plain };

    ghost view = { λ t. rows_with t.tables.items };

    ghost invariant = { λ t. AreOfOneDoor t.tables.items };
}

// Written out, so that crates above don't prove anew how its parts are dropped.
impl Drop for DoorTable {
    fn drop(self) {
        let DoorTable { tables: _ } = self;
    }
}

// The table of these listeners and rows.
fn table_of(
    alloc: Global,
    listeners: Vec<ServedListener>,
    rows: Vec<Row>,
) -> Result<DoorTable, NoMemory>
    requires { rules.AreRowsOfDoor (record { listeners = listeners.items; rows = rows.items }) }
    ensures { IfOk result (λ table. table ≡ record { listeners = listeners.items; rows = rows.items }) }
{
    let listeners = shared_all(alloc, listeners)?;
    let rows = shared_all(alloc, rows)?;
    let tables = tables_of(alloc, listeners.as_slice(), rows.as_slice())?;
    Ok(DoorTable::of(tables))
}

impl DoorTable {
    /// That of a door whose listeners have these tables.
    pub fn of(tables: Vec<Shared<ListenerTable>>) -> Self
        requires { rules.AreOfOneDoor tables.items }
        ensures { result ≡ rules.rows_with tables.items }
    {
        DoorTable { tables }
    }

    /// The table of these rows.
    pub fn compile(alloc: Global, rows: Rows) -> Result<Self, NoMemory>
        requires { rules.AreRowsOfDoor rows }
        ensures { IfOk result (λ table. table ≡ rows) }
    {
        let (listeners, rows) = rows.into_parts();
        table_of(alloc, listeners, rows)
    }

    /// A handle on each of its rows.
    pub fn all_rows(&self, alloc: Global) -> Result<Vec<Shared<Row>>, NoMemory>
        ensures { IfOk result (λ all. all.items ≡ self.now.rows) }
    {
        let mut all = Vec::new(alloc);
        'tables: for table in self.tables.as_slice() {
            table.push_rows(&mut all)?;
        }
        Ok(all)
    }

    /// The served listener that takes requests for this host.
    pub fn listener(&self, host: &Text) -> Option<&ServedListener>
        ensures { option_copied result ≡ listener_at self.now.listeners host.now }
    {
        let table = foremost_table(self.tables.as_slice(), host.bytes())?;
        Some(table.listener())
    }

    /// The row that serves the request. A step is one probe among the cells of its listener.
    pub fn find<L: Ledger>(&self, request: &Request, steps: &mut Steps<L>) -> Option<&Row>
        ensures row { option_copied result ≡ row_at self.now request.now }
        ensures steps { steps.new ≤ steps.old + most_probes request.now }
        ensures later { steps.old ≤ steps.new }
    {
        let table = foremost_table(self.tables.as_slice(), request.host.bytes())?;
        table.find(request, steps)
    }
}

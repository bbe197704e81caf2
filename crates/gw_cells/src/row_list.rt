//! Rows in a list. Few stand in one piece, which is read at once; of many the copies share what they have in common.
ghost use Rattle.std.specs.Prelude.{◌≡◌, ◌<◌, ◌≤◌, [], true, OnOk, IfOk, get_or, insert, length, remove, set};
ghost use Rattle.gw_cells.specs.Cells.{rows_in};

use gw_rows::Row;
use gw_shared::{Shared, SharedList};
use gw_text::NoMemory;
use std::alloc::Global;
use std::mem;

/// How many rows stand in one piece at most. A copy of such a piece takes a handle on each of them.
const MOST_IN_ONE: usize = 32;

/// The rows of a cell that ask for its path exactly, or as a prefix.
#[derive(Drop)]
pub(crate) enum RowList {
    Few(Vec<Shared<Row>>),
    Many(SharedList<Row>),
}

// A handle on each row.
fn share_rows(alloc: Global, rows: &[Shared<Row>]) -> Result<Vec<Shared<Row>>, NoMemory>
    ensures { IfOk result (λ shared. shared.items ≡ rows.now) }
{
    let mut shared = Vec::with_capacity(alloc, rows.len())?;
    'rows: for row in rows {
        shared.push(row.share()?)?;
    }
    Ok(shared)
}

impl RowList {
    /// No rows.
    pub(crate) fn new(alloc: Global) -> Self
        ensures { rows_in result ≡ [] }
    {
        RowList::Few(Vec::new(alloc))
    }

    /// A copy, with handles on the same rows.
    pub(crate) fn share(&self, alloc: Global) -> Result<Self, NoMemory>
        ensures { IfOk result (λ copy. rows_in copy ≡ rows_in self.now) }
    {
        match self {
            RowList::Few(rows) => Ok(RowList::Few(share_rows(alloc, rows.as_slice())?)),
            RowList::Many(rows) => Ok(RowList::Many(rows.share(alloc)?)),
        }
    }

    /// How many rows it has.
    pub(crate) fn len(&self) -> usize
        ensures { result ≡ length (rows_in self.now) }
    {
        match self {
            RowList::Few(rows) => rows.len(),
            RowList::Many(rows) => rows.len(),
        }
    }

    /// The row of this place.
    pub(crate) fn at(&self, at: usize) -> &Row
        requires { at < length (rows_in self.now) }
        ensures { result.now ≡ get_or (rows_in self.now) at result.now }
    {
        match self {
            RowList::Few(rows) => &rows[at],
            RowList::Many(rows) => &rows.piece(at)[0],
        }
    }

    /// Puts a row in place of the one of this place. Where memory is wanted, use the list no more.
    pub(crate) fn put(&mut self, alloc: Global, at: usize, row: Shared<Row>) -> Result<(), NoMemory>
        requires { at < length (rows_in self.old) }
        ensures { OnOk result (rows_in self.new ≡ set (rows_in self.old) at row) }
    {
        match self {
            RowList::Few(rows) => {
                rows[at] = row;
                Ok(())
            }
            RowList::Many(rows) => rows.put(alloc, at, row),
        }
    }

    /// Puts a row before the one of this place, or at the end. Where memory is wanted, use the list no more.
    pub(crate) fn insert(
        &mut self,
        alloc: Global,
        at: usize,
        row: Shared<Row>,
    ) -> Result<(), NoMemory>
        requires { at ≤ length (rows_in self.old) }
        ensures { OnOk result (rows_in self.new ≡ insert (rows_in self.old) at row) }
    {
        self.make_room(alloc)?;
        match self {
            RowList::Few(rows) => {
                rows.insert(at, row)?;
                Ok(())
            }
            RowList::Many(rows) => rows.insert(alloc, at, row),
        }
    }

    /// Takes out the row of this place. Where memory is wanted, use the list no more.
    pub(crate) fn remove(&mut self, alloc: Global, at: usize) -> Result<(), NoMemory>
        requires { at < length (rows_in self.old) }
        ensures { OnOk result (rows_in self.new ≡ remove (rows_in self.old) at) }
    {
        match self {
            RowList::Few(rows) => {
                let _row = rows.remove(at);
                Ok(())
            }
            RowList::Many(rows) => rows.remove(alloc, at),
        }
    }

    // Has the rows stand in a list whose copies share, where one piece may have no more.
    fn make_room(&mut self, alloc: Global) -> Result<(), NoMemory>
        ensures { OnOk result (rows_in self.new ≡ rows_in self.old) }
    {
        let RowList::Few(rows) = self else {
            return Ok(());
        };
        if rows.len() < MOST_IN_ONE {
            return Ok(());
        }
        let rows = mem::replace(rows, Vec::new(alloc));
        *self = RowList::Many(SharedList::from_vec(alloc, rows)?);
        Ok(())
    }
}

//! The cells of one hostname, by path.
ghost use Rattle.std.specs.Prelude.{◌≡◌, ℕ, List, ◌&&◌, bytes_eq, IfOk, None, Some, true, option_copied, is_ok, if◌then◌else◌};
ghost use Rattle.gw_shared.specs.model.Buckets.{value_at};

use crate::cell::Cell;
use gw_shared::SharedMap;
use gw_text::NoMemory;
use std::alloc::Global;
use std::marker::Model;

/// The cells of one hostname, by path. Beside them stands a length that no path among them exceeds, so that a longer one is passed over
/// without a look at its bytes: a client may ask for paths of thousands of elements.
#[derive(Drop)]
pub(crate) struct Paths {
    cells: SharedMap<Cell>,
    longest: usize,
}

impl Model for Paths {
    ghost use Rattle.std.specs.Prelude.{◌≡◌, ◌<◌, ℕ, List, None, length};
    ghost use Rattle.gw_cells.specs.declared.cell.Cell.{Cell};
    ghost use Rattle.gw_shared.specs.model.Buckets.{value_at};
    ghost use Rattle.gw_shared.specs.model.Entries.{Entry};

    ghost Value = { List (List (Entry Cell)) };

    ghost view = { λ p. p.cells };

    ghost invariant = { λ p. (path : List ℕ) → p.longest < length path → value_at p.cells path ≡ None };
}

impl Paths {
    /// No cells.
    pub(crate) fn new(alloc: Global) -> Self
        ensures { (path : List ℕ) → value_at result path ≡ None }
    {
        Paths {
            cells: SharedMap::new(alloc),
            longest: 0,
        }
    }

    /// The cell of a path.
    pub(crate) fn get(&self, path: &[u8]) -> Option<&Cell>
        ensures { option_copied result ≡ value_at self.now path.now }
    {
        if path.len() > self.longest {
            return None;
        }
        self.cells.get(path)
    }

    /// Whether there are none.
    pub(crate) fn is_empty(&self) -> bool
        ensures { result ≡ true → (path : List ℕ) → value_at self.now path ≡ None }
    {
        self.cells.is_empty()
    }

    /// A copy, which shares all cells.
    pub(crate) fn share(&self, alloc: Global) -> Result<Self, NoMemory>
        ensures { IfOk result (λ copy. copy ≡ self.now) }
    {
        Ok(Paths {
            cells: self.cells.share(alloc)?,
            longest: self.longest,
        })
    }

    /// Puts a cell under a path, in place of the one that is there. Where memory is wanted, all is as it was.
    pub(crate) fn put(&mut self, alloc: Global, path: &[u8], cell: Cell) -> Result<(), NoMemory>
        ensures { (other : List ℕ) → value_at self.new other ≡ (if is_ok result && bytes_eq other path.now then Some cell else value_at self.old other) }
    {
        self.longest = self.longest.max(path.len());
        self.cells.put(alloc, path, cell)
    }

    /// Takes out the cell of a path, if there is one. Where memory is wanted, all is as it was.
    pub(crate) fn remove(&mut self, alloc: Global, path: &[u8]) -> Result<(), NoMemory>
        ensures { (other : List ℕ) → value_at self.new other ≡ (if is_ok result && bytes_eq other path.now then None else value_at self.old other) }
    {
        self.cells.remove(alloc, path)
    }
}

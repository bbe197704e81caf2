//! The maps in which cells are looked up, and how a cell is put in place of another.
ghost use Rattle.std.specs.Prelude.{◌≡◌, ℕ, Bool, List, ◌&&◌, IfOk, OnOk, bytes_eq, if◌then◌else◌};
ghost use Rattle.gw_cells.specs.Cells.{at_name, at_place, in_cell};
ghost use Rattle.gw_cells.specs.model.Addresses.{Place};

use crate::address::Address;
use crate::cell::Cell;
use crate::paths::Paths;
use gw_shared::SharedMap;
use gw_text::NoMemory;
use std::alloc::Global;

/// The cells of all hostnames, by name.
pub(crate) type Names = SharedMap<Paths>;

// A copy of the cell of a path, or an empty one.
fn cell_of(alloc: Global, paths: &Paths, path: &[u8]) -> Result<Cell, NoMemory>
    ensures { IfOk result (λ cell. (is_exact : Bool) → in_cell cell is_exact ≡ at_place paths.now (record { is_exact = is_exact; path = path.now })) }
{
    match paths.get(path) {
        Some(cell) => cell.share(alloc),
        None => Ok(Cell::new(alloc)),
    }
}

/// A copy of the cell of an address, or an empty one.
pub(crate) fn cell_at(alloc: Global, names: &Names, address: &Address) -> Result<Cell, NoMemory>
    ensures { IfOk result (λ cell. (is_exact : Bool) →
        in_cell cell is_exact ≡ at_name names.now address.now.name.items (record { is_exact = is_exact; path = address.now.path.items })) }
{
    match names.get(address.name.as_slice()) {
        Some(paths) => cell_of(alloc, paths, address.path.as_slice()),
        None => Ok(Cell::new(alloc)),
    }
}

// A copy of the cells of a name, or none.
fn paths_of(alloc: Global, names: &Names, name: &[u8]) -> Result<Paths, NoMemory>
    ensures { IfOk result (λ paths. (p : Place) → at_place paths p ≡ at_name names.now name.now p) }
{
    match names.get(name) {
        Some(paths) => paths.share(alloc),
        None => Ok(Paths::new(alloc)),
    }
}

// An empty cell takes no place.
fn put_cell(alloc: Global, paths: &mut Paths, path: &[u8], cell: Cell) -> Result<(), NoMemory>
    ensures { OnOk result ((p : Place) → at_place paths.new p ≡ (if bytes_eq p.path path.now then in_cell cell p.is_exact else at_place paths.old p)) }
{
    if cell.is_empty() {
        return paths.remove(alloc, path);
    }
    paths.put(alloc, path, cell)
}

// A name without cells takes no place.
fn put_paths(alloc: Global, names: &mut Names, name: &[u8], paths: Paths) -> Result<(), NoMemory>
    ensures { OnOk result ((other : List ℕ) (p : Place) → at_name names.new other p ≡ (if bytes_eq other name.now then at_place paths p else at_name names.old other p)) }
{
    if paths.is_empty() {
        return names.remove(alloc, name);
    }
    names.put(alloc, name, paths)
}

/// Puts a cell at an address, in place of the one that is there.
pub(crate) fn put_at(
    alloc: Global,
    names: &mut Names,
    address: &Address,
    cell: Cell,
) -> Result<(), NoMemory>
    ensures { OnOk result ((name : List ℕ) (p : Place) → at_name names.new name p
        ≡ (if bytes_eq name address.now.name.items && bytes_eq p.path address.now.path.items then in_cell cell p.is_exact else at_name names.old name p)) }
{
    let name = address.name.as_slice();
    let mut paths = paths_of(alloc, names, name)?;
    put_cell(alloc, &mut paths, address.path.as_slice(), cell)?;
    put_paths(alloc, names, name, paths)
}

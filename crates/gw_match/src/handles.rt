//! Handles on rows.
ghost use Rattle.std.specs.Prelude.{◌≡◌, ◌++◌, ◌∷◌, [], IfOk, OnOk, filter};
ghost use Rattle.gw_match.specs.model.Listed.{is_row_of};

use gw_rows::{Row, ServedListener};
use gw_shared::Shared;
use gw_text::NoMemory;
use std::alloc::Global;

/// A handle on each of these.
pub(crate) fn shared_all<T: Drop>(alloc: Global, items: Vec<T>) -> Result<Vec<Shared<T>>, NoMemory>
    ensures { IfOk result (λ shared. shared.items ≡ items.items) }
{
    let mut shared = Vec::with_capacity(alloc, items.len())?;
    'items: for item in items {
        shared.push(Shared::new(alloc, item)?)?;
    }
    Ok(shared)
}

/// Puts one handle more on each of these rows at the end.
pub(crate) fn push_all(all: &mut Vec<Shared<Row>>, rows: &[Shared<Row>]) -> Result<(), NoMemory>
    ensures { OnOk result (all.new.items ≡ all.old.items ++ rows.now) }
{
    'rows: for row in rows {
        all.push(row.share()?)?;
    }
    Ok(())
}

// Puts one handle more on the row at the end, where it is one of the listener.
fn push_own(
    own: &mut Vec<Shared<Row>>,
    row: &Shared<Row>,
    listener: &ServedListener,
) -> Result<(), NoMemory>
    ensures { OnOk result (own.new.items ≡ own.old.items ++ filter (is_row_of listener.now) (row.now ∷ [])) }
{
    if row.listener == listener.number {
        own.push(row.share()?)?;
    }
    Ok(())
}

/// One handle more on each row of the listener.
pub(crate) fn own_rows(
    alloc: Global,
    rows: &[Shared<Row>],
    listener: &ServedListener,
) -> Result<Vec<Shared<Row>>, NoMemory>
    ensures { IfOk result (λ own. own.items ≡ filter (is_row_of listener.now) rows.now) }
{
    let mut own = Vec::new(alloc);
    'rows: for row in rows {
        push_own(&mut own, row, listener)?;
    }
    Ok(own)
}

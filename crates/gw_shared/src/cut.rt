//! Items that are cut into pieces.
ghost use Rattle.std.specs.Prelude.{◌≡◌, [], ◌∷◌, ◌++◌, IfOk, OnOk};
ghost use Rattle.gw_shared.specs.Sharing.{in_pieces};

use gw_text::NoMemory;
use std::alloc::Global;
use std::mem;

/// How many items a piece has at most.
pub(crate) const MOST_IN_PIECE: usize = 32;

// Puts these at the end, as one piece; where there are none, nothing.
fn push_piece<X: Drop>(pieces: &mut Vec<Vec<X>>, piece: Vec<X>) -> Result<(), NoMemory>
    ensures { OnOk result (in_pieces pieces.new.items ≡ in_pieces pieces.old.items ++ piece.items) }
{
    if piece.is_empty() {
        return Ok(());
    }
    pieces.push(piece)?;
    Ok(())
}

// Puts this one at the end: into the piece that grows, which goes behind the others once it has this size.
fn push_growing<X: Drop>(
    alloc: Global,
    pieces: &mut Vec<Vec<X>>,
    growing: &mut Vec<X>,
    size: usize,
    item: X,
) -> Result<(), NoMemory>
    ensures { OnOk result (in_pieces pieces.new.items ++ growing.new.items ≡ (in_pieces pieces.old.items ++ growing.old.items) ++ item ∷ []) }
{
    growing.push(item)?;
    if growing.len() < size {
        return Ok(());
    }
    let full = mem::replace(growing, Vec::with_capacity(alloc, size)?);
    push_piece(pieces, full)
}

// These in pieces of this size, of which the last one may have fewer.
fn cut<X: Drop>(alloc: Global, items: Vec<X>, size: usize) -> Result<Vec<Vec<X>>, NoMemory>
    ensures { IfOk result (λ pieces. in_pieces pieces.items ≡ items.items) }
{
    let mut pieces = Vec::new(alloc);
    let mut growing = Vec::with_capacity(alloc, size)?;
    'items: for item in items {
        push_growing(alloc, &mut pieces, &mut growing, size, item)?;
    }
    push_piece(&mut pieces, growing)?;
    Ok(pieces)
}

/// These in pieces, as few as there can be, and of about the same size.
pub(crate) fn pieces_of<X: Drop>(alloc: Global, items: Vec<X>) -> Result<Vec<Vec<X>>, NoMemory>
    ensures { IfOk result (λ pieces. in_pieces pieces.items ≡ items.items) }
{
    if items.len() > MOST_IN_PIECE {
        let number = items.len().div_ceil(MOST_IN_PIECE);
        let size = items.len().div_ceil(number);
        return cut(alloc, items, size);
    }
    let mut pieces = Vec::new(alloc);
    push_piece(&mut pieces, items)?;
    Ok(pieces)
}

//! What becomes of a number.
ghost use Rattle.std.specs.Prelude.{◌≡◌, IfOk};
ghost use Rattle.gw_kept.specs.Changes as rules;

use gw_text::NoMemory;

/// A Route more, or one less.
#[derive(Clone, Copy)]
pub(crate) enum Change {
    Added,
    TakenOut,
}

/// The number with the change: a number that would be too large wants memory.
pub(crate) fn changed(change: Change, number: u64) -> Result<u64, NoMemory>
    ensures { IfOk result (λ now. now ≡ rules.changed change number) }
{
    match change {
        Change::Added => number.checked_add(1).ok_or(NoMemory),
        Change::TakenOut => Ok(number.saturating_sub(1)),
    }
}

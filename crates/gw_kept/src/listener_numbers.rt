//! The numbers of one Gateway, by the places of its listeners. Beyond the end each is 0.
ghost use Rattle.std.specs.Prelude.{◌≡◌, ◌<◌, ℕ, nat_eq, true, OnOk, slice_index, vec_len, if◌then◌else◌};
ghost use Rattle.std.specs.List.{list_any};
ghost use Rattle.gw_kept.specs.Changes as rules;

use crate::change::{Change, changed};
use gw_text::NoMemory;

/// The number at a place.
pub(crate) fn number_in(numbers: &[u64], place: usize) -> u64
    ensures { result ≡ slice_index numbers.now place }
{
    numbers.get(place).copied().unwrap_or(0)
}

/// Whether each is 0.
pub(crate) fn are_none(numbers: &[u64]) -> bool
    ensures { result ≡ true → (place : ℕ) → slice_index numbers.now place ≡ 0 }
{
    numbers.iter().all(|number| *number == 0)
}

// Makes the numbers reach beyond a place. None becomes another.
fn reach(numbers: &mut Vec<u64>, place: usize) -> Result<(), NoMemory>
    ensures room { OnOk result (place < vec_len numbers.new) }
    ensures numbers { OnOk result ((other : ℕ) → slice_index numbers.new.items other ≡ slice_index numbers.old.items other) }
{
    if place < numbers.len() {
        return Ok(());
    }
    let count = place.checked_add(1).ok_or(NoMemory)?;
    numbers.resize(count, 0)
}

fn set_number(numbers: &mut Vec<u64>, place: usize, number: u64) -> Result<(), NoMemory>
    ensures { OnOk result ((other : ℕ) → slice_index numbers.new.items other ≡ (if nat_eq other place then number else slice_index numbers.old.items other)) }
{
    reach(numbers, place)?;
    numbers[place] = number;
    Ok(())
}

/// Puts a number at each of these places: the one that was there before, with the change. So a place that stands there twice is changed once.
pub(crate) fn change_places(
    numbers: &mut Vec<u64>,
    before: &[u64],
    places: &[usize],
    change: Change,
) -> Result<(), NoMemory>
    ensures { OnOk result ((place : ℕ) → slice_index numbers.new.items place
        ≡ (if list_any (nat_eq place) places.now then rules.changed change (slice_index before.now place) else slice_index numbers.old.items place)) }
{
    'places: for place in places {
        let number = changed(change, number_in(before, *place))?;
        set_number(numbers, *place, number)?;
    }
    Ok(())
}

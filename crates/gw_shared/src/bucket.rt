//! What is done with one bucket.
ghost use Rattle.std.specs.Prelude.{◌≡◌, ◌++◌, ◌∷◌, [], ◌%◌, ◌==◌, ◌<◌, IfOk, OnOk, filter, option_copied};
ghost use Rattle.gw_shared.specs.model.Buckets as buckets;
ghost use Rattle.gw_shared.specs.model.Entries as rules;

use crate::slot::Slot;
use gw_text::NoMemory;
use std::alloc::Global;
use std::marker::Model;

/// The slots that stand in one bucket.
#[derive(Drop)]
pub(crate) struct Bucket<V: Drop> {
    slots: Vec<Slot<V>>,
}

impl<V: Drop> Model for Bucket<V> {
    ghost use Rattle.std.specs.Prelude.{List};
    ghost use Rattle.gw_shared.specs.model.Entries.{Entry};

    ghost Value = { List (Entry V) };

    ghost view = { λ b. b.slots.items };
}

impl<V: Drop> Bucket<V> {
    /// That of these slots.
    pub(crate) fn new(slots: Vec<Slot<V>>) -> Self
        ensures { result ≡ slots.items }
    {
        Bucket { slots }
    }

    /// Its slots.
    pub(crate) fn as_slice(&self) -> &[Slot<V>]
        ensures { result.now ≡ self.now }
    {
        self.slots.as_slice()
    }
}

/// The value of a key, which has this hash.
pub(crate) fn find_in<'s, V: Drop>(slots: &'s [Slot<V>], hash: u64, key: &[u8]) -> Option<&'s V>
    ensures { option_copied result ≡ rules.found_in hash key.now slots.now }
{
    'slots: for slot in slots {
        if slot.is_of(hash, key) {
            return Some(slot.value());
        }
    }
    None
}

// Puts a handle on the slot at the end, unless it is that of the key.
fn push_other<V: Drop>(
    kept: &mut Vec<Slot<V>>,
    slot: &Slot<V>,
    hash: u64,
    key: &[u8],
) -> Result<(), NoMemory>
    ensures { OnOk result (kept.new.items ≡ kept.old.items ++ buckets.without hash key.now (slot.now ∷ [])) }
{
    if !slot.is_of(hash, key) {
        kept.push(slot.share()?)?;
    }
    Ok(())
}

/// Handles on the slots that aren't those of a key, which has this hash.
pub(crate) fn without<V: Drop>(
    alloc: Global,
    slots: &[Slot<V>],
    hash: u64,
    key: &[u8],
) -> Result<Vec<Slot<V>>, NoMemory>
    ensures { IfOk result (λ kept. kept.items ≡ buckets.without hash key.now slots.now) }
{
    // One more is put there, most often.
    let mut kept = Vec::with_capacity(alloc, slots.len().saturating_add(1))?;
    'slots: for slot in slots {
        push_other(&mut kept, slot, hash, key)?;
    }
    Ok(kept)
}

// Puts a handle on the slot at the end, where its hash belongs there.
fn push_own<V: Drop>(
    kept: &mut Vec<Slot<V>>,
    slot: &Slot<V>,
    number: u64,
    place: u64,
) -> Result<(), NoMemory>
    requires { 0 < number }
    ensures { OnOk result (kept.new.items ≡ kept.old.items ++ filter (λ e. (e.hash % number) == place) (slot.now ∷ [])) }
{
    if slot.hash() % number == place {
        kept.push(slot.share()?)?;
    }
    Ok(())
}

/// Handles on the slots whose hash, modulo this number, is this place.
pub(crate) fn own<V: Drop>(
    alloc: Global,
    slots: &[Slot<V>],
    number: u64,
    place: u64,
) -> Result<Vec<Slot<V>>, NoMemory>
    requires { 0 < number }
    ensures { IfOk result (λ kept. kept.items ≡ filter (λ e. (e.hash % number) == place) slots.now) }
{
    let mut kept = Vec::new(alloc);
    'slots: for slot in slots {
        push_own(&mut kept, slot, number, place)?;
    }
    Ok(kept)
}

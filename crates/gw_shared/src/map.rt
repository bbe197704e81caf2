//! The map.
ghost use Rattle.std.specs.Prelude.{◌≡◌, ℕ, List, ◌<◌, ◌*◌, ◌⊎◌, ◌&&◌, bytes_eq, IfOk, IfSome, OnOk, OnErr, None, Some, true, option_copied, is_ok, length, if◌then◌else◌};
ghost use Rattle.gw_shared.specs.model.Buckets as rules;

use crate::bucket::{find_in, without};
use crate::buckets::Buckets;
use crate::hash::hash_of;
use crate::slot::Slot;
use gw_text::NoMemory;
use std::alloc::Global;
use std::marker::Model;

/// How many keys a bucket may have, on average, before there are more buckets.
const MOST_ON_AVERAGE: usize = 32;

/// A map from bytes to values. Its copies share the buckets in which they don't differ.
pub struct SharedMap<V: Drop> {
    buckets: Buckets<V>,
    count: usize,
}

impl<V: Drop> Model for SharedMap<V> {
    ghost use Rattle.std.specs.Prelude.{List};
    ghost use Rattle.gw_shared.specs.model.Entries.{Entry};

    ghost Value = { List (List (Entry V)) };

    ghost view = { λ m. m.buckets };
}

// Written out, so that crates above don't prove anew how its parts are dropped.
impl<V: Drop> Drop for SharedMap<V> {
    fn drop(self) {
        let SharedMap {
            buckets: _,
            count: _,
        } = self;
    }
}

// How many buckets there are next: one, or four times as many.
fn more_buckets(number: usize) -> Option<u64>
    ensures { IfSome result (λ more. (0 < more) × ((number ≡ 0) ⊎ (more ≡ number * 4))) }
{
    if number == 0 {
        return Some(1);
    }
    (number as u64).checked_mul(4)
}

impl<V: Drop> SharedMap<V> {
    /// A map with nothing in it.
    #[tactic(auto, unfolding(crate::specs::model::Buckets::value_at))]
    pub fn new(alloc: Global) -> Self
        ensures { (key : List ℕ) → rules.value_at result key ≡ None }
    {
        SharedMap {
            buckets: Buckets::new(alloc),
            count: 0,
        }
    }

    /// The value under these bytes.
    #[tactic(auto, unfolding(crate::specs::model::Buckets::value_at))]
    pub fn get(&self, key: &[u8]) -> Option<&V>
        ensures { option_copied result ≡ rules.value_at self.now key.now }
    {
        let hash = hash_of(key);
        find_in(self.buckets.bucket_of(hash), hash, key)
    }

    /// Whether nothing is in it.
    pub fn is_empty(&self) -> bool
        ensures { result ≡ true → (key : List ℕ) → rules.value_at self.now key ≡ None }
    {
        self.buckets.are_empty()
    }

    /// A copy, which shares all buckets: it takes a handle on each of their groups.
    pub fn share(&self, alloc: Global) -> Result<Self, NoMemory>
        ensures { IfOk result (λ copy. copy ≡ self.now) }
    {
        Ok(SharedMap {
            buckets: self.buckets.share(alloc)?,
            count: self.count,
        })
    }

    // More buckets, where there are none, or too many keys for those that there are.
    fn make_room(&mut self, alloc: Global) -> Result<(), NoMemory>
        ensures values { (key : List ℕ) → rules.value_at self.new key ≡ rules.value_at self.old key }
        ensures room { OnOk result (0 < length self.new) }
    {
        if self.count / MOST_ON_AVERAGE < self.buckets.len() {
            return Ok(());
        }
        let Some(number) = more_buckets(self.buckets.len()) else {
            return Err(NoMemory);
        };
        self.buckets = self.buckets.spread(alloc, number)?;
        Ok(())
    }

    // Puts these slots into the bucket in which those of a hash stand.
    fn set(&mut self, alloc: Global, hash: u64, slots: Vec<Slot<V>>) -> Result<(), NoMemory>
        requires { 0 < length self.old }
        ensures set { OnOk result (self.new ≡ rules.with_bucket hash slots.items self.old) }
        ensures kept { OnErr result (self.new ≡ self.old) }
    {
        let before = self.buckets.bucket_of(hash).len();
        let now = slots.len();
        self.buckets.put_bucket(alloc, hash, slots)?;
        self.count = self.count.saturating_sub(before).saturating_add(now);
        Ok(())
    }

    /// Puts a value under these bytes, in place of the one that is there. Where memory is wanted, all is as it was.
    pub fn put(&mut self, alloc: Global, key: &[u8], value: V) -> Result<(), NoMemory>
        ensures { (other : List ℕ) → rules.value_at self.new other ≡ (if is_ok result && bytes_eq other key.now then Some value else rules.value_at self.old other) }
    {
        let hash = hash_of(key);
        let slot = Slot::new(alloc, hash, key, value)?;
        self.make_room(alloc)?;
        let mut slots = without(alloc, self.buckets.bucket_of(hash), hash, key)?;
        slots.push(slot)?;
        self.set(alloc, hash, slots)
    }

    /// Takes out what is under these bytes, if anything is. Where memory is wanted, all is as it was.
    pub fn remove(&mut self, alloc: Global, key: &[u8]) -> Result<(), NoMemory>
        ensures { (other : List ℕ) → rules.value_at self.new other ≡ (if is_ok result && bytes_eq other key.now then None else rules.value_at self.old other) }
    {
        if self.buckets.len() == 0 {
            return Ok(());
        }
        let hash = hash_of(key);
        let slots = without(alloc, self.buckets.bucket_of(hash), hash, key)?;
        self.set(alloc, hash, slots)
    }
}

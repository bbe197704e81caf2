//! Sets that are kept as lists in an order, in which each item is found by a binary search.
ghost use Rattle.std.specs.Prelude.{◌≡◌, ◌<◌, ◌≤◌, ◌+◌, ◌||◌, ◌&&◌, [], not, length, OnOk, MatchResult};
ghost use Rattle.std.specs.List.{insert, remove as remove_place};
ghost use Rattle.std.specs.List.Sorted.{IsStrictlySortedBy, IsSearchInRange};
ghost use Rattle.gw_store.proofs.InOrder.{StandsAt, IsMissingAt};
ghost use Rattle.gw_deps.specs.Sets.{has};

use gw_text::NoMemory;
use std::alloc::Global;
use std::cmp::Ordering;
use std::marker::Model;

/// Something with an order, in which those alone tie that are the same.
pub trait Ordered {
    ghost use Rattle.std.specs.Prelude.{◌≡◌, Bool};
    ghost use Rattle.std.specs.Cmp.{IsTotalOrder};
    ghost use Rattle.std.specs.Ordering.{is_eq};
    ghost use Rattle.std.specs.declared.cmp.Ordering.{Ordering as Plain};

    ghost order: { Self → Self → Plain };

    ghost same: { Self → Self → Bool };

    ghost total: { IsTotalOrder order };

    ghost ties: { (x y : Self) → is_eq (order x y) ≡ same x y };

    fn compare(&self, other: &Self) -> Ordering
        ensures { result ≡ order self.now other.now };
}

/// A set of items, in their order.
#[derive(Drop)]
pub struct Sorted<T: Ordered + Drop> {
    items: Vec<T>,
}

impl<T: Ordered + Drop> Model for Sorted<T> {
    ghost use Rattle.std.specs.Prelude.{◌-◌, vec_len, vec_capacity};
    ghost use Rattle.std.specs.List.Sorted.{IsStrictlySortedBy};
    ghost use Rattle.gw_deps.specs.Sets.{Kept};

    ghost Value = { Kept T };

    ghost view = { λ s. record { list = s.items.items; spare = vec_capacity s.items - vec_len s.items } };

    ghost invariant = { λ s. IsStrictlySortedBy T.order s.items.items };
}

impl<T: Ordered + Drop> Sorted<T> {
    /// No items.
    pub fn new(alloc: Global) -> Self
        ensures { result.list ≡ [] }
    {
        Sorted {
            items: Vec::new(alloc),
        }
    }

    /// The items in their order, each once.
    pub fn as_slice(&self) -> &[T]
        ensures value { result.now ≡ self.now.list }
        ensures order { IsStrictlySortedBy T.order result.now }
    {
        self.items.as_slice()
    }

    /// The items in their order, without a copy.
    pub fn into_vec(self) -> Vec<T>
        ensures { result.items ≡ self.list }
    {
        self.items
    }

    /// How many items there are.
    pub fn len(&self) -> usize
        ensures { result ≡ length self.now.list }
    {
        self.as_slice().len()
    }

    /// Makes room for some items more.
    pub fn reserve(&mut self, count: usize) -> Result<(), NoMemory>
        ensures list { self.new.list ≡ self.old.list }
        ensures ok { OnOk result (count ≤ self.new.spare) }
    {
        self.items.reserve(count)
    }

    // Where the item stands, or where it would stand.
    fn place(&self, item: &T) -> Result<usize, usize>
        ensures range { IsSearchInRange result (length self.now.list) }
        ensures place { MatchResult result (StandsAt T.order item.now self.now.list) (IsMissingAt T.order item.now self.now.list) }
        ensures order { IsStrictlySortedBy T.order self.now.list }
    {
        self.as_slice()
            .binary_search_by(|other| other.compare(item))
    }

    /// Whether the item is in the set.
    pub fn has(&self, item: &T) -> bool
        ensures { result ≡ has T.same item.now self.now.list }
    {
        match self.place(item) {
            Ok(_) => true,
            Err(_) => false,
        }
    }

    // Puts the item between others, with which all are in order.
    fn insert(&mut self, at: usize, item: T)
        requires place { at ≤ length self.old.list }
        requires room { 0 < self.old.spare }
        requires order { IsStrictlySortedBy T.order (insert self.old.list at item) }
        ensures list { self.new.list ≡ insert self.old.list at item }
        ensures spare { self.old.spare ≤ self.new.spare + 1 }
    {
        self.items.insert(at, item).unwrap();
    }

    // Takes the item of a place away, without which all are in order.
    fn remove_at(&mut self, at: usize)
        requires within { at < length self.old.list }
        requires order { IsStrictlySortedBy T.order (remove_place self.old.list at) }
        ensures list { self.new.list ≡ remove_place self.old.list at }
        ensures spare { self.old.spare ≤ self.new.spare }
    {
        self.items.remove(at);
    }

    /// Puts the item into the set, if it isn't in it. Takes no memory.
    pub fn put(&mut self, item: T)
        requires { 0 < self.old.spare }
        ensures has { (x : _) → has T.same x self.new.list ≡ (T.same item x || has T.same x self.old.list) }
        ensures spare { self.old.spare ≤ self.new.spare + 1 }
    {
        match self.place(&item) {
            Ok(_) => {}
            Err(at) => self.insert(at, item),
        }
    }

    /// Takes the item out of the set, if it is in it.
    pub fn remove(&mut self, item: &T)
        ensures has { (x : _) → has T.same x self.new.list ≡ (has T.same x self.old.list && not (T.same item.now x)) }
        ensures spare { self.old.spare ≤ self.new.spare }
    {
        match self.place(item) {
            Ok(at) => self.remove_at(at),
            Err(_) => {}
        }
    }

    /// Puts the item into the set, for which room is made first.
    pub fn add(&mut self, item: T) -> Result<(), NoMemory>
        ensures { OnOk result ((x : _) → has T.same x self.new.list ≡ (T.same item x || has T.same x self.old.list)) }
    {
        self.reserve(1)?;
        self.put(item);
        Ok(())
    }
}

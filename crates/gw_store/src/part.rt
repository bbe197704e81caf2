//! One part of the index of the EndpointSlices by their Services.
ghost use Rattle.std.specs.Prelude.{◌≡◌, ◌<◌, ◌≤◌, Some, None, [], length, set, OnOk};
ghost use Rattle.std.specs.List.{insert, remove};
ghost use Rattle.std.specs.List.Sorted.{IsStrictlySortedBy};
ghost use Rattle.gw_store.specs.ByService as rules;

use crate::change::Change;
use crate::service_slice::{ServiceSlice, slice_digest};
use crate::table::Keyed;
use gw_objects::EndpointSlice;
use gw_text::NoMemory;
use std::alloc::Global;
use std::marker::Model;
use std::snapshot::Snapshot;

/// Slices in the order of the digests of their Services, and those of one digest in key order.
#[derive(Drop)]
pub struct Part {
    slices: Vec<ServiceSlice>,
}

impl Model for Part {
    ghost use Rattle.std.specs.Prelude.{◌-◌, vec_len, vec_capacity};
    ghost use Rattle.std.specs.List.Sorted.{IsStrictlySortedBy};
    ghost use Rattle.gw_store.specs.ByService.{Part as Plain, service_order};

    ghost Value = { Plain };

    ghost view = { λ b. record { slices = b.slices.items; spare = vec_capacity b.slices - vec_len b.slices } };

    ghost invariant = { λ b. IsStrictlySortedBy service_order b.slices.items };
}

/// What a put or a removal displaced, and where: what it takes to undo it, with no memory.
#[derive(Drop)]
pub struct PartChange {
    change: Change<ServiceSlice>,
    before: Snapshot<Part>,
    after: Snapshot<Part>,
}

impl Model for PartChange {
    ghost use Rattle.gw_store.specs.ByService.{IsPartChange, Part as Plain, Reindexing};
    ghost use Rattle.gw_store.specs.Changes.{there};

    ghost Value = { Reindexing Plain };

    ghost view = { λ c. record { before = c.before.value; after = c.after.value; put = there c.change.at c.change.has c.after.value.slices } };

    ghost invariant = { λ c. IsPartChange c.change.at c.change.had c.change.has c.before.value c.after.value };
}

impl Part {
    /// Holds no slices.
    pub fn new(alloc: Global) -> Self
        ensures { result.slices ≡ [] }
    {
        Part {
            slices: Vec::new(alloc),
        }
    }

    /// Makes room for one slice more.
    pub fn reserve(&mut self) -> Result<(), NoMemory>
        ensures slices { self.new.slices ≡ self.old.slices }
        ensures ok { OnOk result (0 < self.new.spare) }
    {
        self.slices.reserve(1)
    }

    /// Holds `slice`, in place of the one of its digest and key, if there is one.
    pub fn put(&mut self, slice: ServiceSlice) -> PartChange
        requires { 0 < self.old.spare }
        ensures slices { self.new.slices ≡ rules.put_slice slice self.old.slices }
        ensures change { result ≡ record { before = self.old; after = self.new; put = Some slice } }
    {
        let digest = slice.digest();
        let key = slice.key();
        let slices = self.slices.as_slice();
        match slices.binary_search_by(|other| other.compare(digest, key)) {
            Ok(at) => self.set(at, slice),
            Err(at) => self.insert(at, slice),
        }
    }

    /// Takes away the slice of the digest and key of this one, if there is one.
    pub fn remove(&mut self, slice: &EndpointSlice) -> PartChange
        ensures slices { self.new.slices ≡ rules.without slice.now self.old.slices }
        ensures spare { self.old.spare ≤ self.new.spare }
        ensures change { result ≡ record { before = self.old; after = self.new; put = None } }
    {
        let digest = slice_digest(slice);
        let key = slice.key();
        let slices = self.slices.as_slice();
        match slices.binary_search_by(|other| other.compare(digest, key)) {
            Ok(at) => self.remove_at(at),
            Err(_) => self.unchanged(),
        }
    }

    // Holds the slice in the place of another, with which all are in order.
    fn set(&mut self, at: usize, slice: ServiceSlice) -> PartChange
        requires within { at < length self.old.slices }
        requires order { IsStrictlySortedBy rules.service_order (set self.old.slices at slice) }
        ensures slices { self.new.slices ≡ set self.old.slices at slice }
        ensures change { result ≡ record { before = self.old; after = self.new; put = Some slice } }
    {
        let before = Snapshot::of(self);
        let change = Change::set(&mut self.slices, at, slice);
        PartChange {
            change,
            before,
            after: Snapshot::of(self),
        }
    }

    // Holds the slice between others, with which all are in order.
    fn insert(&mut self, at: usize, slice: ServiceSlice) -> PartChange
        requires place { at ≤ length self.old.slices }
        requires room { 0 < self.old.spare }
        requires order { IsStrictlySortedBy rules.service_order (insert self.old.slices at slice) }
        ensures slices { self.new.slices ≡ insert self.old.slices at slice }
        ensures change { result ≡ record { before = self.old; after = self.new; put = Some slice } }
    {
        let before = Snapshot::of(self);
        let change = Change::insert(&mut self.slices, at, slice);
        PartChange {
            change,
            before,
            after: Snapshot::of(self),
        }
    }

    // Takes the slice of a place away, without which all are in order.
    fn remove_at(&mut self, at: usize) -> PartChange
        requires within { at < length self.old.slices }
        requires order { IsStrictlySortedBy rules.service_order (remove self.old.slices at) }
        ensures slices { self.new.slices ≡ remove self.old.slices at }
        ensures spare { self.old.spare ≤ self.new.spare }
        ensures change { result ≡ record { before = self.old; after = self.new; put = None } }
    {
        let before = Snapshot::of(self);
        let change = Change::remove(&mut self.slices, at);
        PartChange {
            change,
            before,
            after: Snapshot::of(self),
        }
    }

    // No change.
    fn unchanged(&self) -> PartChange
        ensures { result ≡ record { before = self.now; after = self.now; put = None } }
    {
        let _ = &self.slices;
        PartChange {
            change: Change::nothing(),
            before: Snapshot::of(self),
            after: Snapshot::of(self),
        }
    }

    /// The part as it was before a put or a removal, which gives the slice up that it put.
    pub fn undo(&mut self, change: PartChange) -> Option<ServiceSlice>
        requires { self.old ≡ change.after }
        ensures part { self.new ≡ change.before }
        ensures put { result ≡ change.put }
    {
        let PartChange {
            change,
            before: _,
            after: _,
        } = change;
        change.undo(&mut self.slices)
    }

    /// The slices of the Services of this digest, in key order.
    pub fn of_digest(&self, digest: u64) -> &[ServiceSlice]
        ensures { result.now ≡ rules.of_digest digest self.now.slices }
    {
        let slices = self.slices.as_slice();
        let first = slices.partition_point(|slice| slice.digest() < digest);
        let rest = &slices[first..];
        let count = rest.partition_point(|slice| slice.digest() == digest);
        &rest[..count]
    }
}

//! The EndpointSlices by their Services, so that those of one are found without walking the others.
//! Services may share a digest, and the slices of all of these are found then.
ghost use Rattle.std.specs.Prelude.{◌≡◌, ◌<◌, ◌≤◌, Some, None, [], length, map, IfOk, OnOk};
ghost use Rattle.std.specs.List.{AllByRecursion};
ghost use Rattle.gw_store.specs.ByService as rules;

use crate::part::{Part, PartChange};
use crate::service_slice::{ServiceSlice, slice_digest};
use gw_objects::EndpointSlice;
use gw_text::NoMemory;
use std::alloc::Global;
use std::marker::Model;
use std::snapshot::Snapshot;

/// In how many parts the index is cut, so that a change moves few slices.
const PARTS: usize = 32;

/// The slices in the order of the digests of their Services, and those of one digest in key order.
#[derive(Drop)]
pub struct ByService {
    alloc: Global,
    /// None before there was to be room.
    parts: Vec<Part>,
}

impl Model for ByService {
    ghost use Rattle.gw_store.specs.ByService.{Index, IsParted, index_of};

    ghost Value = { Index };

    ghost view = { λ b. index_of b.parts.items };

    ghost invariant = { λ b. IsParted b.parts.items };
}

/// What a put or a removal displaced, and in which part: what it takes to undo it, with no memory.
#[derive(Drop)]
pub struct IndexChange {
    number: usize,
    change: Option<PartChange>,
    before: Snapshot<ByService>,
    after: Snapshot<ByService>,
}

impl Model for IndexChange {
    ghost use Rattle.gw_store.specs.ByService.{Index, IsIndexChange, Reindexing, put_by};

    ghost Value = { Reindexing Index };

    ghost view = { λ c. record { before = c.before.value; after = c.after.value; put = put_by c.change } };

    ghost invariant = { λ c. IsIndexChange c.number c.change c.before.value c.after.value };
}

impl ByService {
    /// Holds no slices.
    pub fn new(alloc: Global) -> Self
        ensures { result.slices ≡ [] }
    {
        ByService {
            alloc,
            parts: Vec::new(alloc),
        }
    }

    /// Makes room for one slice more.
    pub fn reserve(&mut self) -> Result<(), NoMemory>
        ensures slices { self.new.slices ≡ self.old.slices }
        ensures ok { OnOk result (0 < rules.least_spare self.new.spares) }
    {
        if self.parts.is_empty() {
            self.parts = empty_parts(self.alloc)?;
        }
        reserve_each(&mut self.parts)
    }

    /// Holds `slice`, in place of the one of its digest and key, if there is one.
    pub fn put(&mut self, slice: ServiceSlice) -> IndexChange
        requires { 0 < rules.least_spare self.old.spares }
        ensures slices { self.new.slices ≡ rules.put_slice slice self.old.slices }
        ensures change { result ≡ record { before = self.old; after = self.new; put = Some slice } }
    {
        let before = Snapshot::of(self);
        let number = part_number(slice.digest());
        let change = self.parts[number].put(slice);
        IndexChange {
            number,
            change: Some(change),
            before,
            after: Snapshot::of(self),
        }
    }

    /// Takes away the slice of the digest and key of this one, if there is one.
    pub fn remove(&mut self, slice: &EndpointSlice) -> IndexChange
        ensures slices { self.new.slices ≡ rules.without slice.now self.old.slices }
        ensures spare { rules.least_spare self.old.spares ≤ rules.least_spare self.new.spares }
        ensures change { result ≡ record { before = self.old; after = self.new; put = None } }
    {
        let number = part_number(slice_digest(slice));
        if self.parts.len() <= number {
            return self.unchanged();
        }
        let before = Snapshot::of(self);
        let change = self.parts[number].remove(slice);
        IndexChange {
            number,
            change: Some(change),
            before,
            after: Snapshot::of(self),
        }
    }

    // No change.
    fn unchanged(&self) -> IndexChange
        ensures { result ≡ record { before = self.now; after = self.now; put = None } }
    {
        let _ = &self.parts;
        IndexChange {
            number: 0,
            change: None,
            before: Snapshot::of(self),
            after: Snapshot::of(self),
        }
    }

    /// The index as it was before a put or a removal, which gives the slice up that it put.
    pub fn undo(&mut self, change: IndexChange) -> Option<ServiceSlice>
        requires { self.old ≡ change.after }
        ensures index { self.new ≡ change.before }
        ensures put { result ≡ change.put }
    {
        let IndexChange {
            number,
            change,
            before: _,
            after: _,
        } = change;
        let change = change?;
        self.parts[number].undo(change)
    }

    /// The slices of the Services of this digest, in key order.
    pub fn of_digest(&self, digest: u64) -> &[ServiceSlice]
        ensures { result.now ≡ rules.of_digest digest self.now.slices }
    {
        match self.parts.get(part_number(digest)) {
            Some(part) => part.of_digest(digest),
            None => &[],
        }
    }
}

// The number of the part for a digest: its five highest bits.
fn part_number(digest: u64) -> usize
    ensures value { result ≡ rules.part_number digest }
    ensures within { result < PARTS }
{
    (digest >> 59) as usize
}

// All parts, with no slices.
fn empty_parts(alloc: Global) -> Result<Vec<Part>, NoMemory>
    ensures count { IfOk result (λ parts. length parts.items ≡ PARTS) }
    ensures empty { IfOk result (λ parts. AllByRecursion (λ part. part.slices ≡ []) parts.items) }
{
    let mut parts = Vec::with_capacity(alloc, PARTS)?;
    'parts: while parts.len() < PARTS {
        parts.push(Part::new(alloc))?;
    }
    Ok(parts)
}

// Makes room for one slice more in each part.
fn reserve_each(parts: &mut Vec<Part>) -> Result<(), NoMemory>
    ensures slices { map (λ part. part.slices) parts.new.items ≡ map (λ part. part.slices) parts.old.items }
    ensures ok { OnOk result (AllByRecursion (λ part. 0 < part.spare) parts.new.items) }
{
    let mut number = 0;
    'parts: while number < parts.len() {
        parts[number].reserve()?;
        number += 1;
    }
    Ok(())
}

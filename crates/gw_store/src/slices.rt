//! The EndpointSlices that are held, and which of them are of a Service.
ghost use Rattle.std.specs.Prelude.{◌≡◌, ◌<◌, [], length, map, filter, is_some, IfOk, OnOk};
ghost use Rattle.gw_text.specs.model.References.{is_slice_of};
ghost use Rattle.gw_text.specs.model.Stored.{put, remove, stored_at, in_namespace, objects_of, IsInKeyOrder};
ghost use Rattle.gw_text.specs.model.World.{slice_key};
ghost use Rattle.gw_store.specs.ByService.{IsLeftBy, before_change, least_spare, put_by};

use crate::by_service::{ByService, IndexChange};
use crate::incoming::IncomingSlice;
use crate::service_slice::{ServiceSlice, service_digest, slice_digest};
use crate::table::{Displaced, Keyed, Table};
use gw_objects::EndpointSlice;
use gw_text::{Key, NoMemory, Second, Stored, Text};
use std::alloc::Global;
use std::marker::Model;
use std::snapshot::Snapshot;

/// The EndpointSlices in key order, of which those of a Service are found without walking the others.
#[derive(Drop)]
pub struct Slices {
    table: Table<EndpointSlice>,
    by_service: ByService,
}

impl Model for Slices {
    ghost use Rattle.gw_text.specs.model.Stored.{objects_of};
    ghost use Rattle.gw_store.specs.ByService.{IsIndexOf, Slices as Plain};

    ghost Value = { Plain };

    ghost view = { λ s. record { stored = s.table.stored; spare = s.table.spare; index = s.by_service } };

    ghost invariant = { λ s. IsIndexOf (objects_of s.table.stored) s.by_service.slices };
}

/// What a put or a removal of a slice displaced: what it takes to undo it, with no memory.
#[derive(Drop)]
pub struct DisplacedSlice {
    table: Displaced<EndpointSlice>,
    /// What left the index, where the slice that was held is of another Service or is removed.
    first: Option<IndexChange>,
    /// What entered it.
    second: Option<IndexChange>,
    before: Snapshot<Slices>,
    after: Snapshot<Slices>,
}

impl Model for DisplacedSlice {
    ghost use Rattle.gw_store.specs.ByService.{IsSliceChange, SliceChange};

    ghost Value = { SliceChange };

    ghost view = { λ d. record { before = d.before.value; after = d.after.value; put = d.table.put } };

    ghost invariant = { λ d. IsSliceChange d.table d.first d.second d.before.value d.after.value };
}

impl Slices {
    /// Holds nothing.
    pub fn new(alloc: Global) -> Self
        ensures { result.stored ≡ [] }
    {
        Slices {
            table: Table::new(alloc),
            by_service: ByService::new(alloc),
        }
    }

    /// Makes room for one slice more.
    pub fn reserve(&mut self) -> Result<(), NoMemory>
        ensures stored { self.new.stored ≡ self.old.stored }
        ensures slices { self.new.index.slices ≡ self.old.index.slices }
        ensures ok { OnOk result (0 < self.new.spare) }
        ensures index { OnOk result (0 < least_spare self.new.index.spares) }
    {
        self.table.reserve()?;
        self.by_service.reserve()
    }

    /// The slices in key order.
    pub fn objects(&self) -> &[Stored<EndpointSlice>]
        ensures value { result.now ≡ self.now.stored }
        ensures order { IsInKeyOrder slice_key result.now }
    {
        self.table.objects()
    }

    /// How many slices are held.
    pub fn len(&self) -> usize
        ensures { result ≡ length self.now.stored }
    {
        self.table.len()
    }

    /// Whether a slice is held under `key`.
    pub fn holds(&self, key: &Key) -> bool
        ensures { result ≡ is_some (stored_at slice_key key.now self.now.stored) }
    {
        self.table.holds(key)
    }

    /// Holds `slice` under its key, in place of the one that is held there, whose first moment stays.
    pub fn put(&mut self, slice: IncomingSlice, now: Second) -> DisplacedSlice
        requires spare { 0 < self.old.spare }
        requires index { 0 < least_spare self.old.index.spares }
        ensures stored { self.new.stored ≡ put slice_key slice now self.old.stored }
        ensures displaced { result ≡ record { before = self.old; after = self.new; put = Some slice } }
    {
        let before = Snapshot::of(self);
        let slices = self.table.objects();
        let first = match self.table.place_of(slice.key()) {
            Ok(at) => {
                // Most changes of a slice leave it to its Service.
                let held = &slices[at];
                if slice_digest(held) != slice.digest() {
                    Some(self.by_service.remove(held))
                } else {
                    None
                }
            }
            Err(_) => None,
        };
        let (slice, of_service) = slice.into_handles();
        let second = Some(self.by_service.put(of_service));
        let table = self.table.put(slice, now);
        DisplacedSlice {
            table,
            first,
            second,
            before,
            after: Snapshot::of(self),
        }
    }

    /// Takes away the slice of this key, if there is one.
    pub fn remove(&mut self, key: &Key) -> DisplacedSlice
        ensures stored { self.new.stored ≡ remove slice_key key.now self.old.stored }
        ensures displaced { result ≡ record { before = self.old; after = self.new; put = None } }
    {
        let before = Snapshot::of(self);
        let first = match self.table.place_of(key) {
            Ok(at) => Some(self.by_service.remove(&self.table.objects()[at])),
            Err(_) => None,
        };
        let table = self.table.remove(key);
        DisplacedSlice {
            table,
            first,
            second: None,
            before,
            after: Snapshot::of(self),
        }
    }

    /// The slices as they were before a put or a removal, which gives the slice up that it put.
    pub fn undo(&mut self, displaced: DisplacedSlice) -> Option<IncomingSlice>
        requires { self.old ≡ displaced.after }
        ensures slices { self.new ≡ displaced.before }
        ensures put { result ≡ displaced.put }
    {
        let DisplacedSlice {
            table,
            first,
            second,
            before: _,
            after: _,
        } = displaced;
        let of_service = undo_index(&mut self.by_service, second);
        undo_index(&mut self.by_service, first);
        let slice = self.table.undo(table);
        Some(IncomingSlice::of_handles(slice?, of_service?))
    }

    /// The slices of a namespace, in key order.
    pub fn in_namespace(&self, namespace: &Text) -> &[Stored<EndpointSlice>]
        ensures value { result.now ≡ in_namespace slice_key namespace.now self.now.stored }
        ensures order { IsInKeyOrder slice_key result.now }
    {
        self.table.in_namespace(namespace)
    }

    /// All slices of the Service of this key, in key order. There may be others among them, which no caller is to count.
    pub fn of_service(&self, alloc: Global, service: &Key) -> Result<Vec<&EndpointSlice>, NoMemory>
        ensures { IfOk result (λ slices. filter (is_slice_of service.now) (map (λ s. s.now) slices.items) ≡ filter (is_slice_of service.now) (objects_of self.now.stored)) }
    {
        let digest = service_digest(service.namespace.bytes(), service.name.bytes());
        plain(alloc, self.by_service.of_digest(digest))
    }
}

// The index before a change, which gives the slice up that it put, if there was one.
fn undo_index(index: &mut ByService, change: Option<IndexChange>) -> Option<ServiceSlice>
    requires { IsLeftBy change index.old }
    ensures index { index.new ≡ before_change change index.old }
    ensures put { result ≡ put_by change }
{
    index.undo(change?)
}

// The slices themselves.
fn plain(alloc: Global, slices: &[ServiceSlice]) -> Result<Vec<&EndpointSlice>, NoMemory>
    ensures { IfOk result (λ found. map (λ s. s.now) found.items ≡ slices.now) }
{
    let mut found = Vec::new(alloc);
    for slice in slices {
        let slice: &EndpointSlice = slice;
        found.push(slice)?;
    }
    Ok(found)
}

//! The buckets of a map.
ghost use Rattle.std.specs.Prelude.{◌≡◌, ◌<◌, ◌==◌, [], IfOk, OnOk, OnErr, length};
ghost use Rattle.std.specs.List.{list_all};
ghost use Rattle.gw_shared.specs.model.Buckets as rules;

use crate::bucket::{Bucket, own};
use crate::group::{Group, groups_of};
use crate::shared::Shared;
use crate::slot::Slot;
use crate::spliced::all_handles;
use gw_text::NoMemory;
use std::alloc::Global;
use std::marker::Model;

/// How many buckets a group has at most.
const MOST_IN_GROUP: usize = 32;

/// The buckets of a map, in groups of one width. A copy shares the groups in which it doesn't differ.
#[derive(Drop)]
pub(crate) struct Buckets<V: Drop> {
    groups: Vec<Shared<Group<V>>>,
    width: usize,
    count: usize,
}

impl<V: Drop> Model for Buckets<V> {
    ghost use Rattle.std.specs.Prelude.{◌≡◌, ◌<◌, List, length};
    ghost use Rattle.std.specs.List.{All};
    ghost use Rattle.gw_shared.specs.Sharing.{elements_of};
    ghost use Rattle.gw_shared.specs.model.Entries.{Entry};

    ghost Value = { List (List (Entry V)) };

    ghost view = { λ b. elements_of b.groups.items };

    ghost invariant = { λ b. (0 < b.width) × (All (λ g. length g ≡ b.width) b.groups.items × (b.count ≡ length (elements_of b.groups.items))) };
}

// Whether nothing stands in any of these groups.
fn groups_are_empty<V: Drop>(groups: &[Shared<Group<V>>]) -> bool
    ensures { result ≡ list_all (λ group. list_all (λ b. length b == 0) group) groups.now }
{
    groups.iter().all(|group| group.is_empty())
}

impl<V: Drop> Buckets<V> {
    /// No buckets, which take no memory.
    pub(crate) fn new(alloc: Global) -> Self
        ensures { result ≡ [] }
    {
        Buckets {
            groups: Vec::new(alloc),
            width: 1,
            count: 0,
        }
    }

    // These buckets, in groups.
    fn from_vec(alloc: Global, buckets: Vec<Shared<Bucket<V>>>) -> Result<Self, NoMemory>
        ensures { IfOk result (λ all. all ≡ buckets.items) }
    {
        let count = buckets.len();
        let width = count.clamp(1, MOST_IN_GROUP);
        let groups = groups_of(alloc, buckets, width)?;
        Ok(Buckets {
            groups,
            width,
            count,
        })
    }

    /// How many there are. They aren't counted anew.
    pub(crate) fn len(&self) -> usize
        ensures { result ≡ length self.now }
    {
        self.count
    }

    /// The bucket in which the slots of a hash stand; where there are no buckets, an empty one.
    pub(crate) fn bucket_of(&self, hash: u64) -> &[Slot<V>]
        ensures { result.now ≡ rules.bucket_of hash self.now }
    {
        if self.count == 0 {
            return &[];
        }
        let place = hash as usize % self.count;
        match self.groups.get(place / self.width) {
            Some(group) => group.bucket(place % self.width),
            None => &[],
        }
    }

    /// Whether nothing stands in any of them.
    pub(crate) fn are_empty(&self) -> bool
        ensures { result ≡ list_all (λ b. length b == 0) self.now }
    {
        groups_are_empty(self.groups.as_slice())
    }

    /// A copy, which shares all groups: it takes a handle on each.
    pub(crate) fn share(&self, alloc: Global) -> Result<Self, NoMemory>
        ensures { IfOk result (λ copy. copy ≡ self.now) }
    {
        Ok(Buckets {
            groups: all_handles(alloc, self.groups.as_slice())?,
            width: self.width,
            count: self.count,
        })
    }

    /// Puts these slots into the bucket in which those of a hash stand. Only that bucket's group is another one afterwards, and copies keep
    /// the former.
    pub(crate) fn put_bucket(
        &mut self,
        alloc: Global,
        hash: u64,
        slots: Vec<Slot<V>>,
    ) -> Result<(), NoMemory>
        requires { 0 < length self.old }
        ensures set { OnOk result (self.new ≡ rules.with_bucket hash slots.items self.old) }
        ensures kept { OnErr result (self.new ≡ self.old) }
    {
        let bucket = Shared::new(alloc, Bucket::new(slots))?;
        let place = hash as usize % self.count;
        let at = place / self.width;
        let group = self.groups[at].with_bucket(alloc, place % self.width, bucket)?;
        self.groups[at] = group;
        Ok(())
    }

    // The bucket of one place, where the buckets are so many.
    fn part(&self, alloc: Global, number: u64, place: u64) -> Result<Shared<Bucket<V>>, NoMemory>
        requires { 0 < number }
        ensures { IfOk result (λ bucket. bucket ≡ rules.part_of number self.now place) }
    {
        let slots = own(alloc, self.bucket_of(place), number, place)?;
        Shared::new(alloc, Bucket::new(slots))
    }

    /// The same slots in so many buckets.
    pub(crate) fn spread(&self, alloc: Global, number: u64) -> Result<Self, NoMemory>
        ensures { IfOk result (λ spread. spread ≡ rules.spread number self.now) }
    {
        let mut spread = Vec::new(alloc);
        'places: for place in 0..number {
            spread.push(self.part(alloc, number, place)?)?;
        }
        Buckets::from_vec(alloc, spread)
    }
}

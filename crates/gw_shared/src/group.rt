//! What is done with one group of buckets, and how buckets are put into groups.
ghost use Rattle.std.specs.Prelude.{◌≡◌, ◌<◌, ◌==◌, ◌∷◌, [], ◌++◌, IfOk, OnOk, get_or, length, slice_set};
ghost use Rattle.std.specs.List.{All, list_all};
ghost use Rattle.gw_shared.specs.Sharing.{elements_of};

use crate::bucket::Bucket;
use crate::shared::Shared;
use crate::slot::Slot;
use crate::spliced::handles_with;
use gw_text::NoMemory;
use std::alloc::Global;
use std::marker::Model;
use std::mem;

/// Buckets that stand one behind another.
#[derive(Drop)]
pub(crate) struct Group<V: Drop> {
    buckets: Vec<Shared<Bucket<V>>>,
}

impl<V: Drop> Model for Group<V> {
    ghost use Rattle.std.specs.Prelude.{List};
    ghost use Rattle.gw_shared.specs.model.Entries.{Entry};

    ghost Value = { List (List (Entry V)) };

    ghost view = { λ g. g.buckets.items };
}

impl<V: Drop> Group<V> {
    // These buckets, behind a handle.
    fn new(alloc: Global, buckets: Vec<Shared<Bucket<V>>>) -> Result<Shared<Self>, NoMemory>
        ensures { IfOk result (λ group. group ≡ buckets.items) }
    {
        Shared::new(alloc, Group { buckets })
    }

    /// What stands in the bucket of this place; where there is none, nothing.
    pub(crate) fn bucket(&self, at: usize) -> &[Slot<V>]
        ensures { result.now ≡ get_or self.now at [] }
    {
        match self.buckets.get(at) {
            Some(bucket) => bucket.as_slice(),
            None => &[],
        }
    }

    /// Whether nothing stands in any bucket.
    pub(crate) fn is_empty(&self) -> bool
        ensures { result ≡ list_all (λ b. length b == 0) self.now }
    {
        self.buckets
            .iter()
            .all(|bucket| bucket.as_slice().is_empty())
    }

    /// A copy with this bucket in place of the one of this place. It shares all the others.
    pub(crate) fn with_bucket(
        &self,
        alloc: Global,
        at: usize,
        bucket: Shared<Bucket<V>>,
    ) -> Result<Shared<Self>, NoMemory>
        requires { at < length self.now }
        ensures { IfOk result (λ changed. changed ≡ slice_set self.now at bucket) }
    {
        Group::new(
            alloc,
            handles_with(alloc, self.buckets.as_slice(), at, bucket)?,
        )
    }
}

// Puts this bucket at the end: into the group that grows, which goes behind the others once it has this width.
fn push_growing<V: Drop>(
    alloc: Global,
    kept: &mut Vec<Shared<Group<V>>>,
    growing: &mut Vec<Shared<Bucket<V>>>,
    width: usize,
    bucket: Shared<Bucket<V>>,
) -> Result<(), NoMemory>
    ensures whole { OnOk result (elements_of kept.new.items ++ growing.new.items ≡ (elements_of kept.old.items ++ growing.old.items) ++ bucket ∷ []) }
    ensures wide { OnOk result (All (λ g. length g ≡ width) kept.old.items → All (λ g. length g ≡ width) kept.new.items) }
{
    growing.push(bucket)?;
    if growing.len() != width {
        return Ok(());
    }
    let full = mem::replace(growing, Vec::new(alloc));
    kept.push(Group::new(alloc, full)?)?;
    Ok(())
}

/// These buckets in groups of this width; where some are left, none, as where memory is wanted.
pub(crate) fn groups_of<V: Drop>(
    alloc: Global,
    buckets: Vec<Shared<Bucket<V>>>,
    width: usize,
) -> Result<Vec<Shared<Group<V>>>, NoMemory>
    ensures whole { IfOk result (λ groups. elements_of groups.items ≡ buckets.items) }
    ensures wide { IfOk result (λ groups. All (λ g. length g ≡ width) groups.items) }
{
    let mut groups = Vec::new(alloc);
    let mut growing = Vec::new(alloc);
    'buckets: for bucket in buckets {
        push_growing(alloc, &mut groups, &mut growing, width, bucket)?;
    }
    // This doesn't come: there are 1, 4 or 16 buckets, all in one group, or a multiple of 32.
    if !growing.is_empty() {
        return Err(NoMemory);
    }
    Ok(groups)
}

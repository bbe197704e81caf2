//! The list.
ghost use Rattle.std.specs.Prelude.{◌≡◌, ◌+◌, ◌<◌, ◌≤◌, ◌++◌, ◌∷◌, [], IfOk, OnOk, OnErr, length, take, drop, slice_get, option_copied, option_to_list};
ghost use Rattle.gw_shared.specs.model.Elements as elements;

use crate::branch::Branch;
use crate::part::{Part, piece_of, replace_in};
use crate::shared::Shared;
use crate::spliced::all_handles;
use gw_text::NoMemory;
use std::alloc::Global;
use std::marker::Model;

/// A list, whose elements stand in leaves, and these in branches. Its copies share the branches and leaves in which they don't differ.
pub struct SharedList<T: Drop> {
    branches: Vec<Branch<T>>,
    count: usize,
}

impl<T: Drop> Model for SharedList<T> {
    ghost use Rattle.std.specs.Prelude.{◌≡◌, List, length};
    ghost use Rattle.gw_shared.specs.Sharing.{elements_of};

    ghost Value = { List T };

    ghost view = { λ l. elements_of l.branches.items };

    ghost invariant = { λ l. l.count ≡ length (elements_of l.branches.items) };
}

// Written out, so that crates above don't prove anew how its parts are dropped.
impl<T: Drop> Drop for SharedList<T> {
    fn drop(self) {
        let SharedList {
            branches: _,
            count: _,
        } = self;
    }
}

impl<T: Drop> SharedList<T> {
    /// A list with nothing in it, which takes no memory.
    pub fn new(alloc: Global) -> Self
        ensures { result ≡ [] }
    {
        SharedList {
            branches: Vec::new(alloc),
            count: 0,
        }
    }

    /// A list of these elements, in as few leaves as there can be.
    pub fn from_vec(alloc: Global, items: Vec<Shared<T>>) -> Result<Self, NoMemory>
        ensures { IfOk result (λ list. list ≡ items.items) }
    {
        let count = items.len();
        let branches = Branch::parts_of(alloc, items)?;
        Ok(SharedList { branches, count })
    }

    /// How many elements it has. They aren't counted anew.
    pub fn len(&self) -> usize
        ensures { result ≡ length self.now }
    {
        self.count
    }

    /// The elements from this place on as far as they stand in one leaf, found by a walk over the branches, and then over the leaves of one.
    /// Whoever adds the piece's length to the place finds the next piece there.
    pub fn piece(&self, at: usize) -> &[Shared<T>]
        ensures part { result.now ≡ take (length result.now) (drop at self.now) }
        ensures some { at < length self.now → 0 < length result.now }
    {
        if at >= self.count {
            return &[];
        }
        piece_of(self.branches.as_slice(), at)
    }

    /// The handle on the element of this place, found as `piece` finds it.
    pub fn handle(&self, at: usize) -> Option<&Shared<T>>
        ensures { option_copied result ≡ slice_get self.now at }
    {
        self.piece(at).first()
    }

    /// The element of this place, found as `piece` finds it.
    pub fn get(&self, at: usize) -> Option<&T>
        ensures { option_copied result ≡ slice_get self.now at }
    {
        let handle = self.handle(at)?;
        Some(handle)
    }

    /// A copy, which shares all leaves: it takes a handle on each branch.
    pub fn share(&self, alloc: Global) -> Result<Self, NoMemory>
        ensures { IfOk result (λ copy. copy ≡ self.now) }
    {
        Ok(SharedList {
            branches: all_handles(alloc, self.branches.as_slice())?,
            count: self.count,
        })
    }

    // Puts this element, if there is one, in place of so many from a place on. Where memory is wanted, all is as it was.
    fn replace(
        &mut self,
        alloc: Global,
        at: usize,
        count: usize,
        value: Option<Shared<T>>,
    ) -> Result<(), NoMemory>
        requires few { count ≤ 1 }
        requires within { at + count ≤ length self.old }
        ensures replaced { OnOk result (self.new ≡ elements.replaced at count (option_to_list value) self.old) }
        ensures kept { OnErr result (self.new ≡ self.old) }
    {
        let added = usize::from(value.is_some());
        let Some(number) = (self.count - count).checked_add(added) else {
            return Err(NoMemory);
        };
        replace_in(alloc, &mut self.branches, at, count, value)?;
        self.count = number;
        Ok(())
    }

    /// Puts this element in place of the one of this place. Copies keep the former one, and share all leaves and branches but those of that
    /// place. Where memory is wanted, all is as it was.
    pub fn put(&mut self, alloc: Global, at: usize, value: Shared<T>) -> Result<(), NoMemory>
        requires { at < length self.old }
        ensures put { OnOk result (self.new ≡ take at self.old ++ value ∷ drop (at + 1) self.old) }
        ensures kept { OnErr result (self.new ≡ self.old) }
    {
        self.replace(alloc, at, 1, Some(value))
    }

    /// Puts this element before the one of this place, or at the end. Copies stay without it, and share all leaves and branches but those of
    /// that place. Where memory is wanted, all is as it was.
    pub fn insert(&mut self, alloc: Global, at: usize, value: Shared<T>) -> Result<(), NoMemory>
        requires { at ≤ length self.old }
        ensures inserted { OnOk result (self.new ≡ take at self.old ++ value ∷ drop at self.old) }
        ensures kept { OnErr result (self.new ≡ self.old) }
    {
        self.replace(alloc, at, 0, Some(value))
    }

    /// Takes out the element of this place. Copies keep it, and share all leaves and branches but those of that place. Where memory is wanted,
    /// all is as it was.
    pub fn remove(&mut self, alloc: Global, at: usize) -> Result<(), NoMemory>
        requires { at < length self.old }
        ensures removed { OnOk result (self.new ≡ take at self.old ++ drop (at + 1) self.old) }
        ensures kept { OnErr result (self.new ≡ self.old) }
    {
        self.replace(alloc, at, 1, None)
    }
}

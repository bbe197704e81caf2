//! Branches.
ghost use Rattle.std.specs.Prelude.{◌≡◌, ◌+◌, ◌≤◌, IfOk, IfSome, length, option_to_list};
ghost use Rattle.gw_shared.specs.Sharing.{elements_of};
ghost use Rattle.gw_shared.specs.model.Elements as elements;

use crate::cut::pieces_of;
use crate::handle::Handle;
use crate::leaf::Leaf;
use crate::part::{Part, piece_of, replace_in};
use crate::shared::Shared;
use crate::spliced::all_handles;
use gw_text::NoMemory;
use std::alloc::Global;
use std::marker::Model;

/// A handle on some leaves, beside the number of their elements.
#[derive(Drop)]
pub(crate) struct Branch<T: Drop> {
    leaves: Shared<Vec<Leaf<T>>>,
    count: usize,
}

impl<T: Drop> Model for Branch<T> {
    ghost use Rattle.std.specs.Prelude.{◌≡◌, List, length};
    ghost use Rattle.gw_shared.specs.Sharing.{elements_of};

    ghost Value = { List T };

    ghost view = { λ b. elements_of b.leaves.items };

    ghost invariant = { λ b. b.count ≡ length (elements_of b.leaves.items) };
}

// How many elements stand in these leaves.
fn count_of<T: Drop>(leaves: &[Leaf<T>]) -> Option<usize>
    ensures { IfSome result (λ count. count ≡ length (elements_of leaves.now)) }
{
    let mut count = 0usize;
    'leaves: for leaf in leaves {
        count = count.checked_add(leaf.len())?;
    }
    Some(count)
}

impl<T: Drop> Branch<T> {
    // That of these leaves.
    fn new(alloc: Global, leaves: Vec<Leaf<T>>) -> Result<Self, NoMemory>
        ensures { IfOk result (λ branch. branch ≡ elements_of leaves.items) }
    {
        let Some(count) = count_of(leaves.as_slice()) else {
            return Err(NoMemory);
        };
        let leaves = Shared::new(alloc, leaves)?;
        Ok(Branch { leaves, count })
    }
}

// These leaves in as few branches as there can be.
fn branches_of<T: Drop>(alloc: Global, leaves: Vec<Leaf<T>>) -> Result<Vec<Branch<T>>, NoMemory>
    ensures { IfOk result (λ branches. elements_of branches.items ≡ elements_of leaves.items) }
{
    let mut branches = Vec::new(alloc);
    'pieces: for piece in pieces_of(alloc, leaves)? {
        branches.push(Branch::new(alloc, piece)?)?;
    }
    Ok(branches)
}

impl<T: Drop> Handle for Branch<T> {
    fn one_more(&self) -> Result<Self, NoMemory> {
        Ok(Branch {
            leaves: self.leaves.share()?,
            count: self.count,
        })
    }
}

impl<T: Drop> Part<T> for Branch<T> {
    ghost elements = { λ branch. branch };

    fn parts_of(alloc: Global, items: Vec<Shared<T>>) -> Result<Vec<Self>, NoMemory>
        ensures { IfOk result (λ parts. elements_of parts.items ≡ items.items) }
    {
        branches_of(alloc, Leaf::parts_of(alloc, items)?)
    }

    fn len(&self) -> usize {
        self.count
    }

    fn piece(&self, at: usize) -> &[Shared<T>] {
        piece_of(self.leaves.as_slice(), at)
    }

    fn replaced(
        &self,
        alloc: Global,
        at: usize,
        count: usize,
        value: Option<Shared<T>>,
    ) -> Result<Vec<Self>, NoMemory>
        requires few { count ≤ 1 }
        requires within { at + count ≤ length self.now }
        ensures { IfOk result (λ parts. elements_of parts.items ≡ elements.replaced at count (option_to_list value) self.now) }
    {
        let mut leaves = all_handles(alloc, self.leaves.as_slice())?;
        replace_in(alloc, &mut leaves, at, count, value)?;
        branches_of(alloc, leaves)
    }
}

//! Leaves.
ghost use Rattle.std.specs.Prelude.{◌≡◌, ◌+◌, ◌≤◌, IfOk, length, option_to_list};
ghost use Rattle.gw_shared.specs.Sharing.{elements_of};
ghost use Rattle.gw_shared.specs.model.Elements as elements;

use crate::cut::pieces_of;
use crate::handle::Handle;
use crate::part::Part;
use crate::shared::Shared;
use crate::spliced::{one_or_none, spliced};
use gw_text::NoMemory;
use std::alloc::Global;
use std::marker::Model;

/// A handle on some elements, beside their number.
#[derive(Drop)]
pub(crate) struct Leaf<T: Drop> {
    handles: Shared<Vec<Shared<T>>>,
    count: usize,
}

impl<T: Drop> Model for Leaf<T> {
    ghost use Rattle.std.specs.Prelude.{◌≡◌, List, length};

    ghost Value = { List T };

    ghost view = { λ l. l.handles.items };

    ghost invariant = { λ l. l.count ≡ length l.handles.items };
}

impl<T: Drop> Leaf<T> {
    // That of these elements.
    fn new(alloc: Global, handles: Vec<Shared<T>>) -> Result<Self, NoMemory>
        ensures { IfOk result (λ leaf. leaf ≡ handles.items) }
    {
        let count = handles.len();
        let handles = Shared::new(alloc, handles)?;
        Ok(Leaf { handles, count })
    }
}

impl<T: Drop> Handle for Leaf<T> {
    fn one_more(&self) -> Result<Self, NoMemory> {
        Ok(Leaf {
            handles: self.handles.share()?,
            count: self.count,
        })
    }
}

impl<T: Drop> Part<T> for Leaf<T> {
    ghost elements = { λ leaf. leaf };

    fn parts_of(alloc: Global, items: Vec<Shared<T>>) -> Result<Vec<Self>, NoMemory>
        ensures { IfOk result (λ parts. elements_of parts.items ≡ items.items) }
    {
        let mut leaves = Vec::new(alloc);
        'pieces: for piece in pieces_of(alloc, items)? {
            leaves.push(Leaf::new(alloc, piece)?)?;
        }
        Ok(leaves)
    }

    fn len(&self) -> usize {
        self.count
    }

    fn piece(&self, at: usize) -> &[Shared<T>] {
        &self.handles[at..]
    }

    fn replaced(
        &self,
        alloc: Global,
        at: usize,
        count: usize,
        value: Option<Shared<T>>,
    ) -> Result<Vec<Self>, NoMemory>
        requires few { count ≤ 1 }
        requires within { at + count ≤ length self.now }
        ensures { IfOk result (λ parts. elements_of parts.items ≡ elements.replaced at count (option_to_list value) self.now) }
    {
        let value = one_or_none(alloc, value)?;
        let handles = spliced(alloc, self.handles.as_slice(), at, count, value)?;
        Leaf::parts_of(alloc, handles)
    }
}

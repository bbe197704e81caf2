//! Elements in parts that stand one behind another.
ghost use Rattle.std.specs.Prelude.{◌≡◌, ◌+◌, ◌<◌, ◌≤◌, IfOk, OnOk, OnErr, MatchResult, length, take, drop, get_or, option_to_list};
ghost use Rattle.std.specs.List.{flat_map};
ghost use Rattle.gw_shared.specs.model.Elements as elements;

use crate::handle::Handle;
use crate::shared::Shared;
use crate::spliced::{one_or_none, spliced};
use gw_text::NoMemory;
use std::alloc::Global;

/// Some elements that stand one behind another: those of a leaf, or of a branch.
pub(crate) trait Part<T: Drop> {
    ghost use Rattle.std.specs.Prelude.{◌≡◌, ◌+◌, ◌<◌, ◌≤◌, List, IfOk, length, take, drop, option_to_list};
    ghost use Rattle.std.specs.List.{flat_map};
    ghost use Rattle.gw_shared.specs.model.Elements.{replaced as changed};

    /// The elements.
    ghost elements: { Self → List T };

    /// These elements in as few parts as there can be.
    fn parts_of(alloc: Global, items: Vec<Shared<T>>) -> Result<Vec<Self>, NoMemory>
        ensures { IfOk result (λ parts. flat_map elements parts.items ≡ items.items) };

    /// How many elements it has. They aren't counted anew.
    fn len(&self) -> usize
        ensures { result ≡ length (elements self.now) };

    /// The elements from this place on as far as they stand in one leaf.
    fn piece(&self, at: usize) -> &[Shared<T>]
        requires { at < length (elements self.now) }
        ensures part { result.now ≡ take (length result.now) (drop at (elements self.now)) }
        ensures some { 0 < length result.now };

    /// Its elements with this one, if there is one, in place of so many from a place on.
    fn replaced(
        &self,
        alloc: Global,
        at: usize,
        count: usize,
        value: Option<Shared<T>>,
    ) -> Result<Vec<Self>, NoMemory>
        requires few { count ≤ 1 }
        requires within { at + count ≤ length (elements self.now) }
        ensures { IfOk result (λ parts. flat_map elements parts.items ≡ changed at count (option_to_list value) (elements self.now)) };
}

/// A place in a part: the number of the part, the part, and the place among its elements.
#[derive(Drop)]
struct Place<'p, X: Drop> {
    index: usize,
    own: &'p X,
    at: usize,
}

// The place from which on so many elements, none or one, stand in one part; or how far behind all elements it is.
fn place_in<T: Drop, X: Part<T> + Drop>(
    parts: &[X],
    at: usize,
    count: usize,
) -> Result<Place<'_, X>, usize>
    requires { count ≤ 1 }
    ensures { MatchResult result
        (λ p. (p.index < length parts.now) × (p.own.now ≡ get_or parts.now p.index p.own.now)
        × (at ≡ length (flat_map X.elements (take p.index parts.now)) + p.at) × (p.at + count ≤ length (X.elements p.own.now)))
        (λ rest. at ≡ length (flat_map X.elements parts.now) + rest) }
{
    let mut rest = at;
    'parts: for (index, own) in parts.iter().enumerate() {
        let length = own.len();
        if rest <= length && count <= length - rest {
            return Ok(Place {
                index,
                own,
                at: rest,
            });
        }
        rest -= length;
    }
    Err(rest)
}

/// The elements from this place on as far as they stand in one leaf.
pub(crate) fn piece_of<T: Drop, X: Part<T> + Drop>(parts: &[X], at: usize) -> &[Shared<T>]
    requires { at < length (flat_map X.elements parts.now) }
    ensures part { result.now ≡ take (length result.now) (drop at (flat_map X.elements parts.now)) }
    ensures some { 0 < length result.now }
{
    match place_in(parts, at, 1) {
        Ok(place) => place.own.piece(place.at),
        Err(_) => &[],
    }
}

// Puts these parts in place of the one of this place. Where memory is wanted, all is as it was.
fn put_parts<X: Handle + Drop>(
    alloc: Global,
    parts: &mut Vec<X>,
    at: usize,
    mut others: Vec<X>,
) -> Result<(), NoMemory>
    requires { at < length parts.old.items }
    ensures put { OnOk result (parts.new.items ≡ elements.replaced at 1 others.items parts.old.items) }
    ensures kept { OnErr result (parts.new.items ≡ parts.old.items) }
{
    if others.len() == 1 {
        parts[at] = others.remove(0);
        return Ok(());
    }
    *parts = spliced(alloc, parts.as_slice(), at, 1, others)?;
    Ok(())
}

/// Puts this element, if there is one, in place of so many from a place on. All parts but that one stay; where memory is wanted, all do.
pub(crate) fn replace_in<T: Drop, X: Part<T> + Handle + Drop>(
    alloc: Global,
    parts: &mut Vec<X>,
    at: usize,
    count: usize,
    value: Option<Shared<T>>,
) -> Result<(), NoMemory>
    requires few { count ≤ 1 }
    requires within { at + count ≤ length (flat_map X.elements parts.old.items) }
    ensures replaced { OnOk result (flat_map X.elements parts.new.items ≡ elements.replaced at count (option_to_list value) (flat_map X.elements parts.old.items)) }
    ensures kept { OnErr result (parts.new.items ≡ parts.old.items) }
{
    match place_in(parts.as_slice(), at, count) {
        Ok(place) => {
            let index = place.index;
            let own = place.own.replaced(alloc, place.at, count, value)?;
            put_parts(alloc, parts, index, own)?;
            Ok(())
        }
        Err(_) => {
            let mut last = X::parts_of(alloc, one_or_none(alloc, value)?)?;
            parts.append(&mut last)?;
            Ok(())
        }
    }
}

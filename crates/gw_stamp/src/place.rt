//! Where a name stands among what is kept.
ghost use Rattle.std.specs.Prelude.{◌≡◌, ◌<◌, MatchResult, get_or, length};
ghost use Rattle.std.specs.List.Sorted.{IsSearchInRange};
ghost use Rattle.gw_store.proofs.InOrder.{IsMissingAt, StandsAt};
ghost use Rattle.gw_stamp.specs.Entries.{IsInOrder, entry_of, entry_order};

use crate::entry::Entry;
use crate::name::CondName;
use gw_shared::SharedList;
use std::cmp::Ordering;

/// What stands at this place.
pub(crate) fn entry_at(list: &SharedList<Entry>, at: usize) -> &Entry
    requires { at < length list.now }
    ensures { (d : _) → result.now ≡ get_or list.now at d }
{
    list.get(at).unwrap()
}

/// The place of a name, or else the one before which it would stand.
pub(crate) fn place_in(list: &SharedList<Entry>, name: &CondName) -> Result<usize, usize>
    requires { IsInOrder list.now }
    ensures range { IsSearchInRange result (length list.now) }
    ensures place { MatchResult result (StandsAt entry_order (entry_of name.now) list.now) (IsMissingAt entry_order (entry_of name.now) list.now) }
{
    let mut low = 0;
    let mut high = list.len();
    'halves: while low < high {
        let middle = low + (high - low) / 2;
        match entry_at(list, middle).name.compare(name) {
            Ordering::Less => low = middle + 1,
            Ordering::Equal => return Ok(middle),
            Ordering::Greater => high = middle,
        }
    }
    Err(low)
}

/// The place of a name, which is looked for at this place first.
pub(crate) fn place_from(
    list: &SharedList<Entry>,
    name: &CondName,
    at: usize,
) -> Result<usize, usize>
    requires { IsInOrder list.now }
    ensures range { IsSearchInRange result (length list.now) }
    ensures place { MatchResult result (StandsAt entry_order (entry_of name.now) list.now) (IsMissingAt entry_order (entry_of name.now) list.now) }
{
    if at < list.len() {
        if let Ordering::Equal = entry_at(list, at).name.compare(name) {
            return Ok(at);
        }
    }
    place_in(list, name)
}

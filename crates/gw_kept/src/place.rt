//! Where a key stands among what is kept.
ghost use Rattle.std.specs.Prelude.{◌≡◌, ◌<◌, length, get_or};
ghost use Rattle.gw_kept.specs.Places.{IsInOrder, IsPlaceOf};

use crate::kept::Kept;
use gw_shared::SharedList;
use gw_text::Key;
use std::cmp::Ordering;

/// A place in a list that stands in the order of keys.
#[derive(Clone, Copy)]
pub struct Place {
    pub at: usize,
    /// Whether what stands there has the key.
    pub is_taken: bool,
}

/// The item of this place.
pub(crate) fn item_at<T: Drop>(list: &SharedList<T>, at: usize) -> &T
    requires { at < length list.now }
    ensures { (d : T) → result.now ≡ get_or list.now at d }
{
    list.get(at).unwrap()
}

/// The place of a key: that of what has it, or else the one before which such a thing would stand.
pub fn place_in<T: Kept + Drop>(list: &SharedList<T>, key: &Key) -> Place
    requires { IsInOrder T.key_of list.now }
    ensures { IsPlaceOf T.key_of key.now list.now result }
{
    let key = key.formed();
    let mut low = 0;
    let mut high = list.len();
    'halves: while low < high {
        let middle = low + (high - low) / 2;
        match item_at(list, middle).key().compare(key) {
            Ordering::Less => low = middle + 1,
            Ordering::Equal => {
                return Place {
                    at: middle,
                    is_taken: true,
                };
            }
            Ordering::Greater => high = middle,
        }
    }
    Place {
        at: low,
        is_taken: false,
    }
}

//! Lists in which what is kept under one key comes, goes, or gives way.
ghost use Rattle.std.specs.Prelude.{◌≡◌, ◌≤◌, IfOk, IfSome, length, option_to_list, if◌then◌else◌};
ghost use Rattle.gw_kept.specs.Places as rules;
ghost use Rattle.gw_text.specs.model.Names.{Key as PlainKey, same_key};

use crate::kept::Kept;
use crate::place::{Place, place_in};
use gw_shared::{Shared, SharedList};
use gw_text::{Key, NoMemory};
use std::alloc::Global;

// The list with this one at the place.
fn with_one<T: Drop>(
    alloc: Global,
    mut list: SharedList<T>,
    place: Place,
    value: Shared<T>,
) -> Result<SharedList<T>, NoMemory>
    requires { rules.behind place ≤ length list }
    ensures { IfOk result (λ changed. changed ≡ rules.with_at place (option_to_list (Some value)) list) }
{
    if place.is_taken {
        list.put(alloc, place.at, value)?;
        return Ok(list);
    }
    list.insert(alloc, place.at, value)?;
    Ok(list)
}

// The list without what stands at the place.
fn with_none<T: Drop>(
    alloc: Global,
    mut list: SharedList<T>,
    place: Place,
) -> Result<SharedList<T>, NoMemory>
    requires { rules.behind place ≤ length list }
    ensures { IfOk result (λ changed. changed ≡ rules.with_at place (option_to_list None) list) }
{
    if place.is_taken {
        list.remove(alloc, place.at)?;
    }
    Ok(list)
}

/// The list with this at the place, in place of what stands there if it is taken.
pub fn with_at<T: Drop>(
    alloc: Global,
    list: SharedList<T>,
    place: Place,
    value: Option<Shared<T>>,
) -> Result<SharedList<T>, NoMemory>
    requires { rules.behind place ≤ length list }
    ensures { IfOk result (λ changed. changed ≡ rules.with_at place (option_to_list value) list) }
{
    match value {
        Some(value) => with_one(alloc, list, place, value),
        None => with_none(alloc, list, place),
    }
}

/// The list with this under the key, and nothing else there.
pub fn replaced<T: Kept + Drop>(
    alloc: Global,
    list: SharedList<T>,
    key: &Key,
    value: Option<Shared<T>>,
) -> Result<SharedList<T>, NoMemory>
    requires order { rules.IsInOrder T.key_of list }
    requires own { IfSome value (λ x. T.key_of x ≡ key.now) }
    ensures order { IfOk result (λ changed. rules.IsInOrder T.key_of changed) }
    ensures found { IfOk result (λ changed. (k : PlainKey) → rules.kept_at T.key_of k changed ≡ (if same_key key.now k then value else rules.kept_at T.key_of k list)) }
{
    let place = place_in(&list, key);
    with_at(alloc, list, place, value)
}

//! The objects of a world, by their keys.
ghost use Rattle.std.specs.Prelude.{◌≡◌, option_copied};
ghost use Rattle.gw_text.specs.model.Stored.{IsInKeyOrder, stored_at};
ghost use Rattle.gw_deps.specs.Indexes.{AreAlike};

use gw_store::Keyed;
use gw_text::{Key, Stored};

/// The object of this key. No other key of the list ties with it in the order of keys.
pub fn find<'s, T: Keyed + Drop>(stored: &'s [Stored<T>], key: &Key) -> Option<&'s Stored<T>>
    requires { IsInKeyOrder T.key stored.now }
    ensures found { option_copied result ≡ stored_at T.key key.now stored.now }
    ensures alike { AreAlike T.key key.now stored.now }
{
    let key = key.formed();
    match stored.binary_search_by(|object| object.key().compare(key)) {
        Ok(at) => {
            let found = &stored[at];
            // Keys of their forms that tie are one.
            let _form = found.key();
            Some(found)
        }
        Err(_) => None,
    }
}

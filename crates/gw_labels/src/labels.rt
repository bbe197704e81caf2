ghost use Rattle.std.specs.Prelude.{◌≡◌, [], OnOk, OnErr, IfOk, option_map, string_bytes, map};
ghost use Rattle.std.specs.Map.{keys_of};
ghost use Rattle.gw_labels.specs.Labels.{put, label_of, IsInKeyOrder};

use std::alloc::{AllocError, Global};
use std::collections::BTreeMap;
use std::marker::Model;

/// The labels of an object: a map from texts to texts, in the byte order of its keys.
pub struct Labels {
    alloc: Global,
    entries: BTreeMap<String, String>,
}

impl Model for Labels {
    ghost use Rattle.std.specs.Prelude.{List, ℕ, map, string_bytes};

    ghost Value = { List (List ℕ × List ℕ) };

    ghost view = { λ l. map (λ e. (string_bytes e.0, string_bytes e.1)) l.entries.entries };
}

// Written out, so that crates above don't prove anew how its parts are dropped.
impl Drop for Labels {
    fn drop(self) {
        let Labels {
            alloc: _,
            entries: _,
        } = self;
    }
}

impl Labels {
    /// No labels.
    pub fn new(alloc: Global) -> Labels
        ensures { result ≡ [] }
    {
        Labels {
            alloc,
            entries: BTreeMap::new(alloc),
        }
    }

    /// Gives the key this value. A value that it has already is replaced.
    #[tactic(auto, using(crate::proofs::Entries::put_is, crate::proofs::Entries::labels_ascend))]
    pub fn put(&mut self, key: &str, value: &str) -> Result<(), AllocError>
        ensures ok { OnOk result (self.new ≡ put key.now value.now self.old) }
        ensures err { OnErr result (self.new ≡ self.old) }
        ensures ordered { OnOk result (IsInKeyOrder self.new) }
    {
        let key = String::from_str(self.alloc, key)?;
        let value = String::from_str(self.alloc, value)?;
        self.entries.insert(key, value)?;
        Ok(())
    }

    /// The value of the key, if the object has that label.
    pub fn get(&self, key: &str) -> Option<&str>
        ensures { option_map (λ value. value.now) result ≡ label_of key.now self.now }
    {
        match self.entries.get(key) {
            Some(value) => Some(value.as_str()),
            None => None,
        }
    }

    /// The same labels once more.
    #[tactic(auto, using(crate::proofs::Entries::clone_is))]
    pub fn copy(&self, alloc: Global) -> Result<Labels, AllocError>
        ensures { IfOk result (λ labels. labels ≡ self.now) }
    {
        Ok(Labels {
            alloc,
            entries: self.entries.clone()?,
        })
    }

    /// The keys alone, in their order.
    pub(crate) fn keys(&self, alloc: Global) -> Result<Vec<String>, AllocError>
        ensures { IfOk result (λ keys. map string_bytes keys.items ≡ keys_of self.now) }
    {
        let mut keys = Vec::with_capacity(alloc, self.entries.len())?;
        'keys: for (key, _) in self.entries.iter() {
            keys.push(String::from_str(alloc, key.as_str())?)?;
        }
        Ok(keys)
    }
}

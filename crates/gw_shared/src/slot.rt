//! What stands in a bucket.
ghost use Rattle.std.specs.Prelude.{◌≡◌, IfOk};
ghost use Rattle.gw_shared.specs.model.Entries as rules;

use gw_text::NoMemory;
use std::alloc::Global;
use std::marker::Model;
use std::sync::Arc;

/// A key and its value.
#[derive(Drop)]
pub(crate) struct Held<V: Drop> {
    key: Vec<u8>,
    value: V,
}

/// A handle on a key and its value, beside the key's hash.
#[derive(Drop)]
pub(crate) struct Slot<V: Drop> {
    hash: u64,
    held: Arc<Held<V>>,
}

impl<V: Drop> Model for Slot<V> {
    ghost use Rattle.std.specs.Arc.{arc_value};
    ghost use Rattle.gw_shared.specs.model.Entries.{Entry};

    ghost Value = { Entry V };

    ghost view = { λ s. record { hash = s.hash; key = (arc_value s.held).key.items; value = (arc_value s.held).value } };
}

impl<V: Drop> Slot<V> {
    /// These bytes, which have this hash, with this value.
    pub(crate) fn new(alloc: Global, hash: u64, key: &[u8], value: V) -> Result<Self, NoMemory>
        ensures { IfOk result (λ s. s ≡ record { hash = hash; key = key.now; value = value }) }
    {
        let key = key.to_vec(alloc)?;
        let held = Arc::new(alloc, Held { key, value })?;
        Ok(Slot { hash, held })
    }

    /// One handle more on the same key and value.
    pub(crate) fn share(&self) -> Result<Self, NoMemory>
        ensures { IfOk result (λ s. s ≡ self.now) }
    {
        Ok(Slot {
            hash: self.hash,
            held: self.held.clone()?,
        })
    }

    /// Whether it is that of this key, which has this hash.
    pub(crate) fn is_of(&self, hash: u64, key: &[u8]) -> bool
        ensures { result ≡ rules.is_of hash key.now self.now }
    {
        self.hash == hash && self.held.key.as_slice() == key
    }

    /// Its key's hash.
    pub(crate) fn hash(&self) -> u64
        ensures { result ≡ self.now.hash }
    {
        self.hash
    }

    /// Its value.
    pub(crate) fn value(&self) -> &V
        ensures { result.now ≡ self.now.value }
    {
        &self.held.value
    }
}

//! Keys that are shared, and how names are ordered.
ghost use Rattle.std.specs.Prelude.{◌≡◌, IfOk};
ghost use Rattle.gw_text.specs.model.Names.{same_key};
ghost use Rattle.gw_deps.specs.Edges.{name_order};
ghost use Rattle.gw_deps.specs.Orders as orders;

use crate::sorted::Ordered;
use gw_text::{Key, NoMemory};
use std::alloc::Global;
use std::cmp::Ordering;
use std::marker::Model;
use std::ops::Deref;
use std::sync::Arc;

/// A handle on a key, which isn't copied where many name it.
#[derive(Drop)]
pub struct SharedKey {
    key: Arc<Key>,
}

impl Model for SharedKey {
    ghost use Rattle.std.specs.Arc.{arc_value};
    ghost use Rattle.gw_text.specs.model.Names.{Key as Plain};

    ghost Value = { Plain };

    ghost view = { λ k. arc_value k.key };
}

impl SharedKey {
    /// A copy of the key, on the heap.
    pub fn of(alloc: Global, key: &Key) -> Result<Self, NoMemory>
        ensures { IfOk result (λ k. k ≡ key.now) }
    {
        let key = key.copy(alloc)?;
        Ok(SharedKey {
            key: Arc::new(alloc, key)?,
        })
    }

    /// One handle more on the same key.
    pub fn share(&self) -> Result<Self, NoMemory>
        ensures { IfOk result (λ k. k ≡ self.now) }
    {
        Ok(SharedKey {
            key: self.key.clone()?,
        })
    }
}

impl Deref for SharedKey {
    type Target = Key;

    ghost deref_gives = { λ x y. y ≡ x };

    fn deref(&self) -> &Key {
        &self.key
    }
}

impl Ordered for SharedKey {
    ghost order = { name_order };

    ghost same = { same_key };

    ghost total = { orders.name_total };

    ghost ties = { orders.name_ties };

    fn compare(&self, other: &Self) -> Ordering {
        let (a, b): (&Key, &Key) = (&self.key, &other.key);
        a.namespace.cmp(&b.namespace).then(a.name.cmp(&b.name))
    }
}

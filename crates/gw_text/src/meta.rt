ghost use Rattle.std.specs.Prelude.{◌≡◌, IfOk};

use crate::key::Key;
use crate::second::Second;
use std::alloc::{AllocError, Global};
use std::marker::Model;

/// What every object says of itself: its key, its written creation, if there is one, and the
/// generation of its spec.
pub struct Meta {
    pub key: Key,
    pub created: Option<Second>,
    pub generation: u64,
}

impl Model for Meta {
    ghost use Rattle.gw_text.specs.model.Meta.{Meta as Plain};

    ghost Value = { Plain };

    ghost view = { λ m. record { key = m.key; created = m.created; generation = m.generation } };
}

// Written out, so that crates above don't prove anew how its parts are dropped.
impl Drop for Meta {
    fn drop(self) {
        let Meta {
            key: _,
            created: _,
            generation: _,
        } = self;
    }
}

impl Meta {
    /// The same metadata once more.
    pub fn copy(&self, alloc: Global) -> Result<Self, AllocError>
        ensures { IfOk result (λ meta. meta ≡ self.now) }
    {
        Ok(Meta {
            key: self.key.copy(alloc)?,
            created: self.created,
            generation: self.generation,
        })
    }
}

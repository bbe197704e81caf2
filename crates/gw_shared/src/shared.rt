//! Handles.
ghost use Rattle.std.specs.Prelude.{◌≡◌, IfErr, IfOk};

use crate::handle::Handle;
use gw_text::NoMemory;
use std::alloc::Global;
use std::marker::Model;
use std::ops::Deref;
use std::sync::Arc;

/// A handle on something that isn't copied where many hold it.
#[derive(Drop)]
pub struct Shared<T: Drop> {
    value: Arc<T>,
}

impl<T: Drop> Model for Shared<T> {
    ghost use Rattle.std.specs.Arc.{arc_value};

    ghost Value = { T };

    ghost view = { λ s. arc_value s.value };
}

impl<T: Drop> Shared<T> {
    /// The value, on the heap.
    pub fn new(alloc: Global, value: T) -> Result<Self, NoMemory>
        ensures { IfOk result (λ s. s ≡ value) }
    {
        Ok(Shared {
            value: Arc::new(alloc, value)?,
        })
    }

    /// One handle more on the same value.
    pub fn share(&self) -> Result<Self, NoMemory>
        ensures { IfOk result (λ s. s ≡ self.now) }
    {
        Ok(Shared {
            value: self.value.clone()?,
        })
    }

    /// The value, where this is the only handle on it, and else the handle.
    pub fn into_own(self) -> Result<T, Self>
        ensures own { IfOk result (λ value. value ≡ self) }
        ensures other { IfErr result (λ other. other ≡ self) }
    {
        match Arc::try_unwrap(self.value) {
            Ok(value) => Ok(value),
            Err(value) => Err(Shared { value }),
        }
    }
}

impl<T: Drop> Deref for Shared<T> {
    type Target = T;

    ghost deref_gives = { λ x y. y ≡ x };

    fn deref(&self) -> &T {
        &self.value
    }
}

impl<T: Drop> Handle for Shared<T> {
    fn one_more(&self) -> Result<Self, NoMemory> {
        self.share()
    }
}

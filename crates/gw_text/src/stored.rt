//! Objects that are shared, before and after they are put into a world.
ghost use Rattle.std.specs.Prelude.{◌≡◌, IfOk};
ghost use Rattle.std.specs.Arc.{arc_value};

use crate::second::Second;
use std::alloc::{AllocError, Global};
use std::marker::Model;
use std::ops::Deref;
use std::sync::Arc;

/// A handle on an object that was read and isn't put yet.
#[derive(Drop)]
pub struct Incoming<T: Drop> {
    object: Arc<T>,
}

impl<T: Drop> Model for Incoming<T> {
    ghost use Rattle.std.specs.Arc.{arc_value};

    ghost Value = { T };

    ghost view = { λ i. arc_value i.object };
}

impl<T: Drop> Incoming<T> {
    /// The object, on the heap.
    pub fn new(alloc: Global, object: T) -> Result<Self, AllocError>
        ensures { IfOk result (λ i. i ≡ object) }
    {
        Ok(Incoming {
            object: Arc::new(alloc, object)?,
        })
    }

    /// One handle more on the same object, which isn't copied.
    pub fn share(&self) -> Result<Self, AllocError>
        ensures { IfOk result (λ i. i ≡ self.now) }
    {
        Ok(Incoming {
            object: self.object.clone()?,
        })
    }

    /// The same object under a key that was first put at this moment.
    pub fn stored(self, first: Second) -> Stored<T>
        ensures { result ≡ record { object = self; first = first } }
    {
        Stored {
            object: self.object,
            first,
        }
    }
}

impl<T: Drop> Deref for Incoming<T> {
    type Target = T;

    ghost deref_gives = { λ x y. y ≡ x };

    fn deref(&self) -> &T {
        &self.object
    }
}

/// A handle on an object of a world, with the moment at which its key was first put.
#[derive(Drop)]
pub struct Stored<T: Drop> {
    object: Arc<T>,
    first: Second,
}

impl<T: Drop> Model for Stored<T> {
    ghost use Rattle.std.specs.Arc.{arc_value};
    ghost use Rattle.gw_text.specs.model.Stored.{Stored as Plain};

    ghost Value = { Plain T };

    ghost view = { λ s. record { object = arc_value s.object; first = s.first } };
}

impl<T: Drop> Stored<T> {
    /// The moment at which its key was first put.
    pub fn first(&self) -> Second
        ensures { result ≡ self.now.first }
    {
        self.first
    }

    /// One handle more on the same object, which isn't copied.
    pub fn share(&self) -> Result<Self, AllocError>
        ensures { IfOk result (λ s. s ≡ self.now) }
    {
        Ok(Stored {
            object: self.object.clone()?,
            first: self.first,
        })
    }

    /// The object alone, as it came.
    pub fn incoming(self) -> Incoming<T>
        ensures { result ≡ self.object }
    {
        Incoming {
            object: self.object,
        }
    }
}

impl<T: Drop> Deref for Stored<T> {
    type Target = T;

    ghost deref_gives = { λ x y. y ≡ x.object };

    fn deref(&self) -> &T {
        &self.object
    }
}

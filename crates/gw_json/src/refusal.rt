//! Why a line was refused, and at which field.
ghost use Rattle.std.specs.Prelude.{◌≡◌, option_map};
ghost use Rattle.gw_json.specs.declared.refusal.Refusal.TheVariants.{NoMemory};
ghost use Rattle.gw_json.specs.Refusals.{refusal_number, refusal_path};

use crate::path::Path;
use std::alloc::{AllocError, AllocFailed};

/// Why a line, or the object in it, was not taken.
#[derive(Debug, Drop)]
pub enum Refusal {
    /// The line is not one JSON text in UTF-8, or it nests too deep.
    NotJson,
    /// The line is not a watch event.
    NotEvent,
    /// A field that is needed is absent, or null.
    Missing(Path),
    /// A field has another JSON type than it must have.
    WrongType(Path),
    /// A field breaks its form, or is a number out of its range.
    BadValue(Path),
    /// The line, or a text or list in it, is longer than its limit.
    TooLong(Path),
    /// No more objects are taken.
    Full,
    /// Memory ran out: nothing is said of the line.
    NoMemory,
}

impl Refusal {
    /// The number under which a refusal is printed; want of memory is never printed and has 0.
    pub fn number(&self) -> u8
        ensures { result ≡ refusal_number self.now }
    {
        match self {
            Refusal::NotJson => 1,
            Refusal::NotEvent => 2,
            Refusal::Missing(_) => 3,
            Refusal::WrongType(_) => 4,
            Refusal::BadValue(_) => 5,
            Refusal::TooLong(_) => 6,
            Refusal::Full => 7,
            Refusal::NoMemory => 0,
        }
    }

    /// The field that the refusal names, if it names one.
    pub fn path(&self) -> Option<&Path>
        ensures { option_map (λ p. p.now) result ≡ refusal_path self.now }
    {
        match self {
            Refusal::Missing(path)
            | Refusal::WrongType(path)
            | Refusal::BadValue(path)
            | Refusal::TooLong(path) => Some(path),
            _ => None,
        }
    }
}

impl From<AllocError> for Refusal {
    ghost from_gives = { λ _ e. e ≡ NoMemory };

    fn from(_: AllocError) -> Refusal {
        Refusal::NoMemory
    }
}

impl<T: Drop> From<AllocFailed<T>> for Refusal {
    ghost from_gives = { λ _ e. e ≡ NoMemory };

    fn from(_: AllocFailed<T>) -> Refusal {
        Refusal::NoMemory
    }
}

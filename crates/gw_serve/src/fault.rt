ghost use Rattle.std.specs.Prelude.{◌≡◌};
ghost use Rattle.gw_serve.specs.Serving.{of_opening};
ghost use Rattle.gw_serve.specs.declared.fault.ServeFault.TheVariants.{NoMemory as OutOfMemory};

use gw_snap::OpenFault;
use gw_text::NoMemory;
use std::alloc::AllocFailed;

/// Why connections are no longer served, or never were.
#[derive(Clone, Copy, Debug, PartialEq, Eq)]
pub enum ServeFault {
    /// There was no place for those who read.
    Place,
    /// A socket couldn't be bound, or an upstream not be had.
    Bind,
    /// It couldn't be written that all sockets are bound.
    Write,
    /// A job couldn't be started.
    Start,
    NoMemory,
}

impl From<NoMemory> for ServeFault {
    ghost from_gives = { λ _ fault. fault ≡ OutOfMemory };

    fn from(_: NoMemory) -> Self {
        ServeFault::NoMemory
    }
}

impl<T: Drop> From<AllocFailed<T>> for ServeFault {
    ghost from_gives = { λ _ fault. fault ≡ OutOfMemory };

    fn from(_: AllocFailed<T>) -> Self {
        ServeFault::NoMemory
    }
}

impl From<OpenFault> for ServeFault {
    ghost from_gives = { λ fault given. given ≡ of_opening fault };

    fn from(fault: OpenFault) -> Self {
        match fault {
            OpenFault::Place => ServeFault::Place,
            OpenFault::NoMemory => ServeFault::NoMemory,
        }
    }
}

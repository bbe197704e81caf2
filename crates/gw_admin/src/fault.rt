use gw_hub::HubFault;
use gw_snap::OpenFault;
use gw_text::NoMemory;

/// Why a connection was given up.
#[derive(Clone, Copy, Debug, PartialEq, Eq)]
pub enum AdminFault {
    /// A read of the link failed.
    Read,
    /// A write of the link failed.
    Write,
    /// The pass had no place to read from.
    Place,
    /// Memory was wanted. What was accepted of a request's lines by then stays accepted.
    NoMemory,
    /// The pass has seen so many changes, and only so many are published.
    Ahead(u64, u64),
}

impl From<NoMemory> for AdminFault {
    ghost use Rattle.std.specs.Prelude.{◌≡◌};
    ghost use Rattle.gw_admin.specs.declared.fault.AdminFault.TheVariants.{NoMemory as OutOfMemory};

    ghost from_gives = { λ _ fault. fault ≡ OutOfMemory };

    fn from(_: NoMemory) -> Self {
        AdminFault::NoMemory
    }
}

impl From<OpenFault> for AdminFault {
    ghost use Rattle.std.specs.Prelude.{◌≡◌};
    ghost use Rattle.gw_admin.specs.Faults.{of_open};

    ghost from_gives = { λ refused fault. fault ≡ of_open refused };

    fn from(fault: OpenFault) -> Self {
        match fault {
            OpenFault::Place => AdminFault::Place,
            OpenFault::NoMemory => AdminFault::NoMemory,
        }
    }
}

impl From<HubFault> for AdminFault {
    ghost use Rattle.std.specs.Prelude.{◌≡◌};
    ghost use Rattle.gw_admin.specs.Faults.{of_hub};

    ghost from_gives = { λ refused fault. fault ≡ of_hub refused };

    fn from(fault: HubFault) -> Self {
        match fault {
            HubFault::NoMemory | HubFault::Held(_, _) => AdminFault::NoMemory,
            HubFault::Ahead(mine, its) => AdminFault::Ahead(mine, its),
        }
    }
}

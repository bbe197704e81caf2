use gw_text::NoMemory;

/// Why a script isn't run to its end.
#[derive(Clone, Copy, Debug, PartialEq, Eq)]
pub(crate) enum Stop {
    NoMemory,
    /// The worker of this number had no place to read from.
    Place(usize),
    /// The worker of this number has seen more than is published.
    Ahead(usize),
}

impl From<NoMemory> for Stop {
    ghost use Rattle.std.specs.Prelude.{◌≡◌};
    ghost use Rattle.gw_replay.specs.declared.stop.Stop.TheVariants.{NoMemory as OutOfMemory};

    ghost from_gives = { λ _ stop. stop ≡ OutOfMemory };

    fn from(_: NoMemory) -> Self {
        Stop::NoMemory
    }
}

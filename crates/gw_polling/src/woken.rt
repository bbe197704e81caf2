use crate::numbers::Numbers;
use gw_text::NoMemory;

/// What a ring waited for.
#[derive(Drop)]
pub enum Woken<K, U> {
    /// A connection came: its number, its link, and an upstream of its own.
    New(u64, K, U),
    /// These connections are worth a poll.
    Ready(Numbers),
    /// No connection is open and none is to come.
    Done,
}

/// Why a ring didn't wait.
#[derive(Clone, Copy, Debug, PartialEq, Eq)]
pub enum RingFault {
    /// The count of faults has risen.
    Failed,
    NoMemory,
}

impl From<NoMemory> for RingFault {
    ghost use Rattle.std.specs.Prelude.{◌≡◌};
    ghost use Rattle.gw_polling.specs.declared.woken.RingFault.TheVariants.{NoMemory as OutOfMemory};

    ghost from_gives = { λ _ fault. fault ≡ OutOfMemory };

    fn from(_: NoMemory) -> Self {
        RingFault::NoMemory
    }
}

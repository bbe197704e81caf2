use gw_json::Refusal;
use gw_resolve::Outcome;
use gw_text::NoMemory;

/// What came of an input.
#[derive(Drop)]
pub struct Receipt {
    /// One for each line that isn't blank, in the order of the lines.
    pub answers: Vec<Result<Outcome, Refusal>>,
    /// The place of the first accepted event in the published list: how many changes there were before.
    pub first: u64,
    /// How many lines were accepted.
    pub accepted: u64,
    /// How many changes are published.
    pub front: u64,
}

/// Why a hub gave no answer.
#[derive(Clone, Copy, Debug, PartialEq, Eq)]
pub enum HubFault {
    /// Memory ran out, and all is as before.
    NoMemory,
    /// Memory ran out for the publication. So many lines were accepted, from this place on, and come with the next one.
    Held(u64, u64),
    /// The pass has seen so many changes, and only so many are published. It is counted, and all else is as before.
    Ahead(u64, u64),
}

impl From<NoMemory> for HubFault {
    ghost use Rattle.std.specs.Prelude.{◌≡◌};
    ghost use Rattle.gw_hub.specs.declared.receipt.HubFault.TheVariants.{NoMemory as OutOfMemory};

    ghost from_gives = { λ _ fault. fault ≡ OutOfMemory };

    fn from(_: NoMemory) -> Self {
        HubFault::NoMemory
    }
}

ghost use Rattle.std.specs.Prelude.{◌≡◌, ℕ};
ghost use Rattle.gw_link.specs.Faults.{one_more};

use gw_link::Failed;
use std::marker::Model;

/// How many calls of one object have failed; at the last u64 it stays.
#[derive(Drop)]
pub(crate) struct FaultCount {
    faults: u64,
}

impl Model for FaultCount {
    ghost Value = { ℕ };

    ghost view = { λ c. c.faults };
}

impl FaultCount {
    /// No call has failed.
    pub(crate) fn new() -> Self
        ensures { result ≡ 0 }
    {
        FaultCount { faults: 0 }
    }

    /// How many calls have failed.
    pub(crate) fn get(&self) -> u64
        ensures { result ≡ self.now }
    {
        self.faults
    }

    /// Counts a call that failed.
    pub(crate) fn fail(&mut self) -> Failed
        ensures { self.new ≡ one_more self.old }
    {
        self.faults = self.faults.saturating_add(1);
        Failed
    }
}

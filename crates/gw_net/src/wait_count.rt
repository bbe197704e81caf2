ghost use Rattle.std.specs.Prelude.{◌≡◌, ℕ};
ghost use Rattle.futures.specs.Task.{Hears, IsArmed, Keeps as KeepsTask};
ghost use Rattle.gw_link.specs.Faults.{one_more};

use futures::task::{Context, Poll};
use std::marker::Model;

/// How many polls of one object weren't ready; at the last u64 it stays.
#[derive(Drop)]
pub(crate) struct WaitCount {
    waits: u64,
}

impl Model for WaitCount {
    ghost Value = { ℕ };

    ghost view = { λ c. c.waits };
}

impl WaitCount {
    /// Each poll was ready.
    pub(crate) fn new() -> Self
        ensures { result ≡ 0 }
    {
        WaitCount { waits: 0 }
    }

    /// How many polls weren't ready.
    pub(crate) fn get(&self) -> u64
        ensures { result ≡ self.now }
    {
        self.waits
    }

    /// Counts a poll that isn't ready. The system tells the ring when its socket is; the task only asks for another poll.
    pub(crate) fn wait<T>(&mut self, cx: &mut Context<'_>) -> Poll<T>
        ensures pending { result ≡ Poll.Pending }
        ensures counted { self.new ≡ one_more self.old }
        ensures armed { IsArmed cx.new }
        ensures heard { (s : ℕ) → Hears cx.new s }
        ensures task { KeepsTask cx.old cx.new }
    {
        self.waits = self.waits.saturating_add(1);
        cx.yield_now()
    }
}

ghost use Rattle.std.specs.Prelude.{◌≡◌, ◌↔◌, ◌<◌, ◌⊎◌, false, if◌then◌else◌, is_ok, is_some, IfOk, IfErr, IsErr, IsTrue};
ghost use Rattle.gw_link.specs.Faults.{last_count};
ghost use Rattle.gw_link.specs.Memory.{first_call, is_failing, after_pass, after_fail};
ghost use Rattle.gw_edge.specs.EdgeMemory.{CrewState};

use crate::crew::Crew;
use crate::edge::EdgeFault;
use gw_link::Plan;
use std::marker::Model;
use std::sync::Wait;
use std::thread::{JoinHandle, Threads};

/// A crew that runs each job at its start, in turn. It takes no memory. It fails in the listed starts, and where its number of
/// started jobs stands at the last u64.
#[derive(Drop)]
pub struct MemCrew {
    started: u64,
    plan: Plan,
}

impl Model for MemCrew {
    ghost Value = { CrewState };

    ghost view = { λ c. record { started = c.started; calls = c.plan } };
}

impl MemCrew {
    /// A crew without a job. `fails`: the numbers of the starts that fail, from 0.
    pub fn new(fails: Vec<u64>) -> Self
        ensures { result ≡ record { started = 0; calls = first_call fails.items } }
    {
        MemCrew {
            started: 0,
            plan: Plan::new(fails),
        }
    }

    /// How many jobs were started; each has ended.
    pub fn started(&self) -> u64
        ensures { result ≡ self.now.started }
    {
        self.started
    }

    /// How many starts have failed.
    pub fn faults(&self) -> u64
        ensures { result ≡ self.now.calls.faults }
    {
        self.plan.faults()
    }
}

impl Crew for MemCrew {
    ghost use Rattle.std.specs.Prelude.{◌≡◌, ◌<◌, false};
    ghost use Rattle.std.proofs.Common.{rules};
    ghost use Rattle.gw_link.specs.Faults.{last_count};

    ghost faults = { λ c. c.calls.faults };

    ghost started = { λ c. c.started };

    ghost ended = { λ c. c.started };

    ghost has_room = { λ c in_thread. (in_thread ≡ false) × (c.started < last_count) };

    fn room(&mut self) -> Result<bool, EdgeFault>
        ensures failed { IsErr result ↔ (IsTrue (is_failing self.old.calls) ⊎ (self.old.started ≡ last_count)) }
        ensures cause { IfErr result (λ fault. fault ≡ EdgeFault.Failed) }
        ensures room { IfOk result (λ in_thread. (in_thread ≡ false) × (self.new.started < last_count)) }
        ensures after { self.new ≡ record self.old { calls = if is_ok result then after_pass self.old.calls else after_fail self.old.calls } }
    {
        if self.started == u64::MAX || self.plan.fails() {
            self.plan.fail();
            return Err(EdgeFault::Failed);
        }
        self.plan.pass();
        Ok(false)
    }

    fn keep(&mut self, _thread: Option<JoinHandle<()>>) {
        self.started += 1;
    }

    fn refused(&mut self) {
        self.plan.fail();
    }

    fn finish<R: Wait + Threads>(&mut self, _rt: &R) {}

    ghost within = { λ c. Prim.search rules };
}

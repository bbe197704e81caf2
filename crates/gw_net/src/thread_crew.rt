ghost use Rattle.std.specs.Prelude.{◌≡◌, ◌↔◌, ◌+◌, ◌-◌, ◌<◌, ◌≤◌, true, is_some, IfOk, vec_len, vec_capacity};
ghost use Rattle.gw_link.specs.Faults.{last_count, one_more};
ghost use Rattle.gw_net.specs.Real.{CrewState, after_edge_call};

use crate::fault_count::FaultCount;
use gw_edge::{Crew, EdgeFault};
use std::alloc::Global;
use std::marker::Model;
use std::sync::Wait;
use std::thread::{JoinHandle, Threads};

/// A crew that runs each job in a thread of its own. It fails where the system gives no thread, and where its number of started
/// jobs stands at the last u64.
#[derive(Drop)]
pub struct ThreadCrew {
    // Those of the jobs that it hasn't waited for.
    threads: Vec<JoinHandle<()>>,
    started: u64,
    faults: FaultCount,
}

impl Model for ThreadCrew {
    ghost Value = { CrewState };

    ghost view = { λ c. record {
      started = c.started;
      running = vec_len c.threads;
      room = vec_capacity c.threads - vec_len c.threads;
      faults = c.faults;
    } };

    ghost invariant = { λ c. vec_len c.threads ≤ c.started };
}

impl ThreadCrew {
    /// A crew without a job.
    pub fn new(alloc: Global) -> Self
        ensures { result ≡ record { started = 0; running = 0; room = result.room; faults = 0 } }
    {
        ThreadCrew {
            threads: Vec::new(alloc),
            started: 0,
            faults: FaultCount::new(),
        }
    }

    /// How many jobs were started.
    pub fn started(&self) -> u64
        ensures { result ≡ self.now.started }
    {
        self.started
    }

    /// How many starts have failed.
    pub fn faults(&self) -> u64
        ensures { result ≡ self.now.faults }
    {
        self.faults.get()
    }
}

impl Crew for ThreadCrew {
    ghost use Rattle.std.specs.Prelude.{◌≡◌, ◌-◌, ◌<◌, true};
    ghost use Rattle.std.proofs.Common.{rules};
    ghost use Rattle.gw_link.specs.Faults.{last_count};

    ghost faults = { λ c. c.faults };

    ghost started = { λ c. c.started };

    ghost ended = { λ c. c.started - c.running };

    ghost has_room = { λ c in_thread. (in_thread ≡ true) × ((0 < c.room) × (c.started < last_count)) };

    fn room(&mut self) -> Result<bool, EdgeFault>
        ensures room { IfOk result (λ in_thread. (in_thread ≡ true) × ((0 < self.new.room) × (self.new.started < last_count))) }
        ensures full { (result ≡ Err EdgeFault.Failed) ↔ (self.old.started ≡ last_count) }
        ensures after { self.new ≡ record self.old { room = self.new.room; faults = after_edge_call result self.old.faults } }
    {
        if self.started == u64::MAX {
            return Err(self.faults.fail().into());
        }
        self.threads.reserve(1)?;
        Ok(true)
    }

    fn keep(&mut self, thread: Option<JoinHandle<()>>)
        requires { (is_some thread ≡ true) × ((0 < self.old.room) × (self.old.started < last_count)) }
        ensures after { self.new ≡ record self.old { started = self.old.started + 1; running = self.old.running + 1; room = self.old.room - 1 } }
    {
        if let Some(thread) = thread {
            self.started += 1;
            self.threads.push_reserved(thread);
        }
    }

    fn refused(&mut self)
        ensures after { self.new ≡ record self.old { faults = one_more self.old.faults } }
    {
        self.faults.fail();
    }

    fn finish<R: Wait + Threads>(&mut self, rt: &R)
        ensures after { self.new ≡ record self.old { running = 0; room = self.new.room } }
    {
        'threads: while let Some(thread) = self.threads.pop() {
            thread.join(rt);
        }
    }

    ghost within = { λ c. Prim.search rules };
}

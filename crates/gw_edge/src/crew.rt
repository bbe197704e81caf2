ghost use Rattle.std.specs.Prelude.{◌≡◌, ℕ, ◌+◌, ◌≤◌, Bool, true, false, if◌then◌else◌, is_some, IfOk, OnOk, OnErr};
ghost use Rattle.gw_link.specs.Faults.{HasRisen};

use crate::edge::EdgeFault;
use std::sync::Wait;
use std::thread;
use std::thread::{JoinHandle, Threads};

/// A job, which may wait.
pub trait Work {
    fn work<R: Wait>(self, rt: &R);
}

/// What runs jobs. It counts those that were started and those that have ended: a job has ended where the crew ran it to its end
/// itself, or has waited for it. Jobs are started by `start`, which makes the calls of the trait in their order.
pub trait Crew {
    // How many calls have failed; at the last u64 it stays.
    ghost faults: { Self → ℕ };

    ghost started: { Self → ℕ };

    ghost ended: { Self → ℕ };

    // One more job can be counted: one in a thread of its own, or one that was run.
    ghost has_room: { Self → Bool → Type 0 };

    /// Makes room for one more job, and says whether it is to run in a thread of its own.
    fn room(&mut self) -> Result<bool, EdgeFault>
        ensures room { IfOk result (λ in_thread. has_room self.new in_thread) }
        ensures unstarted { started self.new ≡ started self.old }
        ensures unended { ended self.new ≡ ended self.old }
        ensures failed { result ≡ Err EdgeFault.Failed → HasRisen (faults self.old) (faults self.new) }
        ensures later { faults self.old ≤ faults self.new };

    /// Counts a job that was started in this thread, or, without one, a job that was run to its end.
    fn keep(&mut self, thread: Option<JoinHandle<()>>)
        requires { has_room self.old (is_some thread) }
        ensures starts { started self.new ≡ started self.old + 1 }
        ensures ends { ended self.new ≡ ended self.old + (if is_some thread then 0 else 1) }
        ensures later { faults self.old ≤ faults self.new };

    /// Counts a thread that couldn't be had.
    fn refused(&mut self)
        ensures unstarted { started self.new ≡ started self.old }
        ensures unended { ended self.new ≡ ended self.old }
        ensures risen { HasRisen (faults self.old) (faults self.new) }
        ensures later { faults self.old ≤ faults self.new };

    /// Waits for all jobs.
    fn finish<R: Wait + Threads>(&mut self, rt: &R)
        ensures unstarted { started self.new ≡ started self.old }
        ensures all { ended self.new ≡ started self.new }
        ensures later { faults self.old ≤ faults self.new };

    // No job has ended that wasn't started.
    ghost within: { (crew : Self) → ended crew ≤ started crew };
}

/// Starts the job, in a thread of its own or here. A job that isn't started is dropped.
pub fn start<
    W: Crew,
    R: Wait + Threads + Clone + Drop + Send + Sync + 'static,
    J: Work + Drop + Send + 'static,
>(crew: &mut W, rt: &R, job: J) -> Result<(), EdgeFault>
    ensures starts { OnOk result (W.started crew.new ≡ W.started crew.old + 1) }
    ensures unstarted { OnErr result (W.started crew.new ≡ W.started crew.old) }
    ensures ended { W.ended crew.old ≤ W.ended crew.new }
    ensures within { W.ended crew.new ≤ W.started crew.new }
    ensures failed { result ≡ Err EdgeFault.Failed → HasRisen (W.faults crew.old) (W.faults crew.new) }
    ensures later { W.faults crew.old ≤ W.faults crew.new }
{
    if !crew.room()? {
        job.work(rt);
        crew.keep(None);
        return Ok(());
    }
    let Ok(theirs) = rt.clone() else {
        return Err(EdgeFault::NoMemory);
    };
    match thread::spawn(rt, move || job.work(&theirs)) {
        Ok(thread) => {
            crew.keep(Some(thread));
            Ok(())
        }
        Err(_) => {
            crew.refused();
            Err(EdgeFault::Failed)
        }
    }
}

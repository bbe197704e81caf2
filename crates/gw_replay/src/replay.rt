//! What is kept from line to line.
ghost use Rattle.std.specs.Prelude.{◌≡◌, ◌++◌, ◌<◌, ◌^◌, [], IfOk, IfErr, OnOk, map, string_bytes};
ghost use Rattle.gw_snap.specs.Counts.{CountsPlace};
ghost use Rattle.gw_replay.specs.Replays.{beginning};
ghost use Rattle.gw_replay.specs.States.{Keeps, site_of, worker_over};

use crate::ending::{Ending, Replayed};
use gw_conns::Connection;
use gw_hub::Controller;
use gw_link::MemUpstream;
use gw_match::Tables;
use gw_snap::{OpenFault, Passes, SnapFaults};
use gw_text::{Doors, NoMemory, Text};
use gw_worker::Worker;
use std::alloc::Global;
use std::collections::BTreeMap;
use std::sync::Wait;

/// An open connection, and the number of its worker.
#[derive(Drop)]
pub(crate) struct Client {
    pub(crate) conn: Connection,
    pub(crate) worker: usize,
}

/// What stands after the lines so far.
pub(crate) struct Replay<R: Wait + Drop> {
    pub(crate) alloc: Global,
    pub(crate) controller: Controller<R>,
    pub(crate) workers: Vec<Worker>,
    /// Whether connections are polled.
    pub(crate) polled: bool,
    /// The open connections by their names.
    pub(crate) clients: BTreeMap<String, Client>,
    pub(crate) backends: MemUpstream,
    /// The status of each row.
    pub(crate) statuses: Vec<u16>,
    pub(crate) refused: u64,
    pub(crate) skipped: u64,
    /// What is written so far.
    pub(crate) text: String,
}

// Written out, since the handle that the controller ends with isn't known.
impl<R: Wait + Drop> Drop for Replay<R> {
    fn drop(self) {
        let Replay {
            alloc: _,
            controller: _,
            workers: _,
            polled: _,
            clients: _,
            backends: _,
            statuses: _,
            refused: _,
            skipped: _,
            text: _,
        } = self;
    }
}

impl<R: Wait + Drop> Replay<R> {
    /// Before the first line.
    pub(crate) fn new(
        alloc: Global,
        rt: R,
        snap: &mut SnapFaults,
        doors: Doors,
        controller: Text,
        workers: usize,
        polled: bool,
    ) -> Result<Replay<R>, OpenFault>
        requires some { 0 < workers }
        requires few { workers < 2 ^ 32 }
        ensures keeps { IfOk result (λ r. Keeps r (beginning workers)) }
        ensures site { IfOk result (λ r. site_of r ≡ record { doors = doors; controller = controller }) }
        ensures text { IfOk result (λ r. string_bytes r.text ≡ []) }
        ensures refused { IfOk result (λ r. r.refused ≡ 0) }
        ensures skipped { IfOk result (λ r. r.skipped ≡ 0) }

        // A place that was refused is counted, and nothing else is.
        ensures ok { OnOk result (snap.new.places ≡ snap.old.places) }
        ensures places { IfErr result (λ e. CountsPlace e snap.old.places snap.new.places) }
        ensures ahead { snap.new.ahead ≡ snap.old.ahead }
    {
        let (controller, passes) = Controller::open(alloc, rt, snap, doors, controller, workers)?;
        let workers = workers_over(alloc, passes)?;
        Ok(Replay {
            alloc,
            controller,
            workers,
            polled,
            clients: BTreeMap::new(alloc),
            backends: MemUpstream::new(alloc, Vec::new(alloc)),
            statuses: Vec::new(alloc),
            refused: 0,
            skipped: 0,
            text: String::new(alloc),
        })
    }

    /// What was written, and how the script came to its end.
    pub(crate) fn ended(self, ending: Ending) -> Replayed
        ensures text { result.text ≡ string_bytes self.text }
        ensures ending { result.ending ≡ ending }
    {
        let Replay {
            alloc: _,
            controller: _,
            workers: _,
            polled: _,
            clients: _,
            backends: _,
            statuses: _,
            refused: _,
            skipped: _,
            text,
        } = self;
        Replayed {
            text: Text::from_vec(text.into_bytes()),
            ending,
        }
    }
}

// A worker over each of the passes.
fn workers_over(alloc: Global, passes: Passes<Tables>) -> Result<Vec<Worker>, NoMemory>
    ensures { IfOk result (λ workers. workers.items ≡ map worker_over passes) }
{
    let mut workers = Vec::new(alloc);
    let mut left = passes;
    'passes: while let Some(pass) = left.take() {
        workers.push(Worker::new(alloc, pass))?;
    }
    Ok(workers)
}

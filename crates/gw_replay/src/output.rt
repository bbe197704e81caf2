//! What the input of a script gives.
ghost use Rattle.std.specs.Prelude.{◌≡◌, ◌≤◌, ◌<◌, ◌^◌, Some, length, slice_get, string_bytes, IfOk, OnOk};
ghost use Rattle.gw_json.specs.Lines.{line_of};
ghost use Rattle.gw_link.specs.declared.source.TheConstants.{MOST_INPUT};
ghost use Rattle.gw_worker.specs.Exchanges.{HasRisenBy};
ghost use Rattle.gw_worker.specs.model.Workers.{Worker};
ghost use Rattle.gw_replay.specs.Lines.{place_data};
ghost use Rattle.gw_replay.specs.Outputs.{AreCounted, IsReplayed};
ghost use Rattle.gw_replay.specs.States.{HasCause, IsGivenUp, Unless};

use crate::ending::{Ending, Replayed};
use crate::print::{push_ahead, push_place};
use crate::replay::Replay;
use crate::stop::Stop;
use gw_link::{Clock, MOST_INPUT};
use gw_snap::{OpenFault, SnapFaults};
use gw_text::{Doors, NoMemory, Text};
use gw_worker::Worker;
use std::alloc::{AllocGlobal, Global};
use std::random::RandomSource;
use std::sync::Wait;

/// What a script does, line by line, where so many workers serve its connections at the doors, by calls or by polling each. The clock is asked once before each event.
/// A script is given up where there is no place to read from, and where a worker has seen more than is published.
pub fn replay_output<R: Wait + RandomSource + AllocGlobal, C: Clock>(
    rt: &R,
    alloc: Global,
    doors: Doors,
    controller: Text,
    workers: usize,
    polled: bool,
    input: &[u8],
    clock: &mut C,
    snap: &mut SnapFaults,
) -> Result<Replayed, NoMemory>
    requires bound { length input.now ≤ MOST_INPUT }
    requires some { 0 < workers }
    requires few { workers < 2 ^ 32 }
    ensures replayed { IfOk result (λ r. IsReplayed doors controller workers input.now (C.moments clock.old) r.ending r.text) }
    ensures counted { IfOk result (λ r. AreCounted r.ending snap.old snap.new) }
    ensures places { snap.old.places ≤ snap.new.places }
    ensures ahead { snap.old.ahead ≤ snap.new.ahead }
{
    let mut replay = match Replay::new(alloc, rt, snap, doors, controller, workers, polled) {
        Ok(replay) => replay,
        Err(OpenFault::Place) => {
            return Ok(Replayed {
                text: unplaced(alloc)?,
                ending: Ending::Place,
            });
        }
        Err(OpenFault::NoMemory) => return Err(NoMemory),
    };
    match replay.lines(rt, input, clock) {
        Ok(()) => {
            let ending = replay.end()?;
            Ok(replay.ended(ending))
        }
        Err(stop) => {
            let ending = replay.give_up(stop, snap)?;
            Ok(replay.ended(ending))
        }
    }
}

impl<R: Wait + Drop> Replay<R> {
    // Hands over what the worker counted by which the script is given up, and writes the last line.
    fn give_up(&mut self, stop: Stop, snap: &mut SnapFaults) -> Result<Ending, NoMemory>
        requires { Unless stop (HasCause stop self.old) }
        ensures named { OnOk result (stop ≡ Stop.NoMemory → ⊥) }
        ensures given_up { IfOk result (λ ending. IsGivenUp ending (string_bytes self.old.text) (length self.old.controller.published) (string_bytes self.new.text)) }
        ensures counted { IfOk result (λ ending. AreCounted ending snap.old snap.new) }
        ensures places { snap.old.places ≤ snap.new.places }
        ensures ahead { snap.old.ahead ≤ snap.new.ahead }
    {
        match stop {
            Stop::NoMemory => Err(NoMemory),
            Stop::Place(worker) => {
                self.hand_over(worker, snap);
                push_place(self.alloc, &mut self.text)?;
                Ok(Ending::Place)
            }
            Stop::Ahead(worker) => {
                let seen = self.hand_over(worker, snap);
                push_ahead(self.alloc, &mut self.text, self.controller.front(), seen)?;
                Ok(Ending::Ahead)
            }
        }
    }

    // Adds what the worker of this number counted, and says how many changes it has seen.
    fn hand_over(&mut self, worker: usize, snap: &mut SnapFaults) -> u64
        requires { worker < length self.old.workers.items }
        ensures seen { (w : Worker) → slice_get self.old.workers.items worker ≡ Some w → result ≡ length w.pass.seen }
        ensures places { (w : Worker) → slice_get self.old.workers.items worker ≡ Some w → HasRisenBy w.pass.refused snap.old.places snap.new.places }
        ensures ahead { (w : Worker) → slice_get self.old.workers.items worker ≡ Some w → HasRisenBy w.pass.ahead snap.old.ahead snap.new.ahead }
        ensures places_later { snap.old.places ≤ snap.new.places }
        ensures ahead_later { snap.old.ahead ≤ snap.new.ahead }
        ensures text { self.new.text ≡ self.old.text }
        ensures controller { self.new.controller ≡ self.old.controller }
    {
        hand_over(&mut self.workers[worker], snap)
    }
}

// Adds what the worker's pass counted, and says how many changes it has seen.
fn hand_over(worker: &mut Worker, snap: &mut SnapFaults) -> u64
    ensures seen { result ≡ length worker.old.pass.seen }
    ensures places { HasRisenBy worker.old.pass.refused snap.old.places snap.new.places }
    ensures ahead { HasRisenBy worker.old.pass.ahead snap.old.ahead snap.new.ahead }
    ensures places_later { snap.old.places ≤ snap.new.places }
    ensures ahead_later { snap.old.ahead ≤ snap.new.ahead }
{
    // Neither count is above the last one, so neither falls.
    let _ = (snap.places(), snap.ahead());
    let pass = worker.pass();
    snap.take(pass);
    pass.front()
}

// There was no place at all.
fn unplaced(alloc: Global) -> Result<Text, NoMemory>
    ensures { IfOk result (λ text. text ≡ line_of place_data) }
{
    let mut text = String::new(alloc);
    push_place(alloc, &mut text)?;
    Ok(Text::from_vec(text.into_bytes()))
}

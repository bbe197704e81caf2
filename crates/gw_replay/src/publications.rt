//! Publications.
ghost use Rattle.std.specs.Prelude.{◌≡◌, ℕ, List, OnOk};
ghost use Rattle.gw_store.specs.declared.event.Entry.{Entry as Change};
ghost use Rattle.gw_text.specs.model.Doors.{Door};
ghost use Rattle.gw_replay.specs.Replays.{Publishes};
ghost use Rattle.gw_replay.specs.States.{Does, HaveSeen, IsKept, picks_of};

use crate::print::push_front;
use crate::replay::Replay;
use gw_match::Tables;
use gw_snap::Note;
use gw_text::NoMemory;
use gw_worker::Worker;
use std::sync::Wait;

impl<R: Wait + Drop> Replay<R> {
    /// Publishes all changes, of which every worker learns.
    pub(crate) fn publish<W: Wait>(&mut self, rt: &W, number: u64) -> Result<(), NoMemory>
        requires { IsKept self.old }
        ensures does { OnOk result (Does (λ s s' text. Publishes number s s' text) self.old self.new) }
        ensures refused { self.new.refused ≡ self.old.refused }
        ensures skipped { self.new.skipped ≡ self.old.skipped }
    {
        let mut note = self.controller.publish(rt)?;
        learn_all(&mut self.workers, &mut note);
        push_front(self.alloc, &mut self.text, self.controller.front(), number)
    }
}

// Every worker learns of the publication.
fn learn_all(workers: &mut [Worker], note: &mut Note<Tables>)
    requires { (list : List Change) × ((fixed : List Door × List ℕ) × HaveSeen list fixed note.old.book workers.old) }
    ensures seen { (list : List Change) (fixed : List Door × List ℕ) → HaveSeen list fixed note.old.book workers.old
        → HaveSeen note.old.list fixed note.old.book workers.new }
    ensures picks { picks_of workers.new ≡ picks_of workers.old }
{
    'workers: for place in 0..workers.len() {
        workers[place].learn(note);
    }
}

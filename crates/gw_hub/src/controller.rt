ghost use Rattle.std.specs.Prelude.{◌≡◌, ◌<◌, ◌^◌, ◌↔◌, ◌++◌, ◌∷◌, [], length, IfOk, IfErr, OnOk, OnErr, IsTrue, MatchBool};
ghost use Rattle.gw_json.specs.Words.{Fails};
ghost use Rattle.gw_match.specs.model.Telling.{change_of, world_after};
ghost use Rattle.gw_resolve.specs.Cores.{with_rooms};
ghost use Rattle.gw_resolve.specs.Outcomes.{IsStep};
ghost use Rattle.gw_snap.specs.Counts.{CountsPlace, Rises};
ghost use Rattle.gw_snap.specs.Lists.{BeginsWith, copies, fresh};
ghost use Rattle.gw_store.specs.Events.{answer};
ghost use Rattle.gw_text.specs.model.Statuses.{statuses_of};
ghost use Rattle.gw_hub.specs.Control.{Appends, Comes, beginning};

use gw_json::Refusal;
use gw_match::Tables;
use gw_resolve::{Core, Outcome, Prepared, Step};
use gw_snap::{Note, OpenFault, Pass, Passes, Publisher, SnapFaults, snapshots};
use gw_status::Statuses;
use gw_text::{Doors, NoMemory, Second, Steps, Text};
use std::alloc::Global;
use std::marker::{Brand, Model};
use std::sync::Wait;
use std::sync::ledger::{Blank, Ledger};

/// The objects that are held, evaluated for some doors under a controller's name, and who publishes the tables after each change. Its end
/// waits for those who still read, and whoever reads after it is refused.
pub struct Controller<R: Wait + Drop> {
    alloc: Global,
    core: Core,
    publisher: Publisher<Tables, R>,
}

// Written out, so that crates above don't prove anew how each object is dropped.
impl<R: Wait + Drop> Drop for Controller<R> {
    fn drop(self) {
        let Controller {
            alloc: _,
            core: _,
            publisher: _,
        } = self;
    }
}

impl<R: Wait + Drop> Model for Controller<R> {
    ghost use Rattle.gw_hub.specs.Control.{Control, Follows};

    ghost Value = { Control };

    ghost view = { λ c. record {
      changes = c.publisher.pending;
      published = c.publisher.published;
      doors = c.core.doors;
      controller = c.core.controller;
      book = c.publisher.book;
    } };

    ghost invariant = { λ c. Follows c.core c.publisher };
}

impl<R: Wait + Drop> Controller<R> {
    /// A controller that took no change, and as many passes as places. The handle stays with the controller, whose end needs it.
    pub fn open(
        alloc: Global,
        rt: R,
        faults: &mut SnapFaults,
        doors: Doors,
        controller: Text,
        places: usize,
    ) -> Result<(Controller<R>, Passes<Tables>), OpenFault>
        requires some { 0 < places }
        requires few { places < 2 ^ 32 }
        ensures controller { IfOk result (λ opened. opened.0 ≡ beginning doors controller opened.0.book) }
        ensures passes { IfOk result (λ opened. opened.1 ≡ copies places (fresh (doors, controller) opened.0.book)) }

        // A place that was refused is counted, and nothing else is.
        ensures ok { OnOk result (faults.new.places ≡ faults.old.places) }
        ensures places { IfErr result (λ e. CountsPlace e faults.old.places faults.new.places) }
        ensures ahead { faults.new.ahead ≡ faults.old.ahead }
    {
        let core = Core::new(alloc, doors, controller)?;
        let tables = core.tables()?;
        let (publisher, passes) = snapshots(alloc, rt, faults, tables, places)?;
        let controller = Controller {
            alloc,
            core,
            publisher,
        };
        Ok((controller, passes))
    }

    /// Takes the change that a line of a watch says, which came at this moment. Where the line is refused, or memory was wanted, all is as
    /// before.
    pub fn change(&mut self, line: &[u8], at: Second) -> Result<Outcome, Refusal>
        ensures comes { IfOk result (λ outcome. Comes (answer (world_after self.old.changes) line.now) at outcome self.old.changes self.new.changes) }
        ensures refused { IfErr result (λ e. Fails e (answer (world_after self.old.changes) line.now)) }
        ensures same { OnErr result (self.new.changes ≡ self.old.changes) }

        ensures published { self.new.published ≡ self.old.published }
        ensures doors { self.new.doors ≡ self.old.doors }
        ensures controller { self.new.controller ≡ self.old.controller }
        ensures book { self.new.book ≡ self.old.book }
    {
        match prepare::<Brand>(&mut self.core, line, at, Blank::new(1))? {
            Step::Ready(prepared) => {
                if let Err(fault) = append(self.alloc, &mut self.publisher, &prepared) {
                    // Dropped by name: at the return its many parts would be dropped one by one, and be part of what is to show there.
                    drop(prepared);
                    return Err(Refusal::from(fault));
                }
                self.core.commit(prepared);
                Ok(Outcome::Accepted)
            }
            Step::Skipped => Ok(Outcome::Skipped),
        }
    }

    /// Publishes all changes that were taken, and waits for those who still read what was published before. The note tells of it to
    /// passes.
    pub fn publish<W: Wait>(&mut self, rt: &W) -> Result<Note<Tables>, NoMemory>
        ensures ok { OnOk result (self.new.published ≡ self.old.changes) }
        ensures err { OnErr result (self.new.published ≡ self.old.published) }
        ensures note { IfOk result (λ note. note.list ≡ self.old.changes) }
        ensures of { IfOk result (λ note. note.book ≡ self.old.book) }

        ensures changes { self.new.changes ≡ self.old.changes }
        ensures doors { self.new.doors ≡ self.old.doors }
        ensures controller { self.new.controller ≡ self.old.controller }
        ensures book { self.new.book ≡ self.old.book }
    {
        self.publisher.publish(rt)
    }

    /// The statuses after the changes that were taken.
    pub fn statuses(&self) -> &Statuses
        ensures { result.now ≡ statuses_of self.now.doors self.now.controller (world_after self.now.changes) }
    {
        let _ = &self.publisher;
        self.core.statuses()
    }

    /// How many changes were taken.
    pub fn changes(&self) -> u64
        ensures count { result ≡ length self.now.changes }
        ensures begins { BeginsWith self.now.published self.now.changes }
    {
        let _ = &self.publisher;
        self.core.changes()
    }

    /// How many changes are published.
    pub fn front(&self) -> u64
        ensures published { result ≡ length self.now.published }
        ensures begins { BeginsWith self.now.published self.now.changes }
    {
        self.publisher.front()
    }

    /// How many doors there are.
    pub fn doors(&self) -> usize
        ensures { result ≡ length self.now.doors }
    {
        self.core.doors()
    }

    /// Whether the pass has seen more than is published, which is counted. Nobody should ever find it so.
    pub fn ahead(&self, pass: &mut Pass<Tables>) -> bool
        requires { pass.old.book ≡ self.now.book }
        ensures answer { IsTrue result ↔ (length self.now.published < length pass.old.seen) }
        ensures ahead { MatchBool result (Rises pass.old.ahead pass.new.ahead) (pass.new.ahead ≡ pass.old.ahead) }

        ensures seen { pass.new.seen ≡ pass.old.seen }
        ensures fixed { pass.new.fixed ≡ pass.old.fixed }
        ensures book { pass.new.book ≡ pass.old.book }
        ensures refused { pass.new.refused ≡ pass.old.refused }
    {
        pass.ahead_of(&self.publisher)
    }
}

// Prepares the change of a line. Nobody asks for the steps that it takes.
fn prepare<L: Ledger>(
    core: &mut Core,
    line: &[u8],
    at: Second,
    blank: Blank,
) -> Result<Step, Refusal>
    requires name { blank.name ≡ L.name }
    requires parts { blank.parts ≡ L.parts }
    requires positive { 0 < L.parts }
    ensures same { core.new ≡ with_rooms core.old core.new }
    ensures step { IfOk result (IsStep (answer core.old.store.world line.now) at core.new) }
    ensures refused { IfErr result (λ e. Fails e (answer core.old.store.world line.now)) }
{
    let mut steps: Steps<L> = Steps::open(blank);
    core.prepare(line, at, &mut steps)
}

// Appends a change that is prepared, and the tables after it.
fn append<R: Wait + Drop>(
    alloc: Global,
    publisher: &mut Publisher<Tables, R>,
    prepared: &Prepared,
) -> Result<(), NoMemory>
    requires follows { prepared.now.core.store.world ≡ world_after publisher.old.pending }
    requires fixed { publisher.old.fixed ≡ (prepared.now.core.doors, prepared.now.core.controller) }
    requires begins { BeginsWith publisher.old.published publisher.old.pending }
    ensures ok { OnOk result (Appends prepared.now.change publisher.old.pending publisher.new.pending) }
    ensures err { OnErr result (publisher.new.pending ≡ publisher.old.pending) }
    ensures published { publisher.new.published ≡ publisher.old.published }
    ensures begins { BeginsWith publisher.new.published publisher.new.pending }
    ensures fixed { publisher.new.fixed ≡ publisher.old.fixed }
    ensures book { publisher.new.book ≡ publisher.old.book }
{
    let entry = prepared.entry(alloc)?;
    let tables = prepared.tables()?;
    match publisher.append(entry, tables) {
        Ok(()) => Ok(()),
        Err(_) => Err(NoMemory),
    }
}

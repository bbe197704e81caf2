ghost use Rattle.std.specs.Prelude.{◌≡◌, ◌+◌, ◌≤◌, false, length, IfOk, IfErr, OnOk, OnErr};
ghost use Rattle.std.specs.Arc.{arc_value};
ghost use Rattle.gw_json.specs.Words.{Fails};
ghost use Rattle.gw_store.specs.Events.{answer};
ghost use Rattle.gw_store.specs.SeenEvents.{seen_event};
ghost use Rattle.gw_text.specs.model.Statuses.{statuses_of};
ghost use Rattle.gw_text.specs.model.World.{is_full, nothing};
ghost use Rattle.gw_resolve.specs.Cores.{tables_at, with_rooms, world_with};
ghost use Rattle.gw_resolve.specs.Outcomes.{Adds, Comes, IsStep, TakesSteps};
ghost use Rattle.gw_resolve.specs.declared.resolver.Step.TheVariants.{Ready};

use crate::evaluation::{Evaluation, evaluate, evaluate_nothing};
use crate::outcome::Outcome;
use crate::prepared::Prepared;
use crate::staying::others_stay;
use gw_deps::{Index, touched};
use gw_json::Refusal;
use gw_kept::KeptRoutes;
use gw_match::Tables;
use gw_status::Statuses;
use gw_store::{Event, Read, World, read_event};
use gw_text::{Doors, NoMemory, Second, Steps, Text};
use std::alloc::Global;
use std::marker::{Brand, Model};
use std::snapshot::Snapshot;
use std::sync::Arc;
use std::sync::ledger::{Blank, Ledger};

/// The objects that are held, with their statuses and the tables of some doors under a controller's name, and what is kept of them so
/// that a change costs what it touches.
pub struct Core {
    alloc: Global,
    doors: Arc<Doors>,
    controller: Arc<Text>,
    world: World,
    index: Index,
    kept: KeptRoutes,
    statuses: Statuses,
    tables: Arc<Tables>,
}

// Written out, so that crates above don't prove anew how each object is dropped.
impl Drop for Core {
    fn drop(self) {
        let Core {
            alloc: _,
            doors: _,
            controller: _,
            world: _,
            index: _,
            kept: _,
            statuses: _,
            tables: _,
        } = self;
    }
}

impl Model for Core {
    ghost use Rattle.std.specs.Arc.{arc_value};
    ghost use Rattle.gw_resolve.specs.Cores.{Core as Plain, IsCore};

    ghost Value = { Plain };

    ghost view = { λ c. record { store = c.world; doors = arc_value c.doors; controller = arc_value c.controller; index = c.index } };

    ghost invariant = { λ c. IsCore c.kept c.statuses (arc_value c.tables) (record { store = c.world; doors = arc_value c.doors; controller = arc_value c.controller; index = c.index }) };
}

/// What a line is to do to a core.
#[derive(Drop)]
pub enum Step {
    /// A change, which is evaluated.
    Ready(Prepared),
    /// Nothing.
    Skipped,
}

impl Core {
    /// Holds nothing.
    pub fn new(alloc: Global, doors: Doors, controller: Text) -> Result<Core, NoMemory>
        ensures world { IfOk result (λ core. core.store.world ≡ nothing) }
        ensures doors { IfOk result (λ core. core.doors ≡ doors) }
        ensures controller { IfOk result (λ core. core.controller ≡ controller) }
    {
        let doors = Arc::new(alloc, doors)?;
        let controller = Arc::new(alloc, controller)?;
        let world = World::new(alloc);
        let Evaluation {
            kept,
            statuses,
            tables,
        } = evaluate_nothing::<Brand>(alloc, &doors, &controller, &world, Blank::new(1))?;
        Ok(Core {
            alloc,
            doors,
            controller,
            world,
            index: Index::new(alloc),
            kept,
            statuses,
            tables,
        })
    }

    /// Evaluates the change that a line of a watch says, which came at this moment, and leaves the core as it was, with room for the change.
    /// A step for each Route and each Gateway that the change touches.
    #[tactic(auto, unfolding(gw_store::specs::Events::answer))]
    pub fn prepare<L: Ledger>(
        &mut self,
        line: &[u8],
        at: Second,
        steps: &mut Steps<L>,
    ) -> Result<Step, Refusal>
        ensures same { self.new ≡ with_rooms self.old self.new }
        ensures step { IfOk result (IsStep (answer self.old.store.world line.now) at self.new) }
        ensures refused { IfErr result (λ e. Fails e (answer self.old.store.world line.now)) }
        ensures steps { IfOk result (Adds steps.old steps.new) }
    {
        let Read::Change(event) = read_event(self.alloc, line)? else {
            return Ok(Step::Skipped);
        };
        self.world.check(&event)?;
        let prepared = self.evaluated(event, at, steps)?;
        Ok(Step::Ready(prepared))
    }

    // A change for which there is room, evaluated between a trial and its way back.
    fn evaluated<L: Ledger>(
        &mut self,
        event: Event,
        at: Second,
        steps: &mut Steps<L>,
    ) -> Result<Prepared, NoMemory>
        requires { is_full self.old.store.world (seen_event event) ≡ false }
        ensures same { self.new ≡ with_rooms self.old self.new }
        ensures prepared { IfOk result (λ p. p ≡ record { core = self.new; change = record { event = seen_event event; at = at } }) }
        ensures steps { IfOk result (λ p. Adds steps.old steps.new (Ready p)) }
    {
        let touched = touched(self.alloc, &self.index, &self.world, &event)?;
        others_stay(
            &self.world,
            &self.doors,
            &self.controller,
            &self.kept,
            &self.statuses.gateways,
            &event,
            &touched,
        );
        self.world.reserve()?;
        let trial = self.world.trial(event, at);
        let evaluation = evaluate(
            self.alloc,
            &self.doors,
            &self.controller,
            &self.world,
            &self.kept,
            &self.statuses.gateways,
            &touched,
            steps,
        );
        let event = self.world.back(trial);
        let evaluation = evaluation?;
        let patch = self.index.prepare(self.alloc, &self.world, &event)?;
        let Evaluation {
            kept,
            statuses,
            tables,
        } = evaluation;
        Ok(Prepared {
            event,
            at,
            kept,
            statuses,
            tables,
            patch,
            core: Snapshot::of(self),
        })
    }

    /// Does a change that was prepared on the core as it is. Takes no memory.
    pub fn commit(&mut self, p: Prepared)
        requires { p.core ≡ self.old }
        ensures world { self.new.store.world ≡ world_with p }
        ensures doors { self.new.doors ≡ self.old.doors }
        ensures controller { self.new.controller ≡ self.old.controller }
    {
        let Prepared {
            event,
            at,
            kept,
            statuses,
            tables,
            patch,
            core: _,
        } = p;
        self.world.put(event, at);
        self.index.apply(patch);
        self.kept = kept;
        self.statuses = statuses;
        self.tables = tables;
    }

    /// Does the change that a line of a watch says, which came at this moment. Where the line is refused, or memory was wanted, all is as before.
    pub fn change<L: Ledger>(
        &mut self,
        line: &[u8],
        at: Second,
        steps: &mut Steps<L>,
    ) -> Result<Outcome, Refusal>
        ensures comes { IfOk result (λ outcome. Comes (answer self.old.store.world line.now) at outcome self.old.store.world self.new.store.world) }
        ensures refused { IfErr result (λ e. Fails e (answer self.old.store.world line.now)) }
        ensures same { OnErr result (self.new.store.world ≡ self.old.store.world) }
        ensures doors { self.new.doors ≡ self.old.doors }
        ensures controller { self.new.controller ≡ self.old.controller }
        ensures steps { IfOk result (λ outcome. TakesSteps (answer self.old.store.world line.now) at outcome self.old.store.world steps.old steps.new) }
    {
        match self.prepare(line, at, steps)? {
            Step::Ready(prepared) => {
                self.commit(prepared);
                Ok(Outcome::Accepted)
            }
            Step::Skipped => Ok(Outcome::Skipped),
        }
    }

    /// The statuses of the objects.
    pub fn statuses(&self) -> &Statuses
        ensures { result.now ≡ statuses_of self.now.doors self.now.controller self.now.store.world }
    {
        &self.statuses
    }

    /// The tables of the doors.
    pub fn tables(&self) -> Result<Arc<Tables>, NoMemory>
        ensures { IfOk result (λ tables. arc_value tables ≡ tables_at self.now.doors self.now.controller self.now.store.world) }
    {
        self.tables.clone()
    }

    /// The objects.
    pub fn world(&self) -> &World
        ensures { result.now ≡ self.now.store }
    {
        &self.world
    }

    /// How many changes were done.
    pub fn changes(&self) -> u64
        ensures { result ≡ self.now.store.world.changes }
    {
        self.world.changes()
    }

    /// How many doors there are.
    pub fn doors(&self) -> usize
        ensures { result ≡ length self.now.doors }
    {
        self.doors.doors().len()
    }
}

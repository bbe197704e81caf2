//! The lines of a script, one after the other.
ghost use Rattle.std.specs.Prelude.{◌≡◌, ◌+◌, ◌<◌, ◌≤◌, ◌^◌, length, Ok, IfErr, OnOk};
ghost use Rattle.gw_link.specs.declared.source.TheConstants.{MOST_INPUT};
ghost use Rattle.gw_store.specs.Lines.{is_blank as is_blank_line, lines_of};
ghost use Rattle.gw_script.specs.Refusals.{step_refusal_number, step_refusal_path};
ghost use Rattle.gw_script.specs.Seen.{seen_step};
ghost use Rattle.gw_script.specs.Steps.{IsWithin};
ghost use Rattle.gw_replay.specs.Replays.{IsRefused, LineDone, SendsOn, StepDone};
ghost use Rattle.gw_replay.specs.States.{Does, DoesInTurn, HaltsAt, IsKept, RunsTo, Sends, StopsIn, site_of};

use crate::replay::Replay;
use crate::stop::Stop;
use gw_link::{Clock, MOST_INPUT, Order};
use gw_script::{Step, StepRefusal, read_step};
use gw_store::{first_line, is_blank};
use gw_text::NoMemory;
use std::alloc::AllocGlobal;
use std::random::RandomSource;
use std::sync::Wait;

impl<R: Wait + Drop> Replay<R> {
    /// Does what the lines of an input say, in their order.
    pub(crate) fn lines<W: Wait + RandomSource + AllocGlobal, C: Clock>(
        &mut self,
        rt: &W,
        input: &[u8],
        clock: &mut C,
    ) -> Result<(), Stop>
        requires kept { IsKept self.old }
        requires none { self.old.refused + self.old.skipped ≡ 0 }
        requires bound { length input.now ≤ MOST_INPUT }
        ensures runs { OnOk result (RunsTo 1 (lines_of input.now) (C.moments clock.old) (C.moments clock.new) self.old self.new) }
        ensures stops { IfErr result (λ stop. StopsIn stop 1 (lines_of input.now) (C.moments clock.old) self.old self.new) }
    {
        let mut rest = Some(input);
        let mut number = 1u64;
        'lines: while let Some(text) = rest {
            let (line, left) = first_line(text);
            self.line(rt, number, line, clock)?;
            number += 1;
            rest = left;
        }
        Ok(())
    }

    fn line<W: Wait + RandomSource + AllocGlobal, C: Clock>(
        &mut self,
        rt: &W,
        number: u64,
        line: &[u8],
        clock: &mut C,
    ) -> Result<(), Stop>
        requires kept { IsKept self.old }
        requires few { self.old.refused + self.old.skipped < number }
        requires bound { number < 2 ^ 63 }
        ensures does { OnOk result (DoesInTurn (λ moments s s' text. LineDone (is_blank_line line.now) (site_of self.old) number line.now moments s s' text)
            (C.moments clock.old) (C.moments clock.new) self.old self.new) }
        ensures stops { IfErr result (λ stop. HaltsAt stop (Sends (length self.old.workers.items) (length (site_of self.old).doors) line.now) self.old self.new) }
        ensures few { OnOk result (self.new.refused + self.new.skipped ≤ number) }
    {
        if is_blank(line) {
            return Ok(());
        }
        let doors = self.controller.doors();
        match read_step(self.alloc, line, self.workers.len(), doors) {
            Ok(step) => self.step(rt, number, step, clock),
            Err(refusal) => Ok(self.refuse_line(number, refusal)?),
        }
    }

    fn step<W: Wait + RandomSource + AllocGlobal, C: Clock>(
        &mut self,
        rt: &W,
        number: u64,
        step: Step<'_>,
        clock: &mut C,
    ) -> Result<(), Stop>
        requires kept { IsKept self.old }
        requires few { self.old.refused + self.old.skipped < number }
        requires bound { number < 2 ^ 63 }
        requires within { IsWithin (length self.old.workers.items) (length (site_of self.old).doors) (seen_step step) }
        ensures does { OnOk result (DoesInTurn (λ moments s s' text. StepDone (site_of self.old) number (seen_step step.entry) moments s s' text)
            (C.moments clock.old) (C.moments clock.new) self.old self.new) }
        ensures stops { IfErr result (λ stop. HaltsAt stop (λ s. SendsOn (Ok (seen_step step.entry)) s.clients) self.old self.new) }
        ensures few { OnOk result (self.new.refused + self.new.skipped ≤ number) }
    {
        match step {
            Step::Event(event) => Ok(self.event(number, event, clock.now())?),
            Step::Publish => Ok(self.publish(rt, number)?),
            Step::Open { name, worker, door } => Ok(self.open(number, name, worker, door)?),
            Step::Send { name, bytes } => self.send(rt, number, name, bytes.as_slice()),
            Step::End { name } => self.send(rt, number, name, &[]),
            Step::Answer { socket, text, fill } => Ok(self.answer(socket, text, fill)?),
            Step::Fail { socket, call } => Ok(self.order(Order::Fails(socket, call))?),
        }
    }

    /// Refuses a line that says no step.
    pub(crate) fn refuse_line(&mut self, number: u64, refusal: StepRefusal) -> Result<(), NoMemory>
        requires { self.old.refused < 2 ^ 63 }
        ensures does { OnOk result (Does (λ s s' text. IsRefused number (step_refusal_number refusal) (step_refusal_path refusal) s s' text) self.old self.new) }
        ensures named { OnOk result (refusal ≡ StepRefusal.NoMemory → ⊥) }
        ensures refused { OnOk result (self.new.refused ≡ self.old.refused + 1) }
        ensures skipped { OnOk result (self.new.skipped ≡ self.old.skipped) }
    {
        if refusal == StepRefusal::NoMemory {
            return Err(NoMemory);
        }
        self.refuse(number, refusal.number(), refusal.path())
    }
}

//! Events of a script.
ghost use Rattle.std.specs.Prelude.{◌≡◌, ◌+◌, ◌<◌, ◌≤◌, ◌^◌, OnOk, option_map};
ghost use Rattle.gw_json.specs.Refusals.{refusal_number, refusal_path};
ghost use Rattle.gw_match.specs.model.Telling.{world_after};
ghost use Rattle.gw_store.specs.Events.{answer};
ghost use Rattle.gw_replay.specs.Replays.{EventDone, IsRefused};
ghost use Rattle.gw_replay.specs.States.{Does, IsKept, skipped_after};

use crate::print::push_refused;
use crate::replay::Replay;
use gw_json::Refusal;
use gw_resolve::Outcome;
use gw_text::{NoMemory, Second};
use std::sync::Wait;

impl<R: Wait + Drop> Replay<R> {
    /// Takes an event that came at this moment, or refuses its line.
    pub(crate) fn event(&mut self, number: u64, event: &[u8], now: Second) -> Result<(), NoMemory>
        requires kept { IsKept self.old }
        requires few { self.old.refused + self.old.skipped < number }
        requires bound { number < 2 ^ 63 }
        ensures does { OnOk result (Does (λ s s' text. EventDone number now (answer (world_after s.changes) event.now) s s' text) self.old self.new) }
        ensures few { OnOk result (self.new.refused + self.new.skipped ≤ number) }
    {
        match self.controller.change(event, now) {
            Ok(outcome) => {
                self.count(outcome);
                Ok(())
            }
            Err(refusal) => self.refuse_event(number, &refusal),
        }
    }

    // Counts an event that is no change.
    fn count(&mut self, outcome: Outcome)
        requires { self.old.skipped < 2 ^ 63 }
        ensures { self.new ≡ record self.old { skipped = skipped_after outcome self.old.skipped } }
    {
        match outcome {
            Outcome::Accepted => {}
            Outcome::Skipped => self.skipped += 1,
        }
    }

    fn refuse_event(&mut self, number: u64, refusal: &Refusal) -> Result<(), NoMemory>
        requires { self.old.refused < 2 ^ 63 }
        ensures does { (refusal.now ≡ Refusal.NoMemory → ⊥) →
            OnOk result (Does (λ s s' text. IsRefused number (refusal_number refusal.now) (refusal_path refusal.now) s s' text) self.old self.new) }
        ensures named { OnOk result (refusal.now ≡ Refusal.NoMemory → ⊥) }
        ensures refused { OnOk result (self.new.refused ≡ self.old.refused + 1) }
        ensures skipped { OnOk result (self.new.skipped ≡ self.old.skipped) }
    {
        if matches!(refusal, Refusal::NoMemory) {
            return Err(NoMemory);
        }
        let path = refusal.path();
        self.refuse(number, refusal.number(), path.map(|path| path.as_str()))
    }

    /// Refuses a line, by the refusal of this number, and with this path.
    pub(crate) fn refuse(
        &mut self,
        line: u64,
        refusal: u8,
        path: Option<&str>,
    ) -> Result<(), NoMemory>
        requires { self.old.refused < 2 ^ 63 }
        ensures does { OnOk result (Does (λ s s' text. IsRefused line refusal (option_map (λ p. p.now) path.entry) s s' text) self.old self.new) }
        ensures refused { OnOk result (self.new.refused ≡ self.old.refused + 1) }
        ensures skipped { OnOk result (self.new.skipped ≡ self.old.skipped) }
    {
        push_refused(self.alloc, &mut self.text, line, refusal, path)?;
        self.refused += 1;
        Ok(())
    }
}

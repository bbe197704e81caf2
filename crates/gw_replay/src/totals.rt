//! The last line.
ghost use Rattle.std.specs.Prelude.{◌≡◌, ℕ, ◌+◌, ◌<◌, ◌^◌, ◌++◌, List, length, nat_lt, IfOk, OnOk, string_bytes};
ghost use Rattle.serde_json.specs.View.{members_view, view};
ghost use Rattle.gw_replay.specs.Lines as lines;
ghost use Rattle.gw_replay.specs.Replays.{State, totals_text};
ghost use Rattle.gw_replay.specs.States.{AreAtMost, Keeps};

use crate::ending::Ending;
use crate::replay::Replay;
use gw_json::{push_line, put_number};
use gw_text::NoMemory;
use serde_json::{Map, Value, json};
use std::alloc::Global;
use std::sync::Wait;

impl<R: Wait + Drop> Replay<R> {
    /// Writes the last line: what was taken, published, refused and skipped, and the rows by their statuses.
    pub(crate) fn end(&mut self) -> Result<Ending, NoMemory>
        ensures text { OnOk result ((s : State) → Keeps self.old s → string_bytes self.new.text ≡ string_bytes self.old.text ++ totals_text s) }
        ensures ending { IfOk result (λ ending. ending ≡ Ending.Done (nat_lt 0 self.old.refused)) }
    {
        let value = self.totals()?;
        push_line(self.alloc, &mut self.text, &value)?;
        Ok(Ending::Done(self.refused > 0))
    }

    fn totals(&self) -> Result<Value, NoMemory>
        ensures { IfOk result (λ v. view v ≡ lines.totals_data (length self.now.controller.changes) (length self.now.controller.published) self.now.refused self.now.statuses.items self.now.skipped) }
    {
        let statuses = statuses_value(self.alloc, self.statuses.as_slice())?;
        json!(in self.alloc; {
            "changes": self.controller.changes(),
            "front": self.controller.front(),
            "refused": self.refused,
            "requests": self.statuses.len(),
            "skipped": self.skipped,
            "statuses": statuses,
        })
    }
}

// How many rows have each status.
#[tactic(auto, unfolding(crate::specs::Lines::statuses_data))]
fn statuses_value(alloc: Global, statuses: &[u16]) -> Result<Value, NoMemory>
    ensures { IfOk result (λ v. view v ≡ lines.statuses_data statuses.now) }
{
    let counts = counts_of(alloc, statuses)?;
    let mut members = Map::new(alloc);
    'counts: for count in counts.as_slice() {
        let status = format!(in alloc; "{}", count.0)?;
        put_number(alloc, &mut members, status.as_str(), count.1)?;
    }
    Ok(Value::from(members))
}

// Each status with its number, in the order in which each came first.
fn counts_of(alloc: Global, statuses: &[u16]) -> Result<Vec<(u16, u64)>, NoMemory>
    ensures { IfOk result (λ counts. counts.items ≡ lines.counts_of statuses.now) }
{
    let mut counts = Vec::new(alloc);
    'statuses: for status in statuses {
        count(&mut counts, *status)?;
    }
    Ok(counts)
}

// One more of the status.
fn count(counts: &mut Vec<(u16, u64)>, status: u16) -> Result<(), NoMemory>
    requires { (n : ℕ) × (AreAtMost n counts.old.items × (n < 2 ^ 63)) }
    ensures counted { OnOk result (counts.new.items ≡ lines.one_more counts.old.items status) }
    ensures few { OnOk result ((n : ℕ) → AreAtMost n counts.old.items → AreAtMost (n + 1) counts.new.items) }
{
    'counts: for place in 0..counts.len() {
        if counts[place].0 == status {
            counts[place].1 += 1;
            return Ok(());
        }
    }
    counts.push((status, 1))?;
    Ok(())
}

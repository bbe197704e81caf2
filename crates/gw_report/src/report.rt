ghost use Rattle.std.specs.Prelude.{◌≡◌, ◌+◌, ◌<◌, ◌≤◌, ◌^◌, [], ◌∷◌, ◌++◌, false, length, IfOk, IfErr, OnOk, OnErr, string_bytes};
ghost use Rattle.gw_json.specs.Words.{Fails};
ghost use Rattle.gw_text.specs.model.World.{is_full, apply};
ghost use Rattle.gw_link.specs.declared.source.TheConstants.{MOST_INPUT};
ghost use Rattle.gw_store.specs.Events.{a_change, answer, taken};
ghost use Rattle.gw_store.specs.SeenEvents.{seen_event};
ghost use Rattle.gw_store.specs.Lines.{lines_of, lines_left};
ghost use Rattle.gw_report.specs.Reports.{Applies, IsReport, Takes, Refuses};

use crate::print::refused_value;
use gw_json::{Path, Refusal, push_line};
use gw_link::{Clock, MOST_INPUT};
use gw_store::{Event, Read, World, first_line, is_blank, read_event};
use gw_text::{NoMemory, Second};
use std::alloc::Global;

/// What stands after the lines that were read so far.
#[derive(Drop)]
pub struct Report {
    pub world: World,
    /// The text of the refused lines.
    pub text: String,
    pub refused: u64,
    pub skipped: u64,
}

/// Answers all lines of an input, in their order.
pub fn apply_lines<C: Clock>(alloc: Global, input: &[u8], clock: &mut C) -> Result<Report, NoMemory>
    requires { length input.now ≤ MOST_INPUT }
    ensures { IfOk result (IsReport (lines_of input.now) (C.moments clock.old) (C.moments clock.new)) }
{
    let mut report = Report {
        world: World::new(alloc),
        text: String::new(alloc),
        refused: 0,
        skipped: 0,
    };
    let mut rest = Some(input);
    let mut number = 1u64;
    'lines: while let Some(text) = rest {
        let (line, left) = first_line(text);
        apply_line(alloc, &mut report, number, line, clock)?;
        number += 1;
        rest = left;
    }
    Ok(report)
}

// The clock is read before the line is, and not for a blank one.
fn apply_line<C: Clock>(
    alloc: Global,
    report: &mut Report,
    number: u64,
    line: &[u8],
    clock: &mut C,
) -> Result<(), NoMemory>
    requires few { report.old.refused + report.old.skipped < number }
    requires bound { number < 2 ^ 63 }
    ensures applies { OnOk result (Applies number (line.now ∷ []) (C.moments clock.old) (C.moments clock.new) report.old report.new) }
    ensures few { OnOk result (report.new.refused + report.new.skipped ≤ number) }
    ensures kept { OnErr result (report.new.world.world ≡ report.old.world.world) }
{
    if is_blank(line) {
        return Ok(());
    }
    let now = clock.now();
    match take_line(alloc, report, line, now) {
        Ok(()) => Ok(()),
        Err(refusal) => refuse(alloc, report, number, &refusal),
    }
}

// Does what the line says, if it isn't refused.
#[tactic(auto, unfolding(gw_store::specs::Events::answer))]
fn take_line(alloc: Global, report: &mut Report, line: &[u8], now: Second) -> Result<(), Refusal>
    requires { report.old.skipped < 2 ^ 63 }
    ensures ok { OnOk result (Takes line.now now report.old report.new) }
    ensures err { IfErr result (λ e. Fails e (answer report.old.world.world line.now)) }
    ensures kept { OnErr result (report.new.world.world ≡ report.old.world.world) }
    ensures skipped { OnErr result (report.new.skipped ≡ report.old.skipped) }
    ensures text { string_bytes report.new.text ≡ string_bytes report.old.text }
    ensures refused { report.new.refused ≡ report.old.refused }
{
    match read_event(alloc, line)? {
        Read::Change(event) => change(&mut report.world, event, now),
        Read::Skipped => {
            report.skipped += 1;
            Ok(())
        }
    }
}

// All that may fail comes before the world is changed.
fn change(world: &mut World, event: Event, now: Second) -> Result<(), Refusal>
    ensures ok { OnOk result ((is_full world.old.world (seen_event event) ≡ false) × (world.new.world ≡ apply world.old.world (record { event = seen_event event; at = now }))) }
    ensures err { IfErr result (λ e. Fails e (taken world.old.world (a_change (seen_event event)))) }
    ensures kept { OnErr result (world.new.world ≡ world.old.world) }
{
    world.check(&event)?;
    world.reserve()?;
    world.put(event, now);
    Ok(())
}

fn refuse(
    alloc: Global,
    report: &mut Report,
    number: u64,
    refusal: &Refusal,
) -> Result<(), NoMemory>
    requires { report.old.refused < 2 ^ 63 }
    ensures ok { OnOk result (Refuses number refusal.now report.old report.new) }
    ensures kept { report.new.world ≡ report.old.world }
    ensures counted { OnOk result (report.new.refused ≡ report.old.refused + 1) }
    ensures skipped { report.new.skipped ≡ report.old.skipped }
{
    if matches!(refusal, Refusal::NoMemory) {
        return Err(NoMemory);
    }
    let path = refusal.path().map(Path::as_str);
    let value = refused_value(alloc, number, refusal.number(), path)?;
    push_line(alloc, &mut report.text, &value)?;
    report.refused += 1;
    Ok(())
}

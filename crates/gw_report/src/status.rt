ghost use Rattle.std.specs.Prelude.{◌≡◌, ◌<◌, ◌≤◌, ◌++◌, length, IfOk, OnOk, string_bytes};
ghost use Rattle.gw_text.specs.model.Statuses.{statuses_of};
ghost use Rattle.gw_json.specs.Lines.{line_of};
ghost use Rattle.gw_link.specs.declared.source.TheConstants.{MOST_INPUT};
ghost use Rattle.gw_status.specs.StatusText.{statuses_text};
ghost use Rattle.gw_report.specs.Outputs.{IsOutputBy};
ghost use Rattle.gw_report.specs.RunText as texts;

use crate::output::Output;
use crate::print::summary_value;
use crate::report::{Report, apply_lines};
use gw_eval::eval_all;
use gw_json::push_line;
use gw_link::{Clock, MOST_INPUT};
use gw_status::{Statuses, push_statuses};
use gw_store::World;
use gw_text::{Doors, NoMemory, Steps, Text};
use std::alloc::Global;
use std::marker::Brand;
use std::mem;
use std::sync::ledger::{Blank, Ledger};

/// What `status` writes of an input: its refused lines, the statuses of the objects that are held after it, and the summary.
pub fn status_output<C: Clock>(
    alloc: Global,
    doors: &Doors,
    controller: &Text,
    input: &[u8],
    clock: &mut C,
) -> Result<Output, NoMemory>
    requires { length input.now ≤ MOST_INPUT }
    ensures { IfOk result (λ output.
        IsOutputBy (texts.status_results_text doors.now controller.now) input.now (C.moments clock.old) output.text output.refused) }
{
    let report = apply_lines(alloc, input, clock)?;
    let refused = report.refused > 0;
    let text = status_text(alloc, doors, controller, report)?;
    Ok(Output { text, refused })
}

// The statuses of a world. Nobody asks for the steps that they take.
fn statuses<L: Ledger>(
    alloc: Global,
    doors: &Doors,
    controller: &Text,
    world: &World,
    blank: Blank,
) -> Result<Statuses, NoMemory>
    requires name { blank.name ≡ L.name }
    requires parts { blank.parts ≡ L.parts }
    requires positive { 0 < L.parts }
    ensures { IfOk result (λ all. all ≡ statuses_of doors.now controller.now world.now.world) }
{
    let mut steps: Steps<L> = Steps::open(blank);
    eval_all(alloc, world, doors, controller, &mut steps)
}

// The refused lines, the statuses of the objects that are held, and the summary.
fn status_text(
    alloc: Global,
    doors: &Doors,
    controller: &Text,
    report: Report,
) -> Result<Text, NoMemory>
    ensures { IfOk result (λ text. text ≡ string_bytes report.text
        ++ texts.status_text doors.now controller.now report.world.world report.world.world.changes report.refused report.skipped) }
{
    let summary = summary_line(alloc, &report)?;
    let Report {
        world,
        mut text,
        ..
    } = report;
    push_world(alloc, doors, controller, &world, &mut text)?;
    text.push_str(summary.as_str())?;
    // The program ends behind this text; to give back each object by itself would take as long as to write it.
    mem::forget(world);
    Ok(Text::from_vec(text.into_bytes()))
}

// The statuses of a world, which aren't given back either.
fn push_world(
    alloc: Global,
    doors: &Doors,
    controller: &Text,
    world: &World,
    text: &mut String,
) -> Result<(), NoMemory>
    ensures { OnOk result (string_bytes text.new ≡ string_bytes text.old ++ statuses_text (statuses_of doors.now controller.now world.now.world)) }
{
    let statuses = statuses::<Brand>(alloc, doors, controller, world, Blank::new(1))?;
    push_statuses(alloc, &statuses, text)?;
    mem::forget(statuses);
    Ok(())
}

fn summary_line(alloc: Global, report: &Report) -> Result<String, NoMemory>
    ensures { IfOk result (λ line. string_bytes line ≡ line_of (texts.summary_data report.now.world.world.changes report.now.refused report.now.skipped)) }
{
    let value = summary_value(
        alloc,
        report.world.changes(),
        report.refused,
        report.skipped,
    )?;
    let mut line = String::new(alloc);
    push_line(alloc, &mut line, &value)?;
    Ok(line)
}

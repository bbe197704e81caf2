ghost use Rattle.std.specs.Prelude.{◌≡◌, ◌<◌, ◌≤◌, ◌++◌, length, IfOk, string_bytes};
ghost use Rattle.gw_link.specs.declared.source.TheConstants.{MOST_INPUT};
ghost use Rattle.gw_report.specs.Outputs.{IsOutputBy};
ghost use Rattle.gw_report.specs.RunText as texts;

use crate::output::Output;
use crate::report::{Report, apply_lines};
use gw_decide::write_explain;
use gw_eval::eval_rows;
use gw_frames::Request;
use gw_link::{Clock, MOST_INPUT};
use gw_match::{DoorTable, rows_of_a_door_stand_listener_by_listener};
use gw_store::World;
use gw_text::{Doors, NoMemory, Text};
use std::alloc::Global;

/// What `explain` writes of an input: its refused lines, and then what becomes of the request at the door of this number.
pub fn explanation_output<C: Clock>(
    alloc: Global,
    doors: &Doors,
    controller: &Text,
    door: usize,
    request: &Request,
    input: &[u8],
    clock: &mut C,
) -> Result<Output, NoMemory>
    requires bound { length input.now ≤ MOST_INPUT }
    requires door { door < length doors.now }
    ensures { IfOk result (λ output.
        IsOutputBy (texts.explanation_results_text doors.now controller.now door request.now) input.now (C.moments clock.old) output.text output.refused) }
{
    let report = apply_lines(alloc, input, clock)?;
    let refused = report.refused > 0;
    let text = explanation_text(alloc, doors, controller, door, request, report)?;
    Ok(Output { text, refused })
}

// The refused lines, and then what becomes of the request.
fn explanation_text(
    alloc: Global,
    doors: &Doors,
    controller: &Text,
    door: usize,
    request: &Request,
    report: Report,
) -> Result<Text, NoMemory>
    requires { door < length doors.now }
    ensures { IfOk result (λ text. text ≡ string_bytes report.text
        ++ texts.explanation_text doors.now controller.now report.world.world report.world.world.changes door request.now) }
{
    let verdict = verdict_text(alloc, doors, controller, door, request, &report.world)?;
    let mut text = report.text.into_bytes();
    text.extend_from_slice(verdict.bytes())?;
    Ok(Text::from_vec(text))
}

// What becomes of the request at the door of this number.
#[tactic(auto, using(crate::proofs::Doors::at_door))]
fn verdict_text(
    alloc: Global,
    doors: &Doors,
    controller: &Text,
    door: usize,
    request: &Request,
    world: &World,
) -> Result<Text, NoMemory>
    requires { door < length doors.now }
    ensures { IfOk result (λ text. text ≡ texts.explanation_text doors.now controller.now world.now.world world.now.world.changes door request.now) }
{
    // The Routes stand in key order, so the rows of the door are such as a table is made of.
    let _routes = world.routes();
    rows_of_a_door_stand_listener_by_listener();
    let rows = eval_rows(alloc, world, doors, controller, door)?;
    let table = DoorTable::compile(alloc, rows)?;
    write_explain(alloc, &table, request, world.changes())
}

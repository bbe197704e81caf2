//! What each of the commands writes, but for that which serves.
ghost use Rattle.std.specs.Prelude.{◌≡◌, ◌<◌, ◌≤◌, false, [], fold, length, IfOk};
ghost use Rattle.gw_link.specs.declared.source.TheConstants.{MOST_INPUT};
ghost use Rattle.gw_command.specs.Starts.{IsGeneration, IsService, IsWithin};
ghost use Rattle.gw_command.specs.Words.{most_requests, most_routes};
ghost use Rattle.gw_replay.specs.Outputs.{AreCounted};
ghost use Rattle.gw_store.specs.Lines.{lines_of};
ghost use Rattle.gateward.specs.Outputs.{IsGenerated, IsOutput, IsRun};
ghost use Rattle.gateward.specs.Outputs as outputs;

use gw_command::{DEFAULT_CONTROLLER, GenerateWords, Setting, Task};
use gw_generate::{generated, script_doors};
use gw_link::{Clock, MOST_INPUT};
use gw_replay::{Ending, Replayed, replay_output};
use gw_report::{Output, explanation_output, status_output};
use gw_snap::SnapFaults;
use gw_store::first_line;
use gw_text::{NoMemory, Text};
use std::alloc::{AllocGlobal, Global};
use std::random::RandomSource;
use std::sync::Wait;

/// What the program is set to write of `input`.
pub fn output_of<R: Wait + RandomSource + AllocGlobal, C: Clock>(
    rt: &R,
    alloc: Global,
    setting: Setting,
    input: &[u8],
    clock: &mut C,
    snap: &mut SnapFaults,
) -> Result<Replayed, NoMemory>
    requires bound { length input.now ≤ MOST_INPUT }
    requires within { IsWithin setting.task setting.doors }
    requires serves { IsService setting.task → ⊥ }
    requires generates { IsGeneration setting.task → ⊥ }
    ensures output { IfOk result (λ output. IsOutput setting input.now (C.moments clock.old) output.ending output.text) }
    ensures counted { IfOk result (λ output. AreCounted output.ending snap.old snap.new) }
    ensures places { snap.old.places ≤ snap.new.places }
    ensures ahead { snap.old.ahead ≤ snap.new.ahead }
{
    let Setting {
        controller,
        doors,
        task,
    } = setting;
    match task {
        Task::Status => Ok(done(status_output(alloc, &doors, &controller, input, clock)?)),
        Task::Explanation(door, request) => Ok(done(explanation_output(
            alloc,
            &doors,
            &controller,
            door,
            &request,
            input,
            clock,
        )?)),
        Task::Replay(workers, polled) => replay_output(
            rt, alloc, doors, controller, workers, polled, input, clock, snap,
        ),
        Task::Generate(_) => unreachable!(),
        Task::Serve(_, _, _, _) => unreachable!(),
    }
}

// An output that is always whole.
fn done(output: Output) -> Replayed
    ensures text { result.text ≡ output.text }
    ensures ending { result.ending ≡ Ending.Done output.refused }
{
    Replayed {
        text: output.text,
        ending: Ending::Done(output.refused),
    }
}

/// What the program is set to write of a script: all of it, or where the script is run the last line alone.
pub fn generation_output<R: Wait + RandomSource + AllocGlobal, C: Clock>(
    rt: &R,
    alloc: Global,
    words: GenerateWords,
    clock: &mut C,
    snap: &mut SnapFaults,
) -> Result<Replayed, NoMemory>
    requires some { 0 < words.routes }
    requires few { words.routes ≤ most_routes }
    requires requests { words.requests ≤ most_requests }
    ensures output { IfOk result (λ output. IsGenerated words (C.moments clock.old) output.ending output.text) }
    ensures unasked { words.runs ≡ false → clock.new ≡ clock.old }
    ensures counted { IfOk result (λ output. AreCounted output.ending snap.old snap.new) }
    ensures places { snap.old.places ≤ snap.new.places }
    ensures ahead { snap.old.ahead ≤ snap.new.ahead }
{
    let script = generated(alloc, words.seed, words.routes, words.requests)?;
    if words.runs {
        return run_output(rt, alloc, script.bytes(), clock, snap);
    }
    Ok(Replayed {
        text: script,
        ending: Ending::Done(false),
    })
}

// What a script's replay prints last, with one worker and at the script's own door.
fn run_output<R: Wait + RandomSource + AllocGlobal, C: Clock>(
    rt: &R,
    alloc: Global,
    script: &[u8],
    clock: &mut C,
    snap: &mut SnapFaults,
) -> Result<Replayed, NoMemory>
    requires { length script.now ≤ MOST_INPUT }
    ensures output { IfOk result (λ output. IsRun script.now (C.moments clock.old) output.ending output.text) }
    ensures counted { IfOk result (λ output. AreCounted output.ending snap.old snap.new) }
    ensures places { snap.old.places ≤ snap.new.places }
    ensures ahead { snap.old.ahead ≤ snap.new.ahead }
{
    let doors = script_doors(alloc)?;
    let controller = Text::of(alloc, DEFAULT_CONTROLLER)?;
    let whole = replay_output(rt, alloc, doors, controller, 1, false, script, clock, snap)?;
    let text = last_line(alloc, whole.text.bytes())?;
    Ok(Replayed {
        text,
        ending: whole.ending,
    })
}

// The last line that isn't empty, with its line feed.
fn last_line(alloc: Global, text: &[u8]) -> Result<Text, NoMemory>
    ensures { IfOk result (λ line. line ≡ outputs.last_line text.now) }
{
    let mut line = Vec::from_slice(alloc, last_of(text))?;
    line.push(b'\n')?;
    Ok(Text::from_vec(line))
}

fn last_of(text: &[u8]) -> &[u8]
    ensures { result.now ≡ fold outputs.later [] (lines_of text.now) }
{
    let mut last: &[u8] = &[];
    let mut rest = Some(text);
    'lines: while let Some(part) = rest {
        let (line, left) = first_line(part);
        last = later(last, line);
        rest = left;
    }
    last
}

fn later<'t>(last: &'t [u8], line: &'t [u8]) -> &'t [u8]
    ensures { result.now ≡ outputs.later last.now line.now }
{
    if line.is_empty() { last } else { line }
}

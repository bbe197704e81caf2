ghost use Rattle.std.specs.Prelude.{◌≡◌, ℕ, option_map, IfOk, IfSome};
ghost use Rattle.gw_script.specs.Readings.{IsStep, Reads};
ghost use Rattle.gw_script.specs.Scripts as scripts;
ghost use Rattle.gw_script.specs.Seen.{seen_step};
ghost use Rattle.gw_script.specs.Steps.{IsWithin};

use crate::answer::answer_text;
use crate::part::{call_of, cut, name_of, socket, text_of};
use crate::refusal::StepRefusal;
use crate::step::Step;
use gw_json::MAX_LINE;
use gw_requests::number_below;
use std::alloc::Global;
use std::str;

/// The step that a line says, without its line feed, where there are so many workers and doors. The line of an event may
/// have any length: how long an event may be is for its own reader to say.
#[tactic(auto, unfolding(crate::specs::Scripts::step_of))]
pub fn read_step<'l>(
    alloc: Global,
    line: &'l [u8],
    workers: usize,
    doors: usize,
) -> Result<Step<'l>, StepRefusal>
    ensures step { IsStep (scripts.step_of workers doors line.now) result }
    ensures within { IfOk result (λ step. IsWithin workers doors (seen_step step)) }
{
    if let Some(event) = line.strip_prefix(b"event ") {
        return Ok(Step::Event(event));
    }
    if line.len() > MAX_LINE {
        return Err(StepRefusal::TooLong);
    }
    match str::from_utf8(line) {
        Ok(line) => step(alloc, line, workers, doors),
        Err(_) => Err(StepRefusal::NotStep),
    }
}

// The step that a line says that is no event's.
#[tactic(auto, unfolding(crate::specs::Scripts::form_of))]
fn step<'l>(
    alloc: Global,
    line: &'l str,
    workers: usize,
    doors: usize,
) -> Result<Step<'l>, StepRefusal>
    ensures step { Reads seen_step (scripts.form_of workers doors line.now) result }
    ensures within { IfOk result (λ step. IsWithin workers doors (seen_step step)) }
{
    let (command, parts) = cut(line);
    match command {
        "open" => open(parts, workers, doors).ok_or(StepRefusal::NotStep),
        "send" => send(alloc, parts),
        "end" => end(parts).ok_or(StepRefusal::NotStep),
        "answer" => answer(alloc, parts),
        "fail" => fail(alloc, parts),
        _ if line == "publish" => Ok(Step::Publish),
        _ => Err(StepRefusal::NotStep),
    }
}

#[tactic(auto, unfolding(crate::specs::Scripts::open_of))]
fn open<'l>(parts: &'l str, workers: usize, doors: usize) -> Option<Step<'l>>
    ensures step { option_map seen_step result ≡ scripts.open_of workers doors parts.now }
    ensures within { IfSome result (λ step. IsWithin workers doors (seen_step step)) }
{
    let (name, numbers) = cut(parts);
    let (worker, door) = cut(numbers);
    let name = name_of(name)?;
    let worker = number_below(workers, worker)?;
    let door = number_below(doors, door)?;
    Some(Step::Open { name, worker, door })
}

#[tactic(auto, unfolding(crate::specs::Scripts::send_of))]
fn send<'l>(alloc: Global, parts: &'l str) -> Result<Step<'l>, StepRefusal>
    ensures step { Reads seen_step (scripts.send_of parts.now) result }
    ensures within { (workers doors : ℕ) → IfOk result (λ step. IsWithin workers doors (seen_step step)) }
{
    let (name, text) = cut(parts);
    let name = name_of(name).ok_or(StepRefusal::NotStep)?;
    let bytes = text_of(alloc, text)?;
    if bytes.is_empty() {
        return Err(StepRefusal::NotStep);
    }
    Ok(Step::Send { name, bytes })
}

#[tactic(auto, unfolding(crate::specs::Scripts::end_of))]
fn end(parts: &str) -> Option<Step<'_>>
    ensures step { option_map seen_step result ≡ scripts.end_of parts.now }
    ensures within { (workers doors : ℕ) → IfSome result (λ step. IsWithin workers doors (seen_step step)) }
{
    let name = name_of(parts)?;
    Some(Step::End { name })
}

#[tactic(auto, unfolding(crate::specs::Scripts::answer_of))]
fn answer<'l>(alloc: Global, parts: &'l str) -> Result<Step<'l>, StepRefusal>
    ensures step { Reads seen_step (scripts.answer_of parts.now) result }
    ensures within { (workers doors : ℕ) → IfOk result (λ step. IsWithin workers doors (seen_step step)) }
{
    let (at, text) = cut(parts);
    let socket = socket(alloc, at)?;
    let (text, fill) = answer_text(alloc, text)?;
    Ok(Step::Answer { socket, text, fill })
}

#[tactic(auto, unfolding(crate::specs::Scripts::fail_of))]
fn fail<'l>(alloc: Global, parts: &'l str) -> Result<Step<'l>, StepRefusal>
    ensures step { Reads seen_step (scripts.fail_of parts.now) result }
    ensures within { (workers doors : ℕ) → IfOk result (λ step. IsWithin workers doors (seen_step step)) }
{
    let (at, call) = cut(parts);
    let socket = socket(alloc, at)?;
    let call = call_of(call).ok_or(StepRefusal::NotStep)?;
    Ok(Step::Fail { socket, call })
}

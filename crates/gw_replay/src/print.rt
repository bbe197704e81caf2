//! Lines that are written.
ghost use Rattle.std.specs.Prelude.{◌≡◌, ◌++◌, IfOk, OnOk, option_map, string_bytes};
ghost use Rattle.serde_json.specs.View.{members_view, view};
ghost use Rattle.gw_json.specs.Lines.{line_of};
ghost use Rattle.gw_report.specs.RunText.{refused_object};
ghost use Rattle.gw_replay.specs.Lines as lines;
ghost use Rattle.gw_replay.specs.States.{ending_of};

use gw_frames::Ended;
use gw_json::{push_line, put_number, put_text};
use gw_report::refused_value;
use gw_text::{NoMemory, Text};
use gw_worker::Flow;
use serde_json::{Map, Value, json};
use std::alloc::Global;

/// What a line of a connection begins with: its name, and the number of the script's line.
#[derive(Clone, Copy)]
pub(crate) struct Said<'n> {
    pub(crate) name: &'n str,
    pub(crate) line: u64,
}

/// A line that is refused, by the refusal of this number, and with this path.
pub(crate) fn push_refused(
    alloc: Global,
    text: &mut String,
    line: u64,
    refusal: u8,
    path: Option<&str>,
) -> Result<(), NoMemory>
    ensures { OnOk result (string_bytes text.new ≡ string_bytes text.old ++ line_of (refused_object line refusal (option_map (λ p. p.now) path.entry))) }
{
    let value = refused_value(alloc, line, refusal, path)?;
    push_line(alloc, text, &value)
}

/// A publication, of so many changes.
pub(crate) fn push_front(
    alloc: Global,
    text: &mut String,
    front: u64,
    line: u64,
) -> Result<(), NoMemory>
    ensures { OnOk result (string_bytes text.new ≡ string_bytes text.old ++ line_of (lines.front_data front line)) }
{
    let value = front_value(alloc, front, line)?;
    push_line(alloc, text, &value)
}

fn front_value(alloc: Global, front: u64, line: u64) -> Result<Value, NoMemory>
    ensures { IfOk result (λ v. view v ≡ lines.front_data front line) }
{
    json!(in alloc; {"front": front, "line": line})
}

/// There was no place to read from.
pub(crate) fn push_place(alloc: Global, text: &mut String) -> Result<(), NoMemory>
    ensures { OnOk result (string_bytes text.new ≡ string_bytes text.old ++ line_of lines.place_data) }
{
    let value = place_value(alloc)?;
    push_line(alloc, text, &value)
}

fn place_value(alloc: Global) -> Result<Value, NoMemory>
    ensures { IfOk result (λ v. view v ≡ lines.place_data) }
{
    json!(in alloc; {"fault": "Place"})
}

/// A worker had seen so many changes, which are more than are published.
pub(crate) fn push_ahead(
    alloc: Global,
    text: &mut String,
    front: u64,
    seen: u64,
) -> Result<(), NoMemory>
    ensures { OnOk result (string_bytes text.new ≡ string_bytes text.old ++ line_of (lines.ahead_data front seen)) }
{
    let value = ahead_value(alloc, front, seen)?;
    push_line(alloc, text, &value)
}

fn ahead_value(alloc: Global, front: u64, seen: u64) -> Result<Value, NoMemory>
    ensures { IfOk result (λ v. view v ≡ lines.ahead_data front seen) }
{
    json!(in alloc; {"fault": "Ahead", "front": front, "seen": seen})
}

/// What the client was written, if it was.
pub(crate) fn push_written(
    alloc: Global,
    text: &mut String,
    said: Said<'_>,
    bytes: &[u8],
) -> Result<(), NoMemory>
    ensures { OnOk result (string_bytes text.new ≡ string_bytes text.old ++ lines.written_text said.entry.name.now said.entry.line bytes.now) }
{
    if bytes.is_empty() {
        return Ok(());
    }
    let value = written_value(alloc, said, bytes)?;
    push_line(alloc, text, &value)
}

fn written_value(alloc: Global, said: Said<'_>, bytes: &[u8]) -> Result<Value, NoMemory>
    ensures { IfOk result (λ v. view v ≡ lines.written_data said.entry.name.now said.entry.line bytes.now) }
{
    let written = Text::from_bytes(alloc, bytes)?;
    let written = written.printed(alloc)?;
    json!(in alloc; {"conn": said.name, "line": said.line, "written": written.as_str()})
}

/// How the connection ended, if it did.
#[tactic(auto, using(crate::proofs::Floats::end_has_no_float))]
pub(crate) fn push_end(
    alloc: Global,
    text: &mut String,
    said: Said<'_>,
    flow: Flow,
) -> Result<(), NoMemory>
    ensures { OnOk result (string_bytes text.new ≡ string_bytes text.old ++ lines.end_text said.entry.name.now said.entry.line (ending_of flow)) }
{
    match flow {
        Flow::More => Ok(()),
        Flow::Ended(why) => {
            let value = ended_value(alloc, said, why)?;
            push_line(alloc, text, &value)
        }
    }
}

#[tactic(auto, unfolding(crate::specs::Lines::ended_data))]
fn ended_value(alloc: Global, said: Said<'_>, why: Ended) -> Result<Value, NoMemory>
    ensures { IfOk result (λ v. view v ≡ lines.ended_data said.entry.name.now said.entry.line why) }
{
    let mut members = Map::new(alloc);
    put_number(alloc, &mut members, "line", said.line)?;
    put_text(alloc, &mut members, "ended", ended_text(why))?;
    put_text(alloc, &mut members, "conn", said.name)?;
    if let Ended::Refused(code) = why {
        put_number(alloc, &mut members, "status", u64::from(code))?;
    }
    Ok(Value::from(members))
}

fn ended_text(why: Ended) -> &'static str
    ensures { result.now ≡ lines.ended_text why }
{
    match why {
        Ended::Closed => "Closed",
        Ended::Truncated => "Truncated",
        Ended::Asked => "Asked",
        Ended::Enough => "Enough",
        Ended::Refused(_) => "Refused",
    }
}

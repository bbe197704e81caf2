//! From a line to a value, and from a value to a line.
ghost use Rattle.std.specs.Prelude.{◌≡◌, ◌++◌, false, OnOk, OnErr, string_bytes};
ghost use Rattle.serde_json.specs.View.{view};
ghost use Rattle.serde_json.specs.Written.{has_float};
ghost use Rattle.gw_json.specs.Words.{Gives};
ghost use Rattle.gw_json.specs.Lines.{value_of, line_of};

use crate::path::Path;
use crate::refusal::Refusal;
use serde_json::{Category, Value};
use std::alloc::{AllocError, Global};

/// The bytes that a line may have, without its line feed.
pub const MAX_LINE: usize = 1_048_576;

/// The value of a line without its line feed.
#[tactic(auto, unfolding(crate::specs::Lines::value_of, crate::specs::Lines::json_of))]
pub fn read_value(alloc: Global, line: &[u8]) -> Result<Value, Refusal>
    ensures { Gives view result (value_of line.now) }
{
    if line.len() > MAX_LINE {
        return Err(Refusal::TooLong(Path::of(alloc, "line")?));
    }
    match Value::from_slice(alloc, line) {
        Ok(value) => Ok(value),
        Err(error) => match error.classify() {
            Category::Memory => Err(Refusal::NoMemory),
            _ => Err(Refusal::NotJson),
        },
    }
}

/// Adds the value to `out` as one line of compact JSON, whole or not at all.
pub fn push_line(alloc: Global, out: &mut String, value: &Value) -> Result<(), AllocError>
    requires { has_float (view value.now) ≡ false }
    ensures ok { OnOk result (string_bytes out.new ≡ string_bytes out.old ++ line_of (view value.now)) }
    ensures err { OnErr result (string_bytes out.new ≡ string_bytes out.old) }
{
    let mut line = value.to_string(alloc)?;
    line.push('\n')?;
    out.push_str(line.as_str())
}

ghost use Rattle.std.specs.Prelude.{◌≡◌, option_map, IfOk};
ghost use Rattle.serde_json.specs.View.{view};
ghost use Rattle.gw_report.specs.RunText.{refused_object, summary_data};

use gw_text::NoMemory;
use serde_json::{Value, json};
use std::alloc::Global;

/// What is printed of a refused line: its number, that of the refusal, and the path of the field that the refusal names.
pub fn refused_value(
    alloc: Global,
    line: u64,
    number: u8,
    path: Option<&str>,
) -> Result<Value, NoMemory>
    ensures { IfOk result (λ v. view v ≡ refused_object line number (option_map (λ p. p.now) path.entry)) }
{
    let number = u64::from(number);
    match path {
        Some(path) => json!(in alloc; {"line": line, "path": path, "refusal": number}),
        None => json!(in alloc; {"line": line, "refusal": number}),
    }
}

/// The last line.
pub fn summary_value(
    alloc: Global,
    changes: u64,
    refused: u64,
    skipped: u64,
) -> Result<Value, NoMemory>
    ensures { IfOk result (λ v. view v ≡ summary_data changes refused skipped) }
{
    json!(in alloc; {"changes": changes, "refused": refused, "skipped": skipped})
}

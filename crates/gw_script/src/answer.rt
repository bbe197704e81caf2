//! What a backend is to answer.
ghost use Rattle.std.specs.Prelude.{◌≡◌};
ghost use Rattle.gw_script.specs.Scripts as scripts;
ghost use Rattle.gw_script.specs.Readings.{Reads};

use crate::part::{cut_last, is_quoted, text_of};
use crate::refusal::StepRefusal;
use gw_requests::number_below;
use std::alloc::Global;

// One more than the most that a text is filled with.
const FILLS: usize = 16_777_217;

/// A text, and with how many `x` it is filled: with none where no number follows it.
#[tactic(auto, unfolding(crate::specs::Scripts::answer_text_of))]
pub fn answer_text(alloc: Global, text: &str) -> Result<(Vec<u8>, usize), StepRefusal>
    ensures { Reads (λ p. (p.0.items, p.1)) (scripts.answer_text_of text.now) result }
{
    if is_quoted(text) {
        return Ok((text_of(alloc, text)?, 0));
    }
    let (text, fill) = cut_last(text);
    let fill = number_below(FILLS, fill).ok_or(StepRefusal::NotStep)?;
    Ok((text_of(alloc, text)?, fill))
}

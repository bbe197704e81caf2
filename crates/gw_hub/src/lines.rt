//! The lines of an input.
ghost use Rattle.std.specs.Prelude.{◌≡◌, map, IfOk};
ghost use Rattle.gw_hub.specs.Turns.{event_lines as lines_of_events};

use gw_store::is_blank;
use gw_text::NoMemory;
use std::alloc::Global;

/// The lines that aren't blank, in order.
pub(crate) fn event_lines(alloc: Global, input: &[u8]) -> Result<Vec<&[u8]>, NoMemory>
    ensures { IfOk result (λ lines. map (λ line. line.now) lines.items ≡ lines_of_events input.now) }
{
    input
        .split(|b| *b == b'\n')
        .filter(|line| !is_blank(*line))
        .collect(alloc)
}

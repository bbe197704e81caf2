ghost use Rattle.std.specs.Prelude.{◌≡◌, false};
ghost use Rattle.gw_replies.specs.model.Responses.{is_misframed};
ghost use Rattle.gw_replies.specs.Extents.{IsExtent};

use crate::length::announced_size;
use gw_messages::field::has_field;
use gw_text::Field;

/// How the end of a body is told.
#[derive(Clone, Copy)]
pub enum Extent {
    Chunks,
    /// By the number of its bytes.
    Size(usize),
    /// By the end of the bytes.
    End,
}

/// The extent that fields give.
pub fn extent_of(fields: &[Field]) -> Extent
    requires { is_misframed fields.now ≡ false }
    ensures { IsExtent fields.now result }
{
    if has_field(fields, b"transfer-encoding") {
        return Extent::Chunks;
    }
    if has_field(fields, b"content-length") {
        return Extent::Size(announced_size(fields));
    }
    Extent::End
}

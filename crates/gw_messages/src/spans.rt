ghost use Rattle.std.specs.Prelude.{◌≡◌, length, map, IfOk, All};
ghost use Rattle.httparse.specs.Spans.{IsHeaderWithin};
ghost use Rattle.gw_messages.specs.Spans.{field_at};

use gw_text::{Field, Fields, NoMemory, Text};
use httparse::spans::HeaderSpan;
use std::alloc::Global;

/// The fields that the spans cover.
pub fn copy_fields(alloc: Global, bytes: &[u8], spans: &[HeaderSpan]) -> Result<Fields, NoMemory>
    requires { All (IsHeaderWithin (length bytes.now)) spans.now }
    ensures { IfOk result (λ fields. fields ≡ map (field_at bytes.now) spans.now) }
{
    let mut fields = Vec::with_capacity(alloc, spans.len())?;
    'spans: for span in spans {
        fields.push(copy_field(alloc, bytes, span)?)?;
    }
    Ok(Fields::from_vec(fields))
}

fn copy_field(alloc: Global, bytes: &[u8], span: &HeaderSpan) -> Result<Field, NoMemory>
    requires { IsHeaderWithin (length bytes.now) span.now }
    ensures { IfOk result (λ field. field ≡ field_at bytes.now span.now) }
{
    let name = Text::from_bytes(alloc, span.name.of(bytes))?;
    let value = Text::from_bytes(alloc, span.value.of(bytes))?;
    Ok(Field { name, value })
}

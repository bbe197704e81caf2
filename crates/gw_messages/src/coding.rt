ghost use Rattle.std.specs.Prelude.{◌≡◌, [], ◌∷◌, length, filter, fold, nat_lt};
ghost use Rattle.gw_messages.specs.model.Values.{codings, elements, ends_chunked};
ghost use Rattle.gw_text.specs.model.Names.{is_given};
ghost use Rattle.gw_messages.specs.Codings.{note, noted};

use crate::element::{first_element, trim};
use gw_text::Field;

/// What was seen of codings.
#[derive(Clone, Copy)]
pub struct Coded {
    /// Whether there is one, and whether there are more.
    pub any: bool,
    pub many: bool,
    /// Whether the last one is `chunked`.
    pub chunked: bool,
}

/// What is seen of the codings that fields name.
pub fn codings_of(fields: &[Field]) -> Coded
    ensures many { result.many ≡ nat_lt 1 (length (codings fields.now)) }
    ensures chunked { result.chunked ≡ ends_chunked (codings fields.now) }
{
    let mut found = Coded {
        any: false,
        many: false,
        chunked: false,
    };
    'fields: for field in fields {
        found = with_field(found, field);
    }
    found
}

// The codings and those of a further field.
fn with_field(before: Coded, field: &Field) -> Coded
    ensures { result ≡ fold note before (codings (field.now ∷ [])) }
{
    if !field.is_named(b"transfer-encoding") {
        return before;
    }
    with_value(before, field.value.bytes())
}

// The codings and those of a further value.
fn with_value(before: Coded, value: &[u8]) -> Coded
    ensures { result ≡ fold note before (filter is_given (elements value.now)) }
{
    let mut found = before;
    let mut rest = Some(value);
    'elements: while let Some(text) = rest {
        let (element, left) = first_element(text);
        found = with_coding(found, trim(element));
        rest = left;
    }
    found
}

// The codings and one more, where it isn't empty.
fn with_coding(before: Coded, coding: &[u8]) -> Coded
    ensures { result ≡ noted before coding.now }
{
    if coding.is_empty() {
        return before;
    }
    Coded {
        any: true,
        many: before.any,
        chunked: b"chunked".eq_ignore_ascii_case(coding),
    }
}

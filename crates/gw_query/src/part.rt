//! The parts of a query, as they stand there.
ghost use Rattle.std.specs.Prelude.{◌≡◌, ◌<◌, ◌∷◌, ◌==◌, [], Some, length, option_copied, unwrap_or, IfSome};
ghost use Rattle.std.specs.List.{after_first, before_first, slice_split};
ghost use Rattle.gw_query.specs.Cut.{parameter_in, parameters_left};
ghost use Rattle.gw_query.specs.Parts.{parts_left};
ghost use Rattle.gw_query.specs.model.Parameters as rules;

use gw_messages::bytes::index_of;

/// A parameter as it stands in a query.
#[derive(Clone, Copy)]
pub(crate) struct Part<'q> {
    pub(crate) name: &'q [u8],
    pub(crate) value: &'q [u8],
}

impl<'q> Part<'q> {
    // The part that this text is, cut at its first `=`.
    fn of(text: &'q [u8]) -> Self
        ensures { parameter_in result ≡ rules.parameter_of text.now }
    {
        let (name, value) = cut_at(text, b'=');
        Part {
            name,
            value: value.unwrap_or(b""),
        }
    }
}

// What stands before the first such byte, and what stands behind it, if it is there.
fn cut_at(text: &[u8], byte: u8) -> (&[u8], Option<&[u8]>)
    ensures front { result.0.now ≡ before_first (λ b. b == byte) text.now }
    ensures behind { unwrap_or (option_copied result.1) [] ≡ after_first (λ b. b == byte) text.now }
    ensures parts { slice_split (λ b. b == byte) text.now ≡ result.0.now ∷ parts_left byte (option_copied result.1) }
    ensures shorter { IfSome result.1 (λ rest. length rest.now < length text.now) }
{
    let at = index_of(text, byte);
    if at < text.len() {
        (&text[..at], Some(&text[at + 1..]))
    } else {
        (text, None)
    }
}

/// The first parameter of a query, and the text of those behind it.
pub(crate) fn first_part(query: &[u8]) -> (Part<'_>, Option<&[u8]>)
    ensures parts { parameters_left (Some query.now) ≡ parameter_in result.0 ∷ parameters_left (option_copied result.1) }
    ensures shorter { IfSome result.1 (λ rest. length rest.now < length query.now) }
{
    let (text, rest) = cut_at(query, b'&');
    (Part::of(text), rest)
}

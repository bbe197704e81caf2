ghost use Rattle.std.specs.Prelude.{◌≡◌, ◌<◌, ◌∷◌, length, option_copied, position, reverse, IfSome};
ghost use Rattle.std.specs.List.{list_any, slice_split};
ghost use Rattle.httparse.specs.Grammar.{is_ows, skip_ows, trim_ows};
ghost use Rattle.gw_messages.specs.model.Values.{elements, same_word};
ghost use Rattle.gw_messages.specs.Elements.{is_comma, parts_left};

use memchr::memchr;

/// The first element of a list with commas, and what follows its comma, if there is one.
pub fn first_element(value: &[u8]) -> (&[u8], Option<&[u8]>)
    ensures cut { slice_split is_comma value.now ≡ result.0.now ∷ parts_left (option_copied result.1) }
    ensures shorter { IfSome result.1 (λ rest. length rest.now < length value.now) }
{
    match comma(value) {
        Some(at) => (&value[..at], Some(&value[at + 1..])),
        None => (value, None),
    }
}

fn comma(value: &[u8]) -> Option<usize>
    ensures { result ≡ position is_comma value.now }
{
    memchr(b',', value)
}

/// Whether an element of a list with commas is this word, in upper or lower case.
pub fn has_element(value: &[u8], word: &[u8]) -> bool
    ensures { result ≡ list_any (same_word word.now) (elements value.now) }
{
    let mut rest = Some(value);
    'elements: while let Some(text) = rest {
        let (element, left) = first_element(text);
        if trim(element).eq_ignore_ascii_case(word) {
            return true;
        }
        rest = left;
    }
    false
}

/// Whether two words are equal but for the case of letters.
pub fn same_word(a: &[u8], b: &[u8]) -> bool
    ensures { result ≡ same_word a.now b.now }
{
    a.eq_ignore_ascii_case(b)
}

/// The bytes without the spaces and tabs at both ends.
#[tactic(auto, unfolding(httparse::specs::Grammar::trim_ows))]
pub fn trim(bytes: &[u8]) -> &[u8]
    ensures { result.now ≡ trim_ows bytes.now }
{
    trim_end(trim_start(bytes))
}

fn trim_start(bytes: &[u8]) -> &[u8]
    ensures { result.now ≡ skip_ows bytes.now }
{
    let mut left = bytes;
    'blanks: while let Some((byte, rest)) = left.split_first() {
        if !is_blank(*byte) {
            return left;
        }
        left = rest;
    }
    left
}

fn trim_end(bytes: &[u8]) -> &[u8]
    ensures { result.now ≡ reverse (skip_ows (reverse bytes.now)) }
{
    let mut left = bytes;
    'blanks: while let Some((byte, rest)) = left.split_last() {
        if !is_blank(*byte) {
            return left;
        }
        left = rest;
    }
    left
}

/// Whether the byte is a space or tab.
pub fn is_blank(byte: u8) -> bool
    ensures { result ≡ is_ows byte }
{
    byte == b' ' || byte == b'\t'
}

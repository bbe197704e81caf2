//! The parts of a line.
ghost use Rattle.std.specs.Prelude.{◌≡◌, option_map};
ghost use Rattle.std.specs.Char.{is_ascii_alphanumeric};
ghost use Rattle.std.specs.List.{list_all};
ghost use Rattle.gw_text.specs.model.Addresses.{socket_of};
ghost use Rattle.gw_script.specs.Parts as parts;
ghost use Rattle.gw_script.specs.Readings.{Reads};

use crate::refusal::StepRefusal;
use gw_link::UpstreamCall;
use gw_requests::quoted_bytes;
use gw_text::{Socket, TextFault};
use std::alloc::Global;

/// The first part, and what follows it: nothing where there is one part alone.
pub fn cut(text: &str) -> (&str, &str)
    ensures first { result.0.now ≡ parts.first_part text.now }
    ensures rest { result.1.now ≡ parts.other_parts text.now }
{
    match text.split_once(' ') {
        Some((first, rest)) => (first, rest),
        None => (text, ""),
    }
}

/// What comes before the last part, and the last part: nothing before where there is one part alone.
pub fn cut_last(text: &str) -> (&str, &str)
    ensures before { result.0.now ≡ parts.before_last text.now }
    ensures last { result.1.now ≡ parts.last_part text.now }
{
    match text.rsplit_once(' ') {
        Some((before, last)) => (before, last),
        None => ("", text),
    }
}

/// A name of a connection: 1 to 64 letters and digits.
pub fn name_of(text: &str) -> Option<&str>
    ensures { option_map (λ n. n.now) result ≡ parts.name_of text.now }
{
    let is_long_enough = !text.is_empty() && text.len() <= 64;
    if is_long_enough && are_letters_and_digits(text.as_bytes()) {
        Some(text)
    } else {
        None
    }
}

fn are_letters_and_digits(text: &[u8]) -> bool
    ensures { result ≡ list_all is_ascii_alphanumeric text.now }
{
    text.iter().all(|b| b.is_ascii_alphanumeric())
}

/// Whether the text begins with a quote and ends with another one.
pub fn is_quoted(text: &str) -> bool
    ensures { result ≡ parts.is_quoted text.now }
{
    let bytes = text.as_bytes();
    bytes.len() > 1 && bytes[0] == b'"' && bytes[bytes.len() - 1] == b'"'
}

/// The bytes of a JSON text in quotes.
pub fn text_of(alloc: Global, text: &str) -> Result<Vec<u8>, StepRefusal>
    ensures { Reads (λ v. v.items) (parts.text_of text.now) result }
{
    if !is_quoted(text) {
        return Err(StepRefusal::NotStep);
    }
    quoted_bytes(alloc, text)?.ok_or(StepRefusal::NotStep)
}

/// The socket that the text names.
pub fn socket(alloc: Global, text: &str) -> Result<Socket, StepRefusal>
    ensures { Reads (λ s. s) (socket_of text.now) result }
{
    match Socket::parse(alloc, text) {
        Ok(socket) => Ok(socket),
        Err(TextFault::Bad) => Err(StepRefusal::NotStep),
        Err(TextFault::NoMemory) => Err(StepRefusal::NoMemory),
    }
}

/// The call of an upstream that the text names.
pub fn call_of(text: &str) -> Option<UpstreamCall>
    ensures { result ≡ parts.call_of text.now }
{
    match text {
        "open" => Some(UpstreamCall::Connect),
        "send" => Some(UpstreamCall::Send),
        "receive" => Some(UpstreamCall::Receive),
        _ => None,
    }
}

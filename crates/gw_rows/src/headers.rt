//! What matches ask of the fields of a request.
ghost use Rattle.std.specs.Prelude.{◌≡◌, ◌&&◌, ◌||◌, length, bytes_eq, MatchOption};
ghost use Rattle.std.specs.List.{list_any};
ghost use Rattle.gw_messages.specs.model.Values.{has_field};
ghost use Rattle.gw_rows.specs.Combined.{behind, Continues, Differs};
ghost use Rattle.gw_rows.specs.model.Fitting as rules;

use crate::counted::one_unless;
use gw_route::HeaderMatch;
use gw_text::{Field, Text, ValueMatchType};

// Whether an earlier match has the same name.
fn is_repeated(before: &[HeaderMatch], header: &HeaderMatch) -> bool
    ensures { result ≡ list_any (λ h. rules.same_header h header.now) before.now }
{
    before.iter().any(|other| other.name.bytes().eq_ignore_ascii_case(header.name.bytes()))
}

/// How many of these matches count.
pub fn count(headers: &[HeaderMatch]) -> usize
    ensures { result ≡ length (rules.counted_headers headers.now) }
{
    let mut count = 0;
    'headers: for (index, header) in headers.iter().enumerate() {
        count += one_unless(is_repeated(&headers[..index], header));
    }
    count
}

// What is left of a text that begins so.
fn after<'t>(text: &'t [u8], front: &[u8]) -> Option<&'t [u8]>
    ensures { MatchOption result (Differs text.now front.now) (λ left. Continues text.now front.now left.now) }
{
    text.strip_prefix(front)
}

// What is left of a text behind a value, and behind a comma where a value came before.
fn after_value<'t>(text: &'t [u8], found: bool, value: &[u8]) -> Option<&'t [u8]>
    ensures { MatchOption result (Differs text.now (behind found value.now)) (λ left. Continues text.now (behind found value.now) left.now) }
{
    if found {
        after(after(text, b",")?, value)
    } else {
        after(text, value)
    }
}

// Whether a field of this name is there, and the values of all of them, joined by commas, are this text.
fn has_combined_value(fields: &[Field], name: &Text, text: &Text) -> bool
    ensures { result ≡ (has_field name.now fields.now && bytes_eq (rules.combined_value name.now fields.now) text.now) }
{
    let mut rest = text.bytes();
    let mut found = false;
    'fields: for field in fields {
        if field.is_named(name.bytes()) {
            match after_value(rest, found, field.value.bytes()) {
                Some(left) => rest = left,
                None => return false,
            }
            found = true;
        }
    }
    found && rest.is_empty()
}

fn header_fits(fields: &[Field], header: &HeaderMatch) -> bool
    ensures { result ≡ rules.header_fits fields.now header.now }
{
    match &header.sort {
        ValueMatchType::Exact => has_combined_value(fields, &header.name, &header.value),
        ValueMatchType::Other(_) => false,
    }
}

// Whether a match holds, or is repeated: only where it doesn't hold are those before it looked at.
fn holds(before: &[HeaderMatch], header: &HeaderMatch, fields: &[Field]) -> bool
    ensures { result ≡ (rules.header_fits fields.now header.now || list_any (λ h. rules.same_header h header.now) before.now) }
{
    header_fits(fields, header) || is_repeated(before, header)
}

/// Whether the fields are as all these matches ask.
pub fn headers_fit(headers: &[HeaderMatch], fields: &[Field]) -> bool
    ensures { result ≡ rules.headers_fit headers.now fields.now }
{
    'headers: for (index, header) in headers.iter().enumerate() {
        if !holds(&headers[..index], header, fields) {
            return false;
        }
    }
    true
}

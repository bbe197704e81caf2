ghost use Rattle.std.specs.Prelude.{◌≡◌, ◌&&◌, ◌||◌, not, nat_le, codes};
ghost use Rattle.gw_messages.specs.model.Values.{codings, has_field};
ghost use Rattle.gw_replies.specs.model.Responses.{is_bodiless, is_chunked_alone, is_misframed, is_refused};
ghost use Rattle.gw_replies.specs.Kinds.{IsKind};

use crate::head::Head;
use crate::length::is_one_length;
use gw_messages::coding::codings_of;
use gw_messages::field::has_field;
use gw_text::Field;

/// The most fields of a head.
const MOST_FIELDS: usize = 100;

/// The most interim responses before a response.
const MOST_INTERIMS: usize = 16;

/// What a head is.
#[derive(Clone, Copy)]
pub enum Kind {
    /// One that isn't taken.
    Refused,
    /// That of an interim response.
    Interim,
    /// That of a response without a body.
    Bodiless,
    /// One that doesn't tell the body's length.
    Misframed,
    /// That of a response with a body.
    Bodied,
}

/// What a head is, behind so many interim responses, where the response answers HEAD or not.
pub fn kind_of(head: &Head, to_head: bool, interims: usize) -> Kind
    ensures { IsKind to_head interims head.now result }
{
    if is_refused(head) {
        return Kind::Refused;
    }
    if is_interim(head.code) {
        if interims >= MOST_INTERIMS {
            return Kind::Refused;
        }
        return Kind::Interim;
    }
    if is_bodiless(to_head, head.code) {
        return Kind::Bodiless;
    }
    if is_misframed(head.fields.as_slice()) {
        return Kind::Misframed;
    }
    Kind::Bodied
}

fn is_refused(head: &Head) -> bool
    ensures { result ≡ is_refused head.now }
{
    head.code == 101 || head.fields.as_slice().len() > MOST_FIELDS
}

fn is_interim(code: u16) -> bool
    ensures { result ≡ (nat_le 100 code && nat_le code 199) }
{
    100 <= code && code <= 199
}

/// Whether a response has no body: one to HEAD, and one with the code 204 or 304.
pub fn is_bodiless(to_head: bool, code: u16) -> bool
    ensures { result ≡ is_bodiless to_head code }
{
    to_head || code == 204 || code == 304
}

// Whether the body's length can't be told.
fn is_misframed(fields: &[Field]) -> bool
    ensures { result ≡ is_misframed fields.now }
{
    if has_field(fields, b"transfer-encoding") && is_not_chunked_alone(fields) {
        return true;
    }
    !is_one_length(fields)
}

// Whether Content-Length stands beside Transfer-Encoding, or this is other than `chunked` alone.
fn is_not_chunked_alone(fields: &[Field]) -> bool
    ensures { result ≡ (has_field (codes "content-length") fields.now || not (is_chunked_alone (codings fields.now))) }
{
    has_field(fields, b"content-length") || !is_chunked_alone(fields)
}

fn is_chunked_alone(fields: &[Field]) -> bool
    ensures { result ≡ is_chunked_alone (codings fields.now) }
{
    let found = codings_of(fields);
    found.chunked && !found.many
}

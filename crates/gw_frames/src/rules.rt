ghost use Rattle.std.specs.Prelude.{◌≡◌, ◌==◌, ◌||◌, true, false, codes, length, nat_lt, option_map, IfNone};
ghost use Rattle.std.specs.List.{list_any};
ghost use Rattle.std.specs.Option.{option_map_or};
ghost use Rattle.gw_text.specs.model.Fields.{same_field_name};
ghost use Rattle.gw_messages.specs.model.Values.{are_one_number, codings, has_field, number_of, values_of};
ghost use Rattle.gw_frames.specs.model.Heads.{code_of, has_one_host, is_ambiguous, is_authority, is_served_form, is_served_target, is_unbounded, is_unserved};
ghost use Rattle.gw_frames.specs.model.Requests.{size_of};
ghost use Rattle.gw_frames.specs.Targets.{target_of};

use crate::head::Head;
use crate::host::is_authority;
use gw_messages::coding::codings_of;
use gw_messages::field::{Values, are_one_number, has_field, values_of};
use gw_messages::number::number_up_to;
use gw_text::Field;
use http_uri::Uri;

/// The most fields of a head, and the most bytes of a body.
const MOST_FIELDS: usize = 100;

pub const MOST_BODY: usize = 1048576;

/// The code by which a head is refused: that of the first test that it fails.
#[tactic(auto, unfolding(crate::specs::model::Heads::code_of))]
pub fn code_of(head: &Head, target: &Option<Uri>) -> Option<u16>
    ensures code { result ≡ code_of head.now (option_map target_of target.now) }
    ensures number { IfNone result (are_one_number (values_of (codes "content-length") head.now.fields) ≡ true) }
    ensures few { IfNone result (nat_lt 1048576 (number_of (values_of (codes "content-length") head.now.fields)) ≡ false) }
{
    let fields = head.fields.as_slice();
    if fields.len() > MOST_FIELDS {
        return Some(431);
    }
    if is_unserved(head) {
        return Some(501);
    }
    if !is_served_target(head.target.bytes(), target) {
        return Some(400);
    }
    if !has_one_host(fields, target) {
        return Some(400);
    }
    if !is_framed(fields) {
        return None;
    }
    if is_ambiguous(head) {
        return Some(400);
    }
    if is_unbounded(fields) {
        return Some(400);
    }
    if has_more_codings(fields) {
        return Some(501);
    }
    if !are_one_number(fields, b"content-length") {
        return Some(400);
    }
    if is_too_big(fields) {
        return Some(413);
    }
    None
}

fn is_unserved(head: &Head) -> bool
    ensures { result ≡ is_unserved head.now }
{
    head.method.bytes() == b"CONNECT".as_slice() || head.target.bytes() == b"*".as_slice()
}

fn is_served_target(text: &[u8], target: &Option<Uri>) -> bool
    ensures { result ≡ is_served_target text.now (option_map target_of target.now) }
{
    match target {
        Some(target) => is_served_form(target) && !has_fragment(text),
        None => false,
    }
}

fn has_fragment(text: &[u8]) -> bool
    ensures { result ≡ list_any (λ b. b == 35) text.now }
{
    text.iter().any(|byte| *byte == b'#')
}

fn is_served_form(target: &Uri) -> bool
    ensures { result ≡ is_served_form (target_of target.now) }
{
    match target.scheme_str() {
        Some(scheme) => scheme == "http" || scheme == "https",
        None => target.authority().is_none(),
    }
}

fn has_one_host(fields: &[Field], target: &Option<Uri>) -> bool
    ensures { result ≡ has_one_host (values_of (codes "host") fields.now) (option_map target_of target.now) }
{
    match (values_of(fields, b"host"), target) {
        (Values::One(host), Some(target)) => is_authority(host) && has_valid_authority(target),
        _ => false,
    }
}

fn has_valid_authority(target: &Uri) -> bool
    ensures { result ≡ option_map_or is_authority (target_of target.now).authority true }
{
    match target.authority() {
        Some(authority) => is_authority(authority.as_str().as_bytes()),
        None => true,
    }
}

/// Whether a body is announced. Where none is, the tests on its length pass.
pub fn is_framed(fields: &[Field]) -> bool
    ensures { result ≡ (has_field (codes "transfer-encoding") fields.now || has_field (codes "content-length") fields.now) }
{
    names_body(fields)
}

fn names_body(fields: &[Field]) -> bool
    ensures { result ≡ list_any (λ f. same_field_name f.name (codes "transfer-encoding") || same_field_name f.name (codes "content-length")) fields.now }
{
    fields.iter().any(|field| field.is_named(b"transfer-encoding")
        || field.is_named(b"content-length"))
}

fn is_ambiguous(head: &Head) -> bool
    ensures { result ≡ is_ambiguous head.now }
{
    let fields = head.fields.as_slice();
    has_field(fields, b"transfer-encoding")
        && (has_field(fields, b"content-length") || head.minor == 0)
}

fn is_unbounded(fields: &[Field]) -> bool
    ensures { result ≡ is_unbounded fields.now }
{
    has_field(fields, b"transfer-encoding") && !codings_of(fields).chunked
}

fn has_more_codings(fields: &[Field]) -> bool
    ensures { result ≡ nat_lt 1 (length (codings fields.now)) }
{
    codings_of(fields).many
}

fn is_too_big(fields: &[Field]) -> bool
    requires { are_one_number (values_of (codes "content-length") fields.now) ≡ true }
    ensures { result ≡ nat_lt 1048576 (number_of (values_of (codes "content-length") fields.now)) }
{
    match values_of(fields, b"content-length") {
        Values::Absent => false,
        Values::One(first) | Values::Many(first) => number_up_to(MOST_BODY, first).is_none(),
    }
}

/// How many bytes a body has; none where it is chunked.
pub fn size_of(fields: &[Field], framed: bool) -> Option<usize>
    requires framed { framed ≡ (has_field (codes "transfer-encoding") fields.now || has_field (codes "content-length") fields.now) }
    requires number { are_one_number (values_of (codes "content-length") fields.now) ≡ true }
    requires few { nat_lt 1048576 (number_of (values_of (codes "content-length") fields.now)) ≡ false }
    ensures { result ≡ size_of fields.now }
{
    if !framed {
        return Some(0);
    }
    if has_field(fields, b"transfer-encoding") {
        return None;
    }
    match values_of(fields, b"content-length") {
        Values::Absent => Some(0),
        Values::One(first) | Values::Many(first) => number_up_to(MOST_BODY, first),
    }
}

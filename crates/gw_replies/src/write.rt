ghost use Rattle.std.specs.Prelude.{◌≡◌, ◌++◌, ◌∷◌, [], codes, filter, length, map, not, option_copied, IfOk, OnOk, if◌then◌else◌};
ghost use Rattle.std.specs.List.{flat_map, list_any};
ghost use Rattle.gw_text.specs.model.Fields.{same_field_name};
ghost use Rattle.gw_messages.specs.model.Values.{lower};
ghost use Rattle.gw_replies.specs.Parts.{reply_rest, request_rest};
ghost use Rattle.gw_replies.specs.model.Hops.{passed_back, passed_on, without};
ghost use Rattle.gw_replies.specs.model.Responses.{is_bodiless};
ghost use Rattle.gw_replies.specs.model.Written.{close_line, ended_line, field_line, field_lines, forward, given_fault, given_length, given_line, length_line, only_if, own, phrase_of, reply, reply_length, status_line, three_digits, via_line};

use crate::fault::FaultName;
use crate::hop::{REQUEST_HOPS, RESPONSE_HOPS, is_hop};
use crate::kind::is_bodiless;
use crate::options::Options;
use crate::response::Response;
use gw_text::{Field, Fields, NoMemory, Text};
use itoa::Buffer;
use std::alloc::Global;

/// The most bytes of a message's lines that aren't its fields, for most messages.
const OTHER_LINES: usize = 192;

/// The bytes of a request as it is sent to a backend, whose fields were edited. It came in HTTP/1.0 where `minor` is 0.
#[tactic(auto, using(crate::proofs::Messages::forward_is))]
pub fn write_forward(
    alloc: Global,
    method: &Text,
    target: &Text,
    host: &Text,
    minor: u8,
    fields: &Fields,
    body: &Text,
    framed: bool,
) -> Result<Text, NoMemory>
    ensures { IfOk result (λ text. text ≡ forward method.now target.now host.now minor fields.now body.now framed) }
{
    let mut out = Vec::with_capacity(alloc, room(fields.as_slice(), body.bytes()))?;
    push_request_start(&mut out, method.bytes(), target.bytes(), host.bytes())?;
    push_fields(&mut out, fields.as_slice())?;
    push_request_rest(&mut out, minor, body.bytes(), framed)?;
    Ok(Text::from_vec(out))
}

/// The bytes of a request as it is sent to a backend, whose fields are those of the client that are passed on.
#[tactic(auto, using(crate::proofs::Messages::forward_is))]
pub fn write_unedited_forward(
    alloc: Global,
    method: &Text,
    target: &Text,
    host: &Text,
    minor: u8,
    fields: &Fields,
    body: &Text,
    framed: bool,
) -> Result<Text, NoMemory>
    ensures { IfOk result (λ text. text ≡ forward method.now target.now host.now minor (passed_on fields.now) body.now framed) }
{
    let mut out = Vec::with_capacity(alloc, room(fields.as_slice(), body.bytes()))?;
    push_request_start(&mut out, method.bytes(), target.bytes(), host.bytes())?;
    push_passed_on(alloc, &mut out, fields.as_slice())?;
    push_request_rest(&mut out, minor, body.bytes(), framed)?;
    Ok(Text::from_vec(out))
}

/// The bytes of a backend's response as it is sent to the client. It answers HEAD where `head` is true, and is the last one of
/// the connection where `close` is true.
#[tactic(auto, using(crate::proofs::Messages::reply_is))]
pub fn write_reply(alloc: Global, r: &Response, head: bool, close: bool) -> Result<Text, NoMemory>
    ensures { IfOk result (λ text. text ≡ reply r.now head close) }
{
    let mut out = Vec::with_capacity(alloc, room(r.fields.as_slice(), r.body.bytes()))?;
    push_status_line(&mut out, r.code, r.phrase.bytes())?;
    push_fields(&mut out, r.fields.as_slice())?;
    push_reply_rest(&mut out, r, head, close)?;
    Ok(Text::from_vec(out))
}

/// The same of a response whose fields are those of the backend that are passed back.
#[tactic(auto, using(crate::proofs::Messages::reply_is))]
pub fn write_unedited_reply(
    alloc: Global,
    r: &Response,
    head: bool,
    close: bool,
) -> Result<Text, NoMemory>
    ensures { IfOk result (λ text. text ≡ reply (record r.now { fields = passed_back r.now.fields }) head close) }
{
    let mut out = Vec::with_capacity(alloc, room(r.fields.as_slice(), r.body.bytes()))?;
    push_status_line(&mut out, r.code, r.phrase.bytes())?;
    push_passed_back(alloc, &mut out, r.fields.as_slice())?;
    push_reply_rest(&mut out, r, head, close)?;
    Ok(Text::from_vec(out))
}

/// The bytes of a reply of this program's own, which has no body.
pub fn write_own(
    alloc: Global,
    code: u16,
    location: Option<&Text>,
    fault: Option<FaultName>,
    close: bool,
) -> Result<Text, NoMemory>
    ensures { IfOk result (λ text. text ≡ own code (option_copied location.entry) fault close) }
{
    let mut out = Vec::new(alloc);
    push_status_line(&mut out, code, phrase_of(code).as_bytes())?;
    push_location(&mut out, location)?;
    push_fault(&mut out, fault)?;
    push_length(&mut out, 0)?;
    push_close(&mut out, close)?;
    push_body(&mut out, b"", false)?;
    Ok(Text::from_vec(out))
}

// Room for a message of these fields and this body.
fn room(fields: &[Field], body: &[u8]) -> usize {
    let mut size = body.len().saturating_add(OTHER_LINES);
    'fields: for field in fields {
        size = size.saturating_add(field_room(field));
    }
    size
}

fn field_room(field: &Field) -> usize {
    let name = field.name.bytes().len().saturating_add(4);
    name.saturating_add(field.value.bytes().len())
}

// Puts a line at the end.
fn push_line(out: &mut Vec<u8>, text: &[u8]) -> Result<(), NoMemory>
    ensures { OnOk result (out.new.items ≡ out.old.items ++ ended_line text.now) }
{
    out.extend_from_slice(text)?;
    out.extend_from_slice(b"\r\n")
}

fn push_field(out: &mut Vec<u8>, name: &[u8], value: &[u8]) -> Result<(), NoMemory>
    ensures { OnOk result (out.new.items ≡ out.old.items ++ ended_line (field_line name.now value.now)) }
{
    out.extend_from_slice(name)?;
    out.extend_from_slice(b": ")?;
    push_line(out, value)
}

fn push_fields(out: &mut Vec<u8>, fields: &[Field]) -> Result<(), NoMemory>
    ensures { OnOk result (out.new.items ≡ out.old.items ++ flat_map ended_line (field_lines fields.now)) }
{
    'fields: for field in fields {
        push_lower_field(out, field)?;
    }
    Ok(())
}

// Puts the fields of a client that are passed on.
#[tactic(auto, using(crate::proofs::Hops::request_hops_are), unfolding(crate::specs::model::Hops::passed_on))]
fn push_passed_on(alloc: Global, out: &mut Vec<u8>, fields: &[Field]) -> Result<(), NoMemory>
    ensures { OnOk result (out.new.items ≡ out.old.items ++ flat_map ended_line (field_lines (passed_on fields.now))) }
{
    push_without(alloc, out, REQUEST_HOPS, fields)
}

// Puts the fields of a backend that are passed back.
#[tactic(auto, using(crate::proofs::Hops::response_hops_are), unfolding(crate::specs::model::Hops::passed_back))]
fn push_passed_back(alloc: Global, out: &mut Vec<u8>, fields: &[Field]) -> Result<(), NoMemory>
    ensures { OnOk result (out.new.items ≡ out.old.items ++ flat_map ended_line (field_lines (passed_back fields.now))) }
{
    push_without(alloc, out, RESPONSE_HOPS, fields)
}

// Puts the fields without those of these names and those that Connection names.
fn push_without(
    alloc: Global,
    out: &mut Vec<u8>,
    names: &[&str],
    fields: &[Field],
) -> Result<(), NoMemory>
    ensures { OnOk result (out.new.items ≡ out.old.items ++ flat_map ended_line (field_lines (without (map (λ n. n.now) names.now) fields.now))) }
{
    let options = Options::of(alloc, fields)?;
    push_others(out, names, &options, fields)
}

fn push_others(
    out: &mut Vec<u8>,
    names: &[&str],
    options: &Options<'_>,
    fields: &[Field],
) -> Result<(), NoMemory>
    ensures { OnOk result (out.new.items ≡ out.old.items ++ flat_map ended_line (field_lines (filter (λ f. not (list_any (same_field_name f.name) (map (λ n. n.now) names.now ++ options.now))) fields.now))) }
{
    'fields: for field in fields {
        if !is_hop(field.name.bytes(), names, options) {
            push_lower_field(out, field)?;
        }
    }
    Ok(())
}

fn push_lower_field(out: &mut Vec<u8>, field: &Field) -> Result<(), NoMemory>
    ensures { OnOk result (out.new.items ≡ out.old.items ++ ended_line (field_line (lower field.now.name) field.now.value)) }
{
    push_lower(out, field.name.bytes())?;
    push_field(out, b"", field.value.bytes())
}

fn push_lower(out: &mut Vec<u8>, text: &[u8]) -> Result<(), NoMemory>
    ensures { OnOk result (out.new.items ≡ out.old.items ++ lower text.now) }
{
    'bytes: for byte in text {
        out.push(byte.to_ascii_lowercase())?;
    }
    Ok(())
}

fn push_length(out: &mut Vec<u8>, size: u64) -> Result<(), NoMemory>
    ensures { OnOk result (out.new.items ≡ out.old.items ++ ended_line (length_line size)) }
{
    push_field(
        out,
        b"content-length",
        Buffer::new().format(size).as_bytes(),
    )
}

fn push_body_length(out: &mut Vec<u8>, body: &[u8], framed: bool) -> Result<(), NoMemory>
    ensures { OnOk result (out.new.items ≡ out.old.items ++ flat_map ended_line (only_if framed (length_line (length body.now)))) }
{
    if framed {
        push_length(out, body.len() as u64)?;
    }
    Ok(())
}

// Puts the empty line, and the body where there is one.
fn push_body(out: &mut Vec<u8>, body: &[u8], framed: bool) -> Result<(), NoMemory>
    ensures { OnOk result (out.new.items ≡ out.old.items ++ ended_line [] ++ (if framed then body.now else [])) }
{
    push_line(out, b"")?;
    if framed {
        out.extend_from_slice(body)?;
    }
    Ok(())
}

// Puts a request's line and its Host.
fn push_request_start(
    out: &mut Vec<u8>,
    method: &[u8],
    target: &[u8],
    host: &[u8],
) -> Result<(), NoMemory>
    ensures { OnOk result (out.new.items ≡ (out.old.items ++ ended_line (method.now ++ codes " " ++ target.now ++ codes " HTTP/1.1")) ++ ended_line (field_line (codes "host") host.now)) }
{
    push_request_line(out, method, target)?;
    push_field(out, b"host", host)
}

// Puts what follows a request's fields.
fn push_request_rest(
    out: &mut Vec<u8>,
    minor: u8,
    body: &[u8],
    framed: bool,
) -> Result<(), NoMemory>
    ensures { OnOk result (out.new.items ≡ request_rest out.old.items minor body.now framed) }
{
    push_line(out, via_line(minor))?;
    push_body_length(out, body, framed)?;
    push_close(out, true)?;
    push_body(out, body, framed)
}

fn push_request_line(out: &mut Vec<u8>, method: &[u8], target: &[u8]) -> Result<(), NoMemory>
    ensures { OnOk result (out.new.items ≡ out.old.items ++ ended_line (method.now ++ codes " " ++ target.now ++ codes " HTTP/1.1")) }
{
    out.extend_from_slice(method)?;
    out.extend_from_slice(b" ")?;
    out.extend_from_slice(target)?;
    push_line(out, b" HTTP/1.1")
}

fn push_status_line(out: &mut Vec<u8>, code: u16, phrase: &[u8]) -> Result<(), NoMemory>
    ensures { OnOk result (out.new.items ≡ out.old.items ++ ended_line (status_line code phrase.now)) }
{
    out.extend_from_slice(b"HTTP/1.1 ")?;
    out.extend_from_slice(&three_digits(code))?;
    out.extend_from_slice(b" ")?;
    push_line(out, phrase)
}

fn three_digits(code: u16) -> [u8; 3]
    ensures { result ≡ three_digits code }
{
    [
        b'0' + (code / 100 % 10) as u8,
        b'0' + (code / 10 % 10) as u8,
        b'0' + (code % 10) as u8,
    ]
}

fn via_line(minor: u8) -> &'static [u8]
    ensures { result.now ≡ via_line minor }
{
    if minor == 0 {
        return b"via: 1.0 gateward";
    }
    b"via: 1.1 gateward"
}

fn push_close(out: &mut Vec<u8>, close: bool) -> Result<(), NoMemory>
    ensures { OnOk result (out.new.items ≡ out.old.items ++ flat_map ended_line (only_if close close_line)) }
{
    if close {
        push_line(out, b"connection: close")?;
    }
    Ok(())
}

fn push_reply_length(out: &mut Vec<u8>, r: &Response, head: bool) -> Result<(), NoMemory>
    ensures { OnOk result (out.new.items ≡ out.old.items ++ flat_map ended_line (reply_length r.now head)) }
{
    if r.code == 204 {
        return Ok(());
    }
    if !is_bodiless(head, r.code) {
        return push_length(out, r.body.bytes().len() as u64);
    }
    match r.length {
        Some(size) => push_length(out, size),
        None => Ok(()),
    }
}

// Puts what follows a response's fields.
fn push_reply_rest(out: &mut Vec<u8>, r: &Response, head: bool, close: bool) -> Result<(), NoMemory>
    ensures { OnOk result (out.new.items ≡ reply_rest out.old.items r.now head close) }
{
    push_reply_length(out, r, head)?;
    push_close(out, close)?;
    push_body(out, r.body.bytes(), !is_bodiless(head, r.code))
}

fn push_location(out: &mut Vec<u8>, location: Option<&Text>) -> Result<(), NoMemory>
    ensures { OnOk result (out.new.items ≡ out.old.items ++ flat_map ended_line (given_line (codes "location") (option_copied location.entry))) }
{
    match location {
        Some(location) => push_field(out, b"location", location.bytes()),
        None => Ok(()),
    }
}

fn push_fault(out: &mut Vec<u8>, fault: Option<FaultName>) -> Result<(), NoMemory>
    ensures { OnOk result (out.new.items ≡ out.old.items ++ flat_map ended_line (given_line (codes "x-gateward-fault") (given_fault fault))) }
{
    match fault {
        Some(fault) => push_field(out, b"x-gateward-fault", fault.as_str().as_bytes()),
        None => Ok(()),
    }
}

/// The phrase of a code of this program's own replies, empty for any other code. Source: RFC 9110, section 15; RFC 6585, section 5.
#[tactic(auto, unfolding(crate::specs::model::Written::phrase_of))]
pub fn phrase_of(code: u16) -> &'static str
    ensures { result.now ≡ phrase_of code }
{
    match code {
        200 => "OK",
        301 => "Moved Permanently",
        302 => "Found",
        303 => "See Other",
        307 => "Temporary Redirect",
        308 => "Permanent Redirect",
        400 => "Bad Request",
        404 => "Not Found",
        405 => "Method Not Allowed",
        413 => "Content Too Large",
        422 => "Unprocessable Content",
        431 => "Request Header Fields Too Large",
        500 => "Internal Server Error",
        501 => "Not Implemented",
        502 => "Bad Gateway",
        503 => "Service Unavailable",
        _ => "",
    }
}

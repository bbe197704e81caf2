ghost use Rattle.std.specs.Prelude.{◌≡◌, ◌||◌, true, false, not, nat_lt, IfOk, codes, map};
ghost use Rattle.std.specs.Char.{is_ascii_uppercase};
ghost use Rattle.std.specs.List.{list_all};
ghost use Rattle.http_uri.specs.Grammar.{path_of, query_of};
ghost use Rattle.gw_messages.specs.model.Values.{are_one_number, has_field, lower, number_of, same_word, values_of};
ghost use Rattle.gw_frames.specs.model.Heads.{authority_of};
ghost use Rattle.gw_frames.specs.model.Requests.{closes, expects, hosted, is_awaited, is_only, IsJudged, request_of, size_of, with_host};
ghost use Rattle.gw_messages.specs.Fields.{first_of};
ghost use Rattle.gw_frames.specs.Judgments.{seen};
ghost use Rattle.gw_frames.specs.Targets.{target_of};

use crate::head::{Head, read_head};
use crate::host::split_host;
use crate::opening::Opening;
use crate::request::Request;
use crate::rules::{code_of, is_framed, size_of};
use crate::target::read_target;
use gw_messages::element::same_word;
use gw_messages::field::{Values, has_element, values_of};
use gw_query::Query;
use gw_text::{Field, Fields, NoMemory, Text};
use http_uri::Uri;
use std::alloc::Global;

/// What a head comes to.
#[derive(Drop)]
pub enum Judgment {
    Refused(u16),
    Opened(Opening),
}

/// Reads the bytes of a head, and tries the tests on it.
pub fn judge(alloc: Global, bytes: &[u8]) -> Result<Judgment, NoMemory>
    ensures { IfOk result (λ judgment. IsJudged bytes.now (seen judgment)) }
{
    let Some(head) = read_head(alloc, bytes)? else {
        return Ok(Judgment::Refused(400));
    };
    let target = read_target(alloc, head.target.bytes())?;
    if let Some(code) = code_of(&head, &target) {
        return Ok(Judgment::Refused(code));
    }
    match target {
        Some(target) => Ok(Judgment::Opened(open(alloc, head, &target)?)),
        None => Ok(Judgment::Refused(400)),
    }
}

// The request that a head opens.
fn open(alloc: Global, head: Head, target: &Uri) -> Result<Opening, NoMemory>
    requires number { are_one_number (values_of (codes "content-length") head.fields) ≡ true }
    requires few { nat_lt 1048576 (number_of (values_of (codes "content-length") head.fields)) ≡ false }
    ensures { IfOk result (λ o. o ≡ record { request = request_of head (target_of target.now); size = size_of head.fields; expects = expects head }) }
{
    let framed = is_framed(head.fields.as_slice());
    let size = size_of(head.fields.as_slice(), framed);
    let expects = expects(&head, size);
    let request = request_of(alloc, head, target, framed)?;
    Ok(Opening {
        request: Box::new(alloc, request)?,
        size,
        expects,
    })
}

// The request with an empty body.
#[tactic(auto, unfolding(crate::specs::model::Requests::request_of))]
fn request_of(alloc: Global, head: Head, target: &Uri, framed: bool) -> Result<Request, NoMemory>
    requires { framed ≡ (has_field (codes "transfer-encoding") head.fields || has_field (codes "content-length") head.fields) }
    ensures { IfOk result (λ request. request ≡ request_of head (target_of target.now)) }
{
    let close = closes(&head);
    let authority = authority_of(alloc, &head, target)?;
    let host = lower(alloc, split_host(authority.bytes()).0)?;
    let path = Text::of(alloc, path_of(target))?;
    let query = read_query(alloc, target)?;
    let fields = hosted(alloc, head.fields, target)?;
    Ok(Request {
        method: head.method,
        target: head.target,
        path,
        authority,
        host,
        query,
        minor: head.minor,
        fields,
        body: Text::from_vec(Vec::new(alloc)),
        framed,
        close,
    })
}

fn read_query(alloc: Global, target: &Uri) -> Result<Option<Query>, NoMemory>
    ensures { IfOk result (λ query. query ≡ query_of (target_of target.now).path_and_query) }
{
    match target.query() {
        Some(query) => Ok(Some(Query::of(alloc, query)?)),
        None => Ok(None),
    }
}

// The target's path, in which an empty one is `/`.
fn path_of(target: &Uri) -> &str
    ensures { result.now ≡ path_of (target_of target.now).path_and_query }
{
    let path = target.path();
    if path.is_empty() { "/" } else { path }
}

fn authority_of(alloc: Global, head: &Head, target: &Uri) -> Result<Text, NoMemory>
    ensures { IfOk result (λ authority. authority ≡ authority_of (target_of target.now) (values_of (codes "host") head.now.fields)) }
{
    match target.authority() {
        Some(authority) => Text::of(alloc, authority.as_str()),
        None => host_of(alloc, head.fields.as_slice()),
    }
}

fn host_of(alloc: Global, fields: &[Field]) -> Result<Text, NoMemory>
    ensures { IfOk result (λ host. host ≡ first_of (values_of (codes "host") fields.now)) }
{
    match values_of(fields, b"host") {
        Values::Absent => Ok(Text::from_vec(Vec::new(alloc))),
        Values::One(host) | Values::Many(host) => Text::from_bytes(alloc, host),
    }
}

// The text in lower case. One that is in lower case takes no memory where it is short.
fn lower(alloc: Global, text: &[u8]) -> Result<Text, NoMemory>
    ensures { IfOk result (λ lowered. lowered ≡ lower text.now) }
{
    if is_lower(text) {
        return Text::from_bytes(alloc, text);
    }
    Ok(Text::from_vec(text.to_ascii_lowercase(alloc)?))
}

fn is_lower(text: &[u8]) -> bool
    ensures { result ≡ list_all (λ b. not (is_ascii_uppercase b)) text.now }
{
    text.iter().all(|byte| !byte.is_ascii_uppercase())
}

// The fields, with the authority of an absolute target in the place of Host's value.
fn hosted(alloc: Global, fields: Fields, target: &Uri) -> Result<Fields, NoMemory>
    ensures { IfOk result (λ all. all ≡ hosted (target_of target.now).authority fields) }
{
    match target.authority() {
        Some(authority) => with_hosts(alloc, fields.as_slice(), authority.as_str().as_bytes()),
        None => Ok(fields),
    }
}

fn with_hosts(alloc: Global, fields: &[Field], authority: &[u8]) -> Result<Fields, NoMemory>
    ensures { IfOk result (λ all. all ≡ map (with_host authority.now) fields.now) }
{
    let mut copied = Vec::with_capacity(alloc, fields.len())?;
    'fields: for field in fields {
        copied.push(with_host(alloc, field, authority)?)?;
    }
    Ok(Fields::from_vec(copied))
}

fn with_host(alloc: Global, field: &Field, authority: &[u8]) -> Result<Field, NoMemory>
    ensures { IfOk result (λ hosted. hosted ≡ with_host authority.now field.now) }
{
    if !field.is_named(b"host") {
        return field.copy(alloc);
    }
    Ok(Field {
        name: field.name.copy(alloc)?,
        value: Text::from_bytes(alloc, authority)?,
    })
}

// Whether the request waits for the answer 100, where its body has this size.
fn expects(head: &Head, size: Option<usize>) -> bool
    requires { size ≡ size_of head.now.fields }
    ensures { result ≡ expects head.now }
{
    head.minor == 1 && is_awaited(size) && asks_to_continue(head.fields.as_slice())
}

fn is_awaited(size: Option<usize>) -> bool
    ensures { result ≡ is_awaited size }
{
    match size {
        Some(size) => size > 0,
        None => true,
    }
}

fn asks_to_continue(fields: &[Field]) -> bool
    ensures { result ≡ is_only (codes "100-continue") (values_of (codes "expect") fields.now) }
{
    match values_of(fields, b"expect") {
        Values::One(value) => is_continue(value),
        Values::Absent => false,
        Values::Many(_) => false,
    }
}

fn is_continue(value: &[u8]) -> bool
    ensures { result ≡ same_word (codes "100-continue") value.now }
{
    same_word(b"100-continue", value)
}

// Whether the connection ends with the request.
fn closes(head: &Head) -> bool
    ensures { result ≡ closes head.now }
{
    head.minor == 0 || has_element(head.fields.as_slice(), b"connection", b"close")
}

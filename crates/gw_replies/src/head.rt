ghost use Rattle.std.specs.Prelude.{◌≡◌, [], IfOk};
ghost use Rattle.httparse.specs.Spans.{IsResponseOf, IsResponseWithin};
ghost use Rattle.gw_replies.specs.model.Responses.{IsHead, response_of};

use crate::length::announced_length;
use crate::response::Response;
use gw_messages::spans::copy_fields;
use gw_text::{Fields, NoMemory, Text};
use httparse::Status;
use httparse::spans::{EMPTY_HEADER_SPAN, HeaderSpan, ResponseSpans, parse_response};
use std::alloc::Global;
use std::marker::Model;

/// A response's head.
#[derive(Drop)]
pub struct Head {
    pub code: u16,
    pub phrase: Text,
    pub fields: Fields,
}

impl Model for Head {
    ghost use Rattle.gw_replies.specs.model.Responses.{Head as Plain};

    ghost Value = { Plain };

    ghost view = { λ h. record { code = h.code; phrase = h.phrase; fields = h.fields } };
}

/// How many fields most heads have at most, and most of those that have many bytes: their spans need no memory.
const FEW_FIELDS: usize = 32;

const MANY_FIELDS: usize = 128;

/// The most bytes of a head that is read with room for few fields at first.
const MOST_OF_FEW: usize = 2048;

/// The head that the bytes are, all of them.
pub fn read_head(alloc: Global, bytes: &[u8]) -> Result<Option<Head>, NoMemory>
    ensures { IfOk result (IsHead bytes.now) }
{
    if bytes.len() > MOST_OF_FEW {
        return read_long_head(alloc, bytes);
    }
    let mut spans = [EMPTY_HEADER_SPAN; FEW_FIELDS];
    read_with(alloc, bytes, &mut spans)
}

// The same with room for many fields. It stands apart, so that the others don't fill that room.
fn read_long_head(alloc: Global, bytes: &[u8]) -> Result<Option<Head>, NoMemory>
    ensures { IfOk result (IsHead bytes.now) }
{
    let mut spans = [EMPTY_HEADER_SPAN; MANY_FIELDS];
    read_with(alloc, bytes, &mut spans)
}

// The same with room for so many fields at first.
fn read_with(
    alloc: Global,
    bytes: &[u8],
    spans: &mut [HeaderSpan],
) -> Result<Option<Head>, NoMemory>
    ensures { IfOk result (IsHead bytes.now) }
{
    match parse_response(bytes, spans) {
        Ok(Status::Complete(head)) => copy_head(alloc, bytes, &head, spans),
        Ok(Status::Partial) => Ok(None),
        Err(_) => read_large_head(alloc, bytes),
    }
}

// The same with room for as many fields as the bytes may have.
fn read_large_head(alloc: Global, bytes: &[u8]) -> Result<Option<Head>, NoMemory>
    ensures { IfOk result (IsHead bytes.now) }
{
    // A field takes at least three bytes.
    let mut spans = Vec::from_elem(alloc, EMPTY_HEADER_SPAN, bytes.len() / 3)?;
    let head = match parse_response(bytes, spans.as_mut_slice()) {
        Ok(Status::Complete(head)) => head,
        Ok(Status::Partial) => return Ok(None),
        Err(_) => return Ok(None),
    };
    copy_head(alloc, bytes, &head, spans.as_slice())
}

// The head that was found, where it is all of the bytes.
fn copy_head(
    alloc: Global,
    bytes: &[u8],
    head: &ResponseSpans,
    spans: &[HeaderSpan],
) -> Result<Option<Head>, NoMemory>
    requires within { IsResponseWithin bytes.now spans.now head.now }
    requires found { IsResponseOf bytes.now spans.now head.now }
    ensures { IfOk result (IsHead bytes.now) }
{
    if head.len != bytes.len() {
        return Ok(None);
    }
    let phrase = Text::from_bytes(alloc, head.reason.of(bytes))?;
    let fields = copy_fields(alloc, bytes, &spans[..head.headers])?;
    Ok(Some(Head {
        code: head.code,
        phrase,
        fields,
    }))
}

impl Head {
    /// The response with an empty body.
    pub fn opened(self, alloc: Global) -> Result<Box<Response>, NoMemory>
        ensures { IfOk result (λ response. response.value ≡ response_of self []) }
    {
        let length = announced_length(self.fields.as_slice());
        let Head {
            code,
            phrase,
            fields,
        } = self;
        let response = Response {
            code,
            phrase,
            fields,
            body: Text::from_vec(Vec::new(alloc)),
            length,
        };
        Ok(Box::new(alloc, response)?)
    }
}

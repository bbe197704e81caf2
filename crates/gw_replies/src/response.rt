ghost use Rattle.std.specs.Prelude.{◌≡◌};

use gw_text::{Fields, Text};
use std::marker::Model;

/// A backend's response. Its texts are any bytes.
#[derive(Drop)]
pub struct Response {
    pub code: u16,
    /// Empty where the status line has none.
    pub phrase: Text,
    /// As they were received.
    pub fields: Fields,
    /// Decoded, where it was chunked.
    pub body: Text,
    /// What a valid Content-Length announced.
    pub length: Option<u64>,
}

impl Model for Response {
    ghost use Rattle.gw_replies.specs.model.Responses.{Response as Plain};

    ghost Value = { Plain };

    ghost view = { λ r. record { code = r.code; phrase = r.phrase; fields = r.fields; body = r.body; length = r.length } };
}

impl Response {
    ghost use Rattle.gw_replies.specs.Replies.{with_body};

    /// The response with this body in the place of its own.
    pub(crate) fn with_body(response: Box<Response>, body: Vec<u8>) -> Box<Response>
        ensures { result.value ≡ with_body response.value body.items }
    {
        let mut response = response;
        response.body = Text::from_vec(body);
        response
    }
}

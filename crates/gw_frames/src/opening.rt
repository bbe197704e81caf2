ghost use Rattle.std.specs.Prelude.{◌≡◌};

use crate::request::Request;
use gw_text::Text;
use std::marker::Model;

/// A request whose body hasn't been read.
#[derive(Drop)]
pub struct Opening {
    /// The request with an empty body, where it stays until it is given.
    pub request: Box<Request>,
    /// How many bytes the body has; none where it is chunked.
    pub size: Option<usize>,
    /// Whether the request waits for the answer 100.
    pub expects: bool,
}

impl Model for Opening {
    ghost use Rattle.gw_frames.specs.model.Requests.{Opening as Plain};

    ghost Value = { Plain };

    ghost view = { λ o. record { request = o.request.value; size = o.size; expects = o.expects } };
}

impl Opening {
    ghost use Rattle.gw_frames.specs.model.Requests.{whole_request};

    /// The request with its body.
    pub fn whole(self, body: Vec<u8>) -> Box<Request>
        ensures { result.value ≡ whole_request self body.items }
    {
        let Opening { request, .. } = self;
        let mut request = request;
        request.body = Text::from_vec(body);
        request
    }
}

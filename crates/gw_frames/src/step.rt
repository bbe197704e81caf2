use crate::request::Request;

/// What the bytes of a connection give next.
#[derive(Drop)]
pub enum Step {
    /// Nothing until more bytes come.
    Need,
    /// A whole request. It stands in a box, so that the other steps, which are more, stay small.
    Ask(Box<Request>),
    /// A request waits for the answer 100 before it sends its body.
    Continue,
    /// A request is refused with this code.
    Bad(u16),
    /// Nothing more: the bytes ended between requests, or the last request was given.
    End,
    /// The bytes ended inside a request.
    Truncated,
}

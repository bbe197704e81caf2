use gw_text::Socket;

/// The calls of an upstream that can fail.
#[derive(Clone, Copy, Debug, PartialEq, Eq)]
pub enum UpstreamCall {
    Connect,
    Send,
    Receive,
}

/// What a backend in memory is to do from now on.
#[derive(Drop)]
pub enum Order {
    /// Give these bytes, and fail in no call.
    Answers(Socket, Vec<u8>),
    /// Fail in this call.
    Fails(Socket, UpstreamCall),
}

use crate::fault::BackendFault;
use crate::response::Response;

/// What the bytes of a backend come to.
#[derive(Drop)]
pub enum ReplyStep {
    /// More bytes are needed.
    Need,
    /// The response. It stands in a box, so that the other steps, which are more, stay small.
    Done(Box<Response>),
    Fault(BackendFault),
}

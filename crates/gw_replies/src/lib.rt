// The bytes of the messages that are sent, requests and responses; and responses out of the bytes of a backend.
#![tactic(auto)]

mod extent;
mod fault;
mod head;
mod hop;
mod kind;
mod length;
mod options;
mod reader;
mod response;
mod step;
mod write;

pub use fault::{BackendFault, FaultName};
pub use hop::{passed_back, passed_on};
pub use reader::ReplyReader;
pub use response::Response;
pub use step::ReplyStep;
pub use write::{
    phrase_of, write_forward, write_own, write_reply, write_unedited_forward, write_unedited_reply,
};

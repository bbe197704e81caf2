// Requests out of the bytes of a connection, in whatever pieces they come.
#![tactic(auto)]

mod ended;
mod fault;
mod head;
mod host;
mod inlet;
mod judgment;
mod opening;
mod request;
mod rules;
mod step;
mod target;

pub use ended::Ended;
pub use inlet::{Inlet, end_behind};
pub use request::Request;
pub use step::Step;

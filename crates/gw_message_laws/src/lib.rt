//! Laws of what the bytes of messages come to: one answer only, and an end behind so many bytes.
#![tactic(auto)]

mod bodies;
mod requests;
mod responses;

pub use bodies::one_body;
pub use requests::{MOST_OPEN_BYTES, most_bytes_of_an_open_connection, one_list_of_steps};
pub use responses::one_outcome;

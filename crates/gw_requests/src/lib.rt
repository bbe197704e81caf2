//! Requests that are given whole, and the words in which they and what belongs to them are given: bytes in quotes, and numbers.
#![tactic(auto)]

mod number;
mod quoted;
mod request;

pub use number::number_below;
pub use quoted::{bytes_in, quoted_bytes};
pub use request::whole_request;

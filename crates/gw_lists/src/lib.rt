//! Lists of changes, for many threads: who adds to a list, and how far each has seen it come. Nothing of a list is stored but its
//! length. The changes themselves stand in contracts alone, by tokens that have no bytes.
#![tactic(auto)]

mod reached;
mod rule;
mod writer;

pub use reached::Reached;
pub use writer::ListWriter;

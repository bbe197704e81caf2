//! What becomes of a request at a door, and why each Route there serves it or doesn't.
#![tactic(auto)]

mod reasons;
mod routes;
mod verdict;
mod why;
mod write;

pub use reasons::Explained;
pub use routes::explain;
pub use verdict::{Verdict, decide, redirect_in};
pub use why::Why;
pub use write::write_explain;

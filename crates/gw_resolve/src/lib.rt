//! The statuses and tables of the objects that are held, kept with them from change to change.
#![tactic(auto)]

mod evaluation;
mod outcome;
mod prepared;
mod resolver;
mod staying;

pub use outcome::Outcome;
pub use prepared::Prepared;
pub use resolver::{Core, Step};

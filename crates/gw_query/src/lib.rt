//! The query of a request, its parameters, and the first parameter of a name.
#![tactic(auto)]

mod parameters;
mod part;
mod query;
mod sorted;

pub use parameters::Parameters;
pub use query::Query;

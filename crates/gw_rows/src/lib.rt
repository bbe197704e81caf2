//! The rows of a door, which of them a request fits, and which of two stands before the other.
#![tactic(auto)]

mod counted;
mod fitting;
mod headers;
mod order;
mod plan;
mod query;
mod row;

pub use fitting::{Test, failed_test, failed_test_with, fits, fits_with};
pub use order::{better, is_total_order, precedence};
pub use plan::{Backend, Backends, Plan, Plans};
pub use row::{Row, Rows, ServedListener};

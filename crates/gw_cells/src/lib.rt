//! The rows of one listener in cells by hostname and path, so that the one that serves a request is found by probing. Copies share
//! the cells in which they don't differ, and rows are added and taken out one at a time.
#![tactic(auto)]

mod address;
mod addressing;
mod cell;
mod cells;
mod find;
mod laws;
mod maps;
mod paths;
mod row_list;
mod rows;
mod standing;

pub use cells::Cells;
pub use laws::order_is_free;
pub use standing::{is_same_host, stands_for};

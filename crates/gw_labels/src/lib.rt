//! Labels of objects, and selectors that accept some of them.
#![tactic(auto)]

mod labels;
mod selector;

pub use labels::Labels;
pub use selector::{Op, Requirement, Selector, accepts};

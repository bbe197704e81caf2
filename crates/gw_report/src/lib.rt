//! What an input of events gives: the lines that are refused, and then the statuses of the objects that are held after it, or
//! what becomes of a request by them.
#![tactic(auto)]

mod explanation;
mod output;
mod print;
mod report;
mod status;

pub use explanation::explanation_output;
pub use output::Output;
pub use print::refused_value;
pub use status::status_output;

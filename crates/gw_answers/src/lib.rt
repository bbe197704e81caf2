//! What is done about a whole request: which backend it goes to, what is sent there, and what the client is answered.
#![tactic(auto)]

mod books;
mod chosen;
mod decision;
mod edits;
mod forward;
mod redirect;
mod reply;
mod row;

pub use books::Books;
pub use chosen::{BackendKey, Chosen};
pub use decision::{Action, Decision, Forward, Reply};
pub use edits::ResponseEdits;
pub use reply::{fault_of, is_head, status_of, write_answer};
pub use row::ServedRow;

//! What the admin endpoint says: which resource a request asks for, and the bytes of each reply.
#![tactic(auto)]

mod changes;
mod explanation;
mod listing;
mod reply;
mod resource;

pub use changes::{Submitted, changes_reply};
pub use explanation::{Question, explanation_reply};
pub use listing::{health_reply, status_reply, table_reply};
pub use reply::{Reply, Status};
pub use resource::{Destination, Resource};

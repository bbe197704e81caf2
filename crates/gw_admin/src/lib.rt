//! The admin endpoint: changes that come over links go to a hub, and what is held is told.
#![tactic(auto)]

mod answer;
mod conn;
mod fault;
mod serve;

pub use fault::AdminFault;
pub use serve::{AdminSession, admin_next, serve_admin};

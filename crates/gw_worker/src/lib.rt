//! The connections of clients: each request is decided by one published list of changes, sent to its backend, and answered.
#![tactic(auto)]

mod conn;
mod next;
mod serve;
mod worker;

pub use conn::{Conn, Served, Turn};
pub use next::serve_next;
pub use serve::{Broken, ConnFault, Flow, Session, serve_proxy};
pub use worker::Worker;

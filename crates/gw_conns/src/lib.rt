//! Connections of clients in memory, each piece of which is served by calls or by a poll: both come to the same.
#![tactic(auto)]

mod connection;

pub use connection::Connection;

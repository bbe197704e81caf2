//! Connections that are served by being polled: a client or a backend that is slow holds no thread.
#![tactic(auto)]

mod alone;
mod conn_future;
mod course;
mod crowd;

pub use alone::{Alone, Finished};
pub use conn_future::ConnFuture;
pub use crowd::{Cause, Crowd, Gone, MOST_OPEN, Parted, Refused};

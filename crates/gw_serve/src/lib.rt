// The command `serve`: jobs that take connections in turn, at the admin socket and at each door, and who starts them.
#![tactic(auto)]

mod fault;
mod job;
mod jobs;
mod polled;
mod serving;

pub use fault::ServeFault;
pub use job::{AdminJob, Job, ProxyJob};
pub use polled::PolledJob;
pub use serving::{READY, Service, serve};

//! One exchange with a backend that is polled: how far it came is kept between the polls, so that a slow backend holds no thread.
#![tactic(auto)]

mod polled;

pub use polled::PolledExchange;

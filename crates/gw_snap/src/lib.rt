//! A value that changes, for those who read it in other threads: each value stands for a list of changes, and nobody sees a list that
//! doesn't begin with all that they saw before. The values stand in `left_right`, so that who reads takes no lock and waits for nobody;
//! the lists stand in tokens, of which only lengths are stored.
#![tactic(auto)]

mod counts;
mod fault;
mod known;
mod note;
mod opening;
mod pass;
mod passes;
mod publisher;
mod rule;
mod shown;
mod told;
mod writer;

pub use counts::SnapFaults;
pub use fault::OpenFault;
pub use note::Note;
pub use opening::snapshots;
pub use pass::{Pass, View};
pub use passes::Passes;
pub use publisher::Publisher;
pub use told::Told;

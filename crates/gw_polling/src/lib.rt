// Links and upstreams that are polled: a call that can't be made yet answers so, and the task is woken when it is worth another
// poll. Each trait has optional meanings, which a real object doesn't tell, and a form in memory that tells all. Writing and
// sending on with a piece is proved here once.
#![tactic(auto)]

mod mem_poll_edge;
mod mem_poll_link;
mod mem_poll_upstream;
mod mem_ring;
mod numbers;
mod poll_edge;
mod poll_link;
mod poll_upstream;
mod readiness;
mod ring;
mod woken;

pub use mem_poll_edge::MemPollEdge;
pub use mem_poll_link::{MemPollLink, Piece};
pub use mem_poll_upstream::MemPollUpstream;
pub use mem_ring::{MemConn, MemRing};
pub use numbers::Numbers;
pub use poll_edge::PollEdge;
pub use poll_link::{PollLink, write_on};
pub use poll_upstream::{PollUpstream, send_on};
pub use ring::Ring;
pub use woken::{RingFault, Woken};

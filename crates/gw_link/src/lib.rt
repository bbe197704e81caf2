// The outside as the program sees it: where bytes come from, where they go, connections with clients and with backends, what
// the time is. Each trait has optional meanings, which a real object doesn't tell, and a form in memory that tells all. Reading
// to the end and writing or sending a whole piece are proved here once.
#![tactic(auto)]

mod clock;
mod exchange;
mod failed;
mod link;
mod mem_clock;
mod mem_link;
mod mem_sink;
mod mem_source;
mod mem_upstream;
mod order;
mod plan;
mod sink;
mod source;
mod upstream;

pub use clock::Clock;
pub use exchange::Exchange;
pub use failed::Failed;
pub use link::{Link, write_whole};
pub use mem_clock::MemClock;
pub use mem_link::MemLink;
pub use mem_sink::MemSink;
pub use mem_source::MemSource;
pub use mem_upstream::MemUpstream;
pub use order::{Order, UpstreamCall};
pub use plan::Plan;
pub use sink::{Sink, write_all};
pub use source::{MOST_INPUT, MOST_PIECE, ReadFault, Source, read_all};
pub use upstream::{Upstream, send_whole};

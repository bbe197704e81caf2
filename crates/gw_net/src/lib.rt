// The real outside: readers and writers, sockets over TCP, threads, the system's clock. They count faults and tell no content of
// sockets, so nothing is proved of what comes and goes. No peer can hold a call for ever: it is given up after a time, or never waits.
#![tactic(auto)]

mod arrivals;
mod endings;
mod fault_count;
mod loop_edge;
mod mio_link;
mod mio_ring;
mod mio_upstream;
mod pieces;
mod std_sink;
mod std_source;
mod streams;
mod tcp_acceptor;
mod tcp_link;
mod tcp_upstream;
mod thread_crew;
mod wait_count;
mod waits;
mod wall_clock;
mod watch;

pub use loop_edge::LoopEdge;
pub use mio_link::MioLink;
pub use mio_ring::MioRing;
pub use mio_upstream::MioUpstream;
pub use std_sink::StdSink;
pub use std_source::StdSource;
pub use tcp_acceptor::TcpAcceptor;
pub use tcp_link::TcpLink;
pub use tcp_upstream::TcpUpstream;
pub use thread_crew::ThreadCrew;
pub use wall_clock::WallClock;

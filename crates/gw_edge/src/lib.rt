// Where connections come from, and what runs jobs: acceptors, the edge that binds them, crews. Each trait has optional meanings,
// which a real object doesn't tell, and a form in memory. Starting a job is proved here once.
#![tactic(auto)]

mod acceptor;
mod crew;
mod edge;
mod mem_acceptor;
mod mem_crew;
mod mem_edge;
mod next;

pub use acceptor::Acceptor;
pub use crew::{Crew, Work, start};
pub use edge::{Edge, EdgeFault};
pub use mem_acceptor::MemAcceptor;
pub use mem_crew::MemCrew;
pub use mem_edge::MemEdge;
pub use next::Next;

ghost use Rattle.std.specs.Prelude.{◌≡◌, ℕ, ◌≤◌, List, [], Option, None, vec_len, IfOk};
ghost use Rattle.gw_link.specs.Faults.{Counts, HasRisen};
ghost use Rattle.gw_link.specs.Exchanges.{Exchange};
ghost use Rattle.gw_link.specs.Pieces.{Keeps};

use crate::acceptor::Acceptor;
use gw_link::{Failed, Upstream};
use gw_text::{NoMemory, Socket};
use std::alloc::Global;

/// Why a socket wasn't bound, or a job not started.
#[derive(Clone, Copy, Debug, PartialEq, Eq)]
pub enum EdgeFault {
    /// The count of faults has risen.
    Failed,
    NoMemory,
}

impl From<Failed> for EdgeFault {
    ghost use Rattle.gw_edge.specs.declared.edge.EdgeFault.TheVariants.{Failed as EdgeFailed};

    ghost from_gives = { λ _ fault. fault ≡ EdgeFailed };

    fn from(_: Failed) -> Self {
        EdgeFault::Failed
    }
}

impl From<NoMemory> for EdgeFault {
    ghost use Rattle.gw_edge.specs.declared.edge.EdgeFault.TheVariants.{NoMemory as OutOfMemory};

    ghost from_gives = { λ _ fault. fault ≡ OutOfMemory };

    fn from(_: NoMemory) -> Self {
        EdgeFault::NoMemory
    }
}

/// Where sockets are bound and upstreams are made.
pub trait Edge {
    type Accept: Acceptor;

    type Up: Upstream;

    // How many calls have failed; at the last u64 it stays.
    ghost faults: { Self → ℕ };

    /// Binds the socket, and gives so many acceptors that share it.
    fn bind(
        &mut self,
        alloc: Global,
        at: Socket,
        places: usize,
    ) -> Result<Vec<Self::Accept>, EdgeFault>
        ensures places { IfOk result (λ acceptors. vec_len acceptors ≡ places) }
        ensures failed { result ≡ Err EdgeFault.Failed → HasRisen (faults self.old) (faults self.new) }
        ensures later { faults self.old ≤ faults self.new };

    /// An upstream without a connection.
    fn upstream(&mut self) -> Result<Self::Up, Failed>
        ensures apart { IfOk result (λ up. Self.Up.at up ≡ None) }
        ensures counts { Counts (faults self.old) (faults self.new) result };
}

ghost use Rattle.std.specs.Prelude.{◌≡◌, ◌≤◌, vec_len, IfOk};
ghost use Rattle.gw_link.specs.Faults.{HasRisen};

use crate::ring::Ring;
use gw_edge::{Edge, EdgeFault};
use gw_text::Socket;
use std::alloc::Global;

/// An edge that gives rings too.
pub trait PollEdge: Edge {
    type Ring: Ring;

    /// Binds the socket, and gives so many rings that share it.
    fn ring(
        &mut self,
        alloc: Global,
        at: Socket,
        places: usize,
    ) -> Result<Vec<Self::Ring>, EdgeFault>
        ensures places { IfOk result (λ rings. vec_len rings ≡ places) }
        ensures failed { result ≡ Err EdgeFault.Failed → HasRisen (Self.faults self.old) (Self.faults self.new) }
        ensures later { Self.faults self.old ≤ Self.faults self.new };
}

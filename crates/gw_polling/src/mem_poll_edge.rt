ghost use Rattle.std.specs.Prelude.{◌≡◌, ◌↔◌, ◌+◌, ◌≤◌, None, min, vec_len, if◌then◌else◌, IfOk, IsTrue, is_err};
ghost use Rattle.gw_link.specs.Faults.{HasRisen, last_count};
ghost use Rattle.gw_link.specs.Memory.{first_call, is_failing, after_pass, after_fail};
ghost use Rattle.gw_polling.specs.RingMemory.{PollEdgeState};

use crate::mem_ring::{Left, MemConn, MemRing};
use crate::poll_edge::PollEdge;
use gw_edge::{Edge, EdgeFault, MemAcceptor, MemEdge};
use gw_link::{Failed, MemUpstream, Plan};
use gw_text::{NoMemory, Socket};
use std::alloc::Global;
use std::marker::Model;
use std::sync::{Arc, OnceLock};

// A ring that waits for its socket to be bound.
#[derive(Drop)]
struct Waiting {
    at: Socket,
    ring: MemRing,
}

/// An edge in memory that gives rings too. A socket gives the rings that wait for it, in the order in which they were added, and
/// where there are too few of them, rings to which no connection comes. All else is the edge's that it is made of.
#[derive(Drop)]
pub struct MemPollEdge {
    alloc: Global,
    edge: MemEdge,
    waiting: Vec<Waiting>,
    lefts: Vec<Left>,
    plan: Plan,
}

impl Model for MemPollEdge {
    ghost Value = { PollEdgeState };

    ghost view = { λ e. record { edge = e.edge; calls = e.plan } };
}

impl MemPollEdge {
    /// An edge to which no ring was added. `fails`: the numbers of the calls of `ring` that fail, from 0.
    pub fn new(alloc: Global, edge: MemEdge, fails: Vec<u64>) -> Self
        ensures { result ≡ record { edge = edge; calls = first_call fails.items } }
    {
        MemPollEdge {
            alloc,
            edge,
            waiting: Vec::new(alloc),
            lefts: Vec::new(alloc),
            plan: Plan::new(fails),
        }
    }

    /// One more ring for the socket. An added ring is numbered from 0, whatever its socket is.
    pub fn add_ring(&mut self, at: Socket, mut ring: MemRing) -> Result<(), NoMemory>
        ensures same { self.new ≡ self.old }
    {
        let cell = OnceLock::new();
        let left = Arc::new(self.alloc, cell)?;
        ring.leave_to(Arc::try_clone(&left)?);
        self.lefts.push(left)?;
        self.waiting.push(Waiting { at, ring })?;
        Ok(())
    }

    /// The connections that the added ring of this number has closed, once it is dropped.
    pub fn closed(&self, number: usize) -> Option<&[MemConn]> {
        let conns = self.lefts.get(number)?.get()?;
        Some(conns.as_slice())
    }

    /// The edge that it is made of.
    pub fn edge(&self) -> &MemEdge
        ensures { result.now ≡ self.now.edge }
    {
        &self.edge
    }

    /// How many calls have failed.
    pub fn faults(&self) -> u64
        ensures { result ≡ min (self.now.edge.calls.faults + self.now.calls.faults) last_count }
    {
        self.edge.faults().saturating_add(self.plan.faults())
    }

    // The next ring that waits for the socket, or one to which no connection comes.
    fn ring_at(&mut self, at: Socket) -> MemRing
        ensures { self.new ≡ self.old }
    {
        let place = self
            .waiting
            .iter()
            .position(|waiting| waiting.at.same_socket(&at));
        match place {
            Some(place) if place < self.waiting.len() => self.waiting.remove(place).ring,
            _ => MemRing::new(self.alloc, Vec::new(self.alloc), Vec::new(self.alloc)),
        }
    }
}

impl Edge for MemPollEdge {
    type Accept = MemAcceptor;

    type Up = MemUpstream;

    ghost faults = { λ e. e.edge.calls.faults + e.calls.faults };

    fn bind(
        &mut self,
        alloc: Global,
        at: Socket,
        places: usize,
    ) -> Result<Vec<MemAcceptor>, EdgeFault>
        ensures failed { (result ≡ Err EdgeFault.Failed) ↔ IsTrue (is_failing self.old.edge.calls) }
        ensures places { IfOk result (λ acceptors. vec_len acceptors ≡ places) }
        ensures after { self.new ≡ record self.old {
          edge = record self.old.edge {
            calls = if is_failing self.old.edge.calls then after_fail self.old.edge.calls else after_pass self.old.edge.calls;
          };
        } }
    {
        self.edge.bind(alloc, at, places)
    }

    fn upstream(&mut self) -> Result<MemUpstream, Failed>
        ensures failed { is_err result ≡ is_failing self.old.edge.calls }
        ensures apart { IfOk result (λ up. up.at ≡ None) }
        ensures rings { self.new.calls ≡ self.old.calls }
        ensures calls { self.new.edge.calls ≡ (if is_failing self.old.edge.calls then after_fail self.old.edge.calls else after_pass self.old.edge.calls) }
    {
        self.edge.upstream()
    }
}

impl PollEdge for MemPollEdge {
    type Ring = MemRing;

    fn ring(&mut self, alloc: Global, at: Socket, places: usize) -> Result<Vec<MemRing>, EdgeFault>
        ensures failed { (result ≡ Err EdgeFault.Failed) ↔ IsTrue (is_failing self.old.calls) }
        ensures places { IfOk result (λ rings. vec_len rings ≡ places) }
        ensures after { self.new ≡ record self.old { calls = if is_failing self.old.calls then after_fail self.old.calls else after_pass self.old.calls } }
    {
        if self.plan.fails() {
            self.plan.fail();
            return Err(EdgeFault::Failed);
        }
        self.plan.pass();
        let mut rings = Vec::with_capacity(alloc, places)?;
        'places: for _place in 0..places {
            rings.push_reserved(self.ring_at(at));
        }
        Ok(rings)
    }
}

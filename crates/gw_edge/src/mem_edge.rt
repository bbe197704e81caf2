ghost use Rattle.std.specs.Prelude.{◌≡◌, ℕ, ◌++◌, ◌∷◌, ◌<◌, ◌↔◌, [], None, drop, length, vec_len, slice_index_or, if◌then◌else◌, IfOk, OnOk, OnErr, IsTrue, is_err};
ghost use Rattle.gw_link.specs.Memory.{first_call, is_failing, after_fail, after_pass};
ghost use Rattle.gw_link.specs.Upstreams.{after_close};
ghost use Rattle.gw_edge.specs.EdgeMemory.{EdgeState};

use crate::edge::{Edge, EdgeFault};
use crate::mem_acceptor::{Left, MemAcceptor};
use gw_link::{Failed, MemLink, MemUpstream, Plan, Upstream};
use gw_text::{NoMemory, Socket};
use std::alloc::Global;
use std::marker::Model;
use std::sync::{Arc, OnceLock};

// An acceptor that waits for its socket to be bound.
#[derive(Drop)]
struct Waiting {
    at: Socket,
    acceptor: MemAcceptor,
}

/// An edge in memory. A socket that is bound gives the acceptors that wait for it, in the order in which they were added, and
/// where there are too few of them, acceptors to which no link comes. `upstream` gives the added upstreams in turn, and where they
/// are used up, one without orders. Its calls that fail are numbered together.
#[derive(Drop)]
pub struct MemEdge {
    alloc: Global,
    waiting: Vec<Waiting>,
    lefts: Vec<Left>,
    upstreams: Vec<MemUpstream>,
    plan: Plan,
}

impl Model for MemEdge {
    ghost Value = { EdgeState };

    ghost view = { λ e. record { upstreams = e.upstreams.items; calls = e.plan } };
}

impl MemEdge {
    /// An edge to which nothing was added. `fails`: the numbers of the calls of `bind` and `upstream` that fail, from 0.
    pub fn new(alloc: Global, fails: Vec<u64>) -> Self
        ensures { result ≡ record { upstreams = []; calls = first_call fails.items } }
    {
        MemEdge {
            alloc,
            waiting: Vec::new(alloc),
            lefts: Vec::new(alloc),
            upstreams: Vec::new(alloc),
            plan: Plan::new(fails),
        }
    }

    /// One more acceptor for the socket. An added acceptor is numbered from 0, whatever its socket is.
    pub fn add_acceptor(&mut self, at: Socket, mut acceptor: MemAcceptor) -> Result<(), NoMemory>
        ensures same { self.new ≡ self.old }
    {
        let cell = OnceLock::new();
        let left = Arc::new(self.alloc, cell)?;
        acceptor.leave_to(Arc::try_clone(&left)?);
        self.lefts.push(left)?;
        self.waiting.push(Waiting { at, acceptor })?;
        Ok(())
    }

    /// One more upstream.
    pub fn add_upstream(&mut self, upstream: MemUpstream) -> Result<(), NoMemory>
        ensures ok { OnOk result (self.new ≡ record self.old { upstreams = self.old.upstreams ++ upstream ∷ [] }) }
        ensures err { OnErr result (self.new ≡ self.old) }
    {
        self.upstreams.push(upstream)?;
        Ok(())
    }

    /// The links that the added acceptor of this number has closed, once it is dropped: what the run wrote to them can be read here.
    pub fn closed(&self, number: usize) -> Option<&[MemLink]> {
        let links = self.lefts.get(number)?.get()?;
        Some(links.as_slice())
    }

    /// How many calls have failed.
    pub fn faults(&self) -> u64
        ensures { result ≡ self.now.calls.faults }
    {
        self.plan.faults()
    }

    // The next acceptor that waits for the socket, or one to which no link comes.
    fn acceptor_at(&mut self, at: Socket) -> MemAcceptor
        ensures { self.new ≡ self.old }
    {
        let place = self
            .waiting
            .iter()
            .position(|waiting| waiting.at.same_socket(&at));
        match place {
            Some(place) if place < self.waiting.len() => self.waiting.remove(place).acceptor,
            _ => MemAcceptor::new(self.alloc, Vec::new(self.alloc), Vec::new(self.alloc)),
        }
    }
}

impl Edge for MemEdge {
    type Accept = MemAcceptor;

    type Up = MemUpstream;

    ghost faults = { λ e. e.calls.faults };

    fn bind(
        &mut self,
        alloc: Global,
        at: Socket,
        places: usize,
    ) -> Result<Vec<MemAcceptor>, EdgeFault>
        ensures failed { (result ≡ Err EdgeFault.Failed) ↔ IsTrue (is_failing self.old.calls) }
        ensures places { IfOk result (λ acceptors. vec_len acceptors ≡ places) }
        ensures after { self.new ≡ record self.old { calls = if is_failing self.old.calls then after_fail self.old.calls else after_pass self.old.calls } }
    {
        if self.plan.fails() {
            self.plan.fail();
            return Err(EdgeFault::Failed);
        }
        self.plan.pass();
        let mut acceptors = Vec::with_capacity(alloc, places)?;
        'places: for _place in 0..places {
            acceptors.push_reserved(self.acceptor_at(at));
        }
        Ok(acceptors)
    }

    fn upstream(&mut self) -> Result<MemUpstream, Failed>
        ensures failed { is_err result ≡ is_failing self.old.calls }
        ensures next { IfOk result (λ up. 0 < length self.old.upstreams → up ≡ after_close (slice_index_or self.old.upstreams 0 up)) }
        ensures fresh { IfOk result (λ up. self.old.upstreams ≡ [] → (up.exchanges ≡ []) × (up.orders ≡ [])) }
        ensures apart { IfOk result (λ up. up.at ≡ None) }
        ensures after { self.new ≡ (if is_failing self.old.calls then record self.old { calls = after_fail self.old.calls }
            else record { upstreams = drop 1 self.old.upstreams; calls = after_pass self.old.calls }) }
    {
        if self.plan.fails() {
            self.plan.fail();
            return Err(Failed);
        }
        self.plan.pass();
        if self.upstreams.is_empty() {
            return Ok(MemUpstream::new(self.alloc, Vec::new(self.alloc)));
        }
        let mut upstream = self.upstreams.remove(0);
        upstream.close();
        Ok(upstream)
    }
}

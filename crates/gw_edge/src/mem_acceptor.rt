ghost use Rattle.std.specs.Prelude.{◌≡◌, ℕ, ◌+◌, ◌-◌, ◌<◌, ◌⊎◌, [], Some, map, vec_len, vec_capacity, slice_get, IfOk, OnSome, OnErr, IsErr, IsTrue, is_ok};
ghost use Rattle.gw_link.specs.Memory.{first_call, is_failing};
ghost use Rattle.gw_edge.specs.EdgeMemory.{AcceptorState, told, after_accept, after_closing};

use crate::acceptor::Acceptor;
use gw_link::{Failed, MemLink, Plan};
use std::alloc::Global;
use std::marker::Model;
use std::sync::{Arc, OnceLock};

/// The closed links of one acceptor, once it is dropped.
pub(crate) type Left = Arc<OnceLock<Vec<MemLink>>>;

// The links that were closed. Where they are to be left to somebody, they are when this is dropped.
struct Closed {
    links: Vec<MemLink>,
    left_to: Option<Left>,
}

impl Drop for Closed {
    fn drop(self) {
        let Closed { links, left_to } = self;
        if let Some(left) = left_to {
            drop(left.try_set(links));
        }
    }
}

/// An acceptor that gives links from memory, in turn, and keeps those that are closed.
#[derive(Drop)]
pub struct MemAcceptor {
    coming: Vec<MemLink>,
    closed: Closed,
    starved: u64,
    plan: Plan,
}

impl Model for MemAcceptor {
    ghost Value = { AcceptorState };

    ghost view = { λ a. record {
      coming = a.coming.items;
      closed = a.closed.links.items;
      room = vec_capacity a.closed.links - vec_len a.closed.links;
      starved = a.starved;
      calls = a.plan;
    } };
}

impl MemAcceptor {
    /// `coming`: the links to come. `fails`: the numbers of the calls of `accept` that fail, from 0.
    pub fn new(alloc: Global, coming: Vec<MemLink>, fails: Vec<u64>) -> Self
        ensures { result ≡ record {
          coming = coming.items;
          closed = [];
          room = result.room;
          starved = 0;
          calls = first_call fails.items;
        } }
    {
        MemAcceptor {
            coming,
            closed: Closed {
                links: Vec::new(alloc),
                left_to: None,
            },
            starved: 0,
            plan: Plan::new(fails),
        }
    }

    /// The links to come.
    pub fn coming(&self) -> &[MemLink]
        ensures { result.now ≡ self.now.coming }
    {
        self.coming.as_slice()
    }

    /// The links that were closed, in their order.
    pub fn closed(&self) -> &[MemLink]
        ensures { result.now ≡ self.now.closed }
    {
        self.closed.links.as_slice()
    }

    /// How many calls of `accept` have failed, for want of memory or not.
    pub fn faults(&self) -> u64
        ensures { result ≡ self.now.calls.faults }
    {
        self.plan.faults()
    }

    /// How many calls of `accept` have failed for want of memory.
    pub fn starved(&self) -> u64
        ensures { result ≡ self.now.starved }
    {
        self.starved
    }

    /// Leaves the closed links there when the acceptor is dropped.
    pub(crate) fn leave_to(&mut self, left: Left)
        ensures { self.new ≡ self.old }
    {
        self.closed.left_to = Some(left);
    }
}

impl Acceptor for MemAcceptor {
    type Conn = MemLink;

    ghost coming = { λ a. Some (map told a.coming) };

    ghost closed = { λ a. Some (map told a.closed) };

    ghost has_room = { λ a. 0 < a.room };

    ghost faults = { λ a. a.calls.faults };

    fn accept(&mut self) -> Result<Option<MemLink>, Failed>
        // It fails where it is listed, and else only where memory was wanted and refused.
        ensures listed { IsTrue (is_failing self.old.calls) → IsErr result }
        ensures wanted { OnErr result (IsTrue (is_failing self.old.calls) ⊎ (self.old.room ≡ 0)) }

        ensures next { IfOk result (λ link. link ≡ slice_get self.old.coming 0) }
        ensures room { IfOk result (λ link. OnSome link (0 < self.new.room)) }
        ensures after { self.new ≡ record (after_accept (is_ok result) self.old) { room = self.new.room } }
    {
        if self.plan.fails() {
            self.plan.fail();
            return Err(Failed);
        }
        if self.coming.is_empty() {
            self.plan.pass();
            return Ok(None);
        }
        // The room for this link among the closed ones.
        if self.closed.links.reserve(1).is_err() {
            self.plan.fail();
            self.starved = self.starved.saturating_add(1);
            return Err(Failed);
        }
        self.plan.pass();
        Ok(Some(self.coming.remove(0)))
    }

    fn close(&mut self, link: MemLink)
        requires { 0 < self.old.room }
        ensures after { self.new ≡ after_closing link self.old }
    {
        self.closed.links.push_reserved(link);
    }
}

ghost use Rattle.std.specs.Prelude.{◌≡◌, ◌↔◌, ◌⊎◌, ◌+◌, ◌-◌, ◌<◌, ◌≤◌, [], ◌++◌, Some, false, length, vec_len, vec_capacity, slice_get, IfSome, IfOk, OnOk, OnErr, IsTrue};
ghost use Rattle.std.specs.List.{range_with_len};
ghost use Rattle.std.specs.Option.{option_to_list};
ghost use Rattle.futures.specs.Task.{Keeps as KeepsTask};
ghost use Rattle.gw_link.specs.Faults.{last_count};
ghost use Rattle.gw_link.specs.Memory.{first_call};
ghost use Rattle.gw_polling.specs.Rings.{is_among, without, woken_number, new_number, IfNew, IfNamed, Comes};
ghost use Rattle.gw_polling.specs.RingMemory.{ConnState, RingState, fails_to_wait, after_giving, after_wait_of, after_close_of};

use crate::mem_poll_link::MemPollLink;
use crate::mem_poll_upstream::MemPollUpstream;
use crate::numbers::Numbers;
use crate::readiness::take_away;
use crate::ring::Ring;
use crate::woken::{RingFault, Woken};
use futures::task::Context;
use gw_link::Plan;
use gw_text::NoMemory;
use std::alloc::Global;
use std::marker::Model;
use std::sync::{Arc, OnceLock, Wait};

/// A connection in memory: its link, and the upstream that it has.
#[derive(Drop)]
pub struct MemConn {
    pub link: MemPollLink,
    pub up: MemPollUpstream,
}

impl Model for MemConn {
    ghost Value = { ConnState };

    ghost view = { λ c. record { link = c.link; up = c.up } };
}

/// The closed connections of one ring, once it is dropped.
pub(crate) type Left = Arc<OnceLock<Vec<MemConn>>>;

// The connections that were closed. Where they are to be left to somebody, they are when this is dropped.
struct Closed {
    conns: Vec<MemConn>,
    left_to: Option<Left>,
}

impl Drop for Closed {
    fn drop(self) {
        let Closed { conns, left_to } = self;
        if let Some(left) = left_to {
            drop(left.try_set(conns));
        }
    }
}

/// A ring that gives connections from memory, in turn, and then names all that are open at each wait. It keeps those that are
/// closed.
#[derive(Drop)]
pub struct MemRing {
    coming: Vec<MemConn>,
    open_numbers: Vec<u64>,
    closed: Closed,
    next: u64,
    plan: Plan,
}

impl Model for MemRing {
    ghost Value = { RingState };

    ghost view = { λ r. record {
      coming = r.coming.items;
      open_numbers = r.open_numbers.items;
      closed = r.closed.conns.items;
      next = r.next;
      room = vec_capacity r.closed.conns - vec_len r.closed.conns;
      calls = r.plan;
    } };

    // There is room for each connection that is open_numbers.
    ghost invariant = { λ r. vec_len r.closed.conns + vec_len r.open_numbers ≤ vec_capacity r.closed.conns };
}

impl MemRing {
    /// `coming`: the connections to come. `fails`: the numbers of the waits that fail, from 0.
    pub fn new(alloc: Global, coming: Vec<MemConn>, fails: Vec<u64>) -> Self
        ensures { result ≡ record {
          coming = coming.items;
          open_numbers = [];
          closed = [];
          next = 0;
          room = result.room;
          calls = first_call fails.items;
        } }
    {
        MemRing {
            coming,
            open_numbers: Vec::new(alloc),
            closed: Closed {
                conns: Vec::new(alloc),
                left_to: None,
            },
            next: 0,
            plan: Plan::new(fails),
        }
    }

    /// The connections to come.
    pub fn coming(&self) -> &[MemConn]
        ensures { result.now ≡ self.now.coming }
    {
        self.coming.as_slice()
    }

    /// The numbers of the open connections. Numbers are given from 0 on.
    pub fn open_numbers(&self) -> &[u64]
        ensures { result.now ≡ self.now.open_numbers }
    {
        self.open_numbers.as_slice()
    }

    /// The connections that were closed, in their order.
    pub fn closed(&self) -> &[MemConn]
        ensures { result.now ≡ self.now.closed }
    {
        self.closed.conns.as_slice()
    }

    /// How many waits have failed.
    pub fn faults(&self) -> u64
        ensures { result ≡ self.now.calls.faults }
    {
        self.plan.faults()
    }

    /// Leaves the closed connections there when the ring is dropped.
    pub(crate) fn leave_to(&mut self, left: Left)
        ensures { self.new ≡ self.old }
    {
        self.closed.left_to = Some(left);
    }

    // Gives the first connection to come. Where memory is wanted all is as before.
    fn give(&mut self) -> Result<Woken<MemPollLink, MemPollUpstream>, NoMemory>
        requires some { 0 < length self.old.coming }
        requires left { self.old.next < last_count }
        ensures first { IfNew result (λ number link up. (number ≡ self.old.next) × (slice_get self.old.coming 0 ≡ Some (record { link = link; up = up }))) }
        ensures number { IfOk result (λ woken. woken_number woken ≡ Some self.old.next) }
        ensures next { OnOk result (self.new.next ≡ self.old.next + 1) }
        ensures ok { OnOk result (self.new ≡ record (after_giving self.old.coming self.old) { room = self.new.room }) }
        ensures err { OnErr result (self.new ≡ record self.old { room = self.new.room }) }
    {
        // The room in which this connection is closed.
        self.closed.conns.reserve(self.open_numbers.len() + 1)?;
        self.open_numbers.push(self.next)?;
        let number = self.next;
        self.next += 1;
        self.plan.pass();
        let MemConn { link, up } = self.coming.remove(0);
        Ok(Woken::New(number, link, up))
    }
}

impl Ring for MemRing {
    type Link = MemPollLink;

    type Up = MemPollUpstream;

    ghost coming = { λ r. Some (length r.coming) };

    ghost open_numbers = { λ r. r.open_numbers };

    ghost given_numbers = { λ r. range_with_len 0 r.next };

    ghost faults = { λ r. r.calls.faults };

    fn wait<R: Wait>(
        &mut self,
        _rt: &R,
        alloc: Global,
        _cx: &mut Context<'_>,
    ) -> Result<Woken<MemPollLink, MemPollUpstream>, RingFault>
        ensures failed { (result ≡ Err RingFault.Failed) ↔ IsTrue (fails_to_wait self.old) }
        ensures starved { result ≡ Err RingFault.NoMemory → self.new ≡ record self.old { room = self.new.room } }
        ensures after { (result ≡ Err RingFault.NoMemory) ⊎ (self.new ≡ record (after_wait_of self.old) { room = self.new.room }) }
        ensures first { IfNew result (λ number link up. (number ≡ self.old.next) × (slice_get self.old.coming 0 ≡ Some (record { link = link; up = up }))) }
        ensures named { IfNamed result (λ numbers. (self.old.coming ≡ []) × (numbers ≡ self.old.open_numbers)) }
        ensures done { result ≡ Ok Woken.Done → (self.new.open_numbers ≡ []) × (self.new.coming ≡ []) }
        ensures opens { self.new.open_numbers ≡ self.old.open_numbers ++ option_to_list (new_number result) }
        ensures gives { range_with_len 0 self.new.next ≡ range_with_len 0 self.old.next ++ option_to_list (new_number result) }
        ensures once { IfSome (new_number result) (λ number. is_among number (range_with_len 0 self.old.next) ≡ false) }
        ensures comes { Comes (Some (length self.old.coming)) (new_number result) (Some (length self.new.coming)) }
        ensures task { KeepsTask _cx.old _cx.new }
    {
        let is_over = self.next == u64::MAX && !self.coming.is_empty();
        if is_over || self.plan.fails() {
            self.plan.fail();
            return Err(RingFault::Failed);
        }
        if !self.coming.is_empty() {
            return Ok(self.give()?);
        }
        if self.open_numbers.is_empty() {
            self.plan.pass();
            return Ok(Woken::Done);
        }
        let numbers = Numbers::of(alloc, &self.open_numbers)?;
        self.plan.pass();
        Ok(Woken::Ready(numbers))
    }

    fn close(&mut self, number: u64, link: MemPollLink, up: MemPollUpstream)
        ensures after { self.new ≡ after_close_of number (record { link = link; up = up }) self.old }
        ensures closes { self.new.open_numbers ≡ without number self.old.open_numbers }
    {
        if self.open_numbers.contains(&number) {
            take_away(&mut self.open_numbers, number);
            self.closed.conns.push_reserved(MemConn { link, up });
        }
    }
}

ghost use Rattle.std.specs.Prelude.{◌≡◌, ℕ, ◌+◌, ◌-◌, ◌<◌, ◌≤◌, ◌⊎◌, [], Some, length, vec_len, vec_capacity, IfOk, OnOk, OnErr, IsErr, IsTrue, is_ok};
ghost use Rattle.gw_link.specs.Memory.{SinkState, first_call, is_failing, write_size, after_write};

use crate::failed::Failed;
use crate::plan::Plan;
use crate::sink::Sink;
use gw_text::NoMemory;
use std::alloc::Global;
use std::marker::Model;

/// A sink that keeps in memory what it takes. Its `room` is the bytes that it has memory for.
#[derive(Drop)]
pub struct MemSink {
    bytes: Vec<u8>,
    most: usize,
    starved: u64,
    plan: Plan,
}

impl Model for MemSink {
    ghost Value = { SinkState };

    ghost view = { λ s. record {
      written = s.bytes.items;
      room = vec_capacity s.bytes - vec_len s.bytes;
      most = s.most;
      starved = s.starved;
      calls = s.plan;
    } };

    ghost invariant = { λ s. 0 < s.most };
}

impl MemSink {
    /// An empty sink. `fails`: the numbers of the writes that fail, from 0.
    pub fn new(alloc: Global, fails: Vec<u64>) -> Self
        ensures { result ≡ record {
          written = [];
          room = result.room;
          most = usize.MAX;
          starved = 0;
          calls = first_call fails.items;
        } }
    {
        MemSink {
            bytes: Vec::new(alloc),
            most: usize::MAX,
            starved: 0,
            plan: Plan::new(fails),
        }
    }

    /// The same sink, which takes at most `most` bytes in one write.
    pub fn at_most(self, most: usize) -> Self
        requires { 0 < most }
        ensures { result ≡ record self { most = most } }
    {
        MemSink {
            bytes: self.bytes,
            most,
            starved: self.starved,
            plan: self.plan,
        }
    }

    /// Takes memory for `more` bytes at once.
    pub fn reserve(&mut self, more: usize) -> Result<(), NoMemory>
        ensures room { OnOk result (more ≤ self.new.room) }
        ensures same { self.new ≡ record self.old { room = self.new.room } }
    {
        self.bytes.reserve(more)
    }

    /// The bytes that were written.
    pub fn written(&self) -> &[u8]
        ensures { result.now ≡ self.now.written }
    {
        self.bytes.as_slice()
    }

    /// How many writes have failed, for want of memory or not.
    pub fn faults(&self) -> u64
        ensures { result ≡ self.now.calls.faults }
    {
        self.plan.faults()
    }

    /// How many writes have failed for want of memory.
    pub fn starved(&self) -> u64
        ensures { result ≡ self.now.starved }
    {
        self.starved
    }
}

impl Sink for MemSink {
    ghost written = { λ s. Some s.written };

    ghost faults = { λ s. s.calls.faults };

    fn write(&mut self, piece: &[u8]) -> Result<usize, Failed>
        requires { 0 < length piece.now }
        // It fails where it is listed, and else only where memory was wanted and refused.
        ensures listed { IsTrue (is_failing self.old.calls) → IsErr result }
        ensures wanted { OnErr result (IsTrue (is_failing self.old.calls) ⊎ (self.old.room < write_size piece.now self.old)) }

        ensures size { IfOk result (λ n. n ≡ write_size piece.now self.old) }
        ensures some { IfOk result (λ n. 0 < n) }
        ensures after { self.new ≡ record (after_write piece.now (is_ok result) self.old) { room = self.new.room } }

        // The memory that it has is never given back.
        ensures room { length self.old.written + self.old.room ≤ length self.new.written + self.new.room }
    {
        if self.plan.fails() {
            self.plan.fail();
            return Err(Failed);
        }
        let taken = piece.len().min(self.most);
        match self.bytes.extend_from_slice(&piece[..taken]) {
            Ok(()) => {
                self.plan.pass();
                Ok(taken)
            }
            Err(_) => {
                self.plan.fail();
                self.starved = self.starved.saturating_add(1);
                Err(Failed)
            }
        }
    }
}

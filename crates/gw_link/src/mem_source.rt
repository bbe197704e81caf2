ghost use Rattle.std.specs.Prelude.{◌≡◌, ℕ, ◌+◌, ◌<◌, ◌≤◌, [], Some, length, take, drop, vec_len, IfOk, OnErr, is_err};
ghost use Rattle.gw_link.specs.Memory.{SourceState, first_call, is_failing, read_size, after_read};

use crate::failed::Failed;
use crate::plan::Plan;
use crate::source::Source;
use std::marker::Model;

/// A source that gives bytes from memory.
#[derive(Drop)]
pub struct MemSource {
    bytes: Vec<u8>,
    at: usize,
    most: usize,
    plan: Plan,
}

impl Model for MemSource {
    ghost Value = { SourceState };

    ghost view = { λ s. record {
      left = drop s.at s.bytes.items;
      given = s.at;
      most = s.most;
      calls = s.plan;
    } };

    ghost invariant = { λ s. (s.at ≤ vec_len s.bytes) × (0 < s.most) };
}

impl MemSource {
    /// A source of these bytes. `fails`: the numbers of the reads that fail, from 0.
    pub fn new(bytes: Vec<u8>, fails: Vec<u64>) -> Self
        ensures { result ≡ record {
          left = bytes.items;
          given = 0;
          most = usize.MAX;
          calls = first_call fails.items;
        } }
    {
        MemSource {
            bytes,
            at: 0,
            most: usize::MAX,
            plan: Plan::new(fails),
        }
    }

    /// The same source, which gives at most `most` bytes in one read.
    pub fn at_most(self, most: usize) -> Self
        requires { 0 < most }
        ensures { result ≡ record self { most = most } }
    {
        MemSource {
            bytes: self.bytes,
            at: self.at,
            most,
            plan: self.plan,
        }
    }

    /// The bytes that are left.
    pub fn left(&self) -> &[u8]
        ensures { result.now ≡ self.now.left }
    {
        &self.bytes[self.at..]
    }

    /// How many bytes were given.
    pub fn given(&self) -> usize
        ensures { result ≡ self.now.given }
    {
        self.at
    }

    /// How many reads have failed.
    pub fn faults(&self) -> u64
        ensures { result ≡ self.now.calls.faults }
    {
        self.plan.faults()
    }
}

impl Source for MemSource {
    ghost left = { λ s. Some s.left };

    ghost given = { λ s. s.given };

    ghost faults = { λ s. s.calls.faults };

    fn read(&mut self, buf: &mut [u8]) -> Result<usize, Failed>
        requires { 0 < length buf.old }
        ensures fails { is_err result ≡ is_failing self.old.calls }
        ensures size { IfOk result (λ n. n ≡ read_size (length buf.old) self.old) }
        ensures bytes { IfOk result (λ n. take n buf.new ≡ take n self.old.left) }
        ensures rest { IfOk result (λ n. drop n buf.new ≡ drop n buf.old) }
        ensures err { OnErr result (buf.new ≡ buf.old) }
        ensures after { self.new ≡ after_read (length buf.old) self.old }
        ensures ends { result ≡ Ok 0 → self.new.left ≡ [] }
    {
        if self.plan.fails() {
            self.plan.fail();
            return Err(Failed);
        }
        self.plan.pass();
        let left = &self.bytes[self.at..];
        let taken = buf.len().min(self.most).min(left.len());
        buf[..taken].copy_from_slice(&left[..taken]);
        self.at += taken;
        Ok(taken)
    }
}

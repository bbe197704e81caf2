ghost use Rattle.std.specs.Prelude.{◌≡◌, ℕ, List, refl, ◌+◌, ◌-◌, ◌<◌, ◌≤◌, ◌⊎◌, ◌++◌, [], Some, true, false, length, take, drop, min, vec_len, IfSome, OnOk, OnErr, IsTrue, is_some};
ghost use Rattle.std.specs.List.{concat};
ghost use Rattle.futures.specs.Poll.{OnPending};
ghost use Rattle.futures.specs.Task.{Keeps as KeepsTask};
ghost use Rattle.gw_link.specs.Faults.{last_count};
ghost use Rattle.gw_link.specs.Memory.{first_call, is_failing, write_size};
ghost use Rattle.gw_polling.specs.Polls.{IfDone, OnFailed, is_done, is_failed, is_pending, IsRegistered, HasNoMark, NoneCame};
ghost use Rattle.gw_polling.specs.PollMemory.{PollLinkState, first_poll, has_marks, is_marked, read_piece, left_behind, waits_to_read, fails_to_read, after_poll_read, after_poll_write, after_push};

use crate::poll_link::PollLink;
use crate::readiness::Readiness;
use futures::task::{Context, Poll, Source, Waker};
use gw_link::{Failed, MemSink, Plan, Sink};
use gw_text::NoMemory;
use std::alloc::Global;
use std::marker::Model;

/// A piece of which some bytes are left.
#[derive(Drop)]
pub struct Piece {
    bytes: Vec<u8>,
    at: usize,
}

impl Model for Piece {
    ghost Value = { List ℕ };

    ghost view = { λ p. drop p.at p.bytes.items };

    ghost invariant = { λ p. p.at < vec_len p.bytes };
}

impl Piece {
    /// The bytes that are left of it.
    pub fn left(&self) -> &[u8]
        ensures { result.now ≡ self.now }
    {
        &self.bytes[self.at..]
    }

    // Passes over so many bytes, after which some are left.
    fn pass(&mut self, size: usize)
        requires { size < length self.old }
        ensures { self.new ≡ drop size self.old }
    {
        self.at += size;
    }
}

/// A link in memory that is polled. It is told what comes piece by piece, while it is polled too, and no read gives bytes of two
/// pieces. While nothing is left and the end doesn't stand behind that, it isn't ready for a read, and the next piece wakes the
/// task. What is written to it goes to a sink. Its reads that fail are its own, its writes that fail the sink's.
#[derive(Drop)]
pub struct MemPollLink {
    alloc: Global,
    pieces: Vec<Piece>,
    has_end: bool,
    reads: Plan,
    read_marks: Readiness,
    sink: MemSink,
    write_marks: Readiness,
    source: Source,
    waker: Option<Waker>,
}

impl Model for MemPollLink {
    ghost Value = { PollLinkState };

    ghost view = { λ l. record {
      pieces = l.pieces.items;
      has_end = l.has_end;
      reads = l.reads;
      read_marks = l.read_marks;
      sink = l.sink;
      write_marks = l.write_marks;
      source = l.source.id;
      is_awaited = is_some l.waker;
    } };
}

impl MemPollLink {
    /// A link to which nothing came. `fails`: the numbers of the reads that fail, from 0.
    pub fn new(alloc: Global, fails: Vec<u64>, sink: MemSink) -> Self
        ensures { result ≡ record {
          pieces = [];
          has_end = false;
          reads = first_call fails.items;
          read_marks = first_poll [];
          sink = sink;
          write_marks = first_poll [];
          source = result.source;
          is_awaited = false;
        } }
    {
        MemPollLink {
            alloc,
            pieces: Vec::new(alloc),
            has_end: false,
            reads: Plan::new(fails),
            read_marks: Readiness::new(Vec::new(alloc)),
            sink,
            write_marks: Readiness::new(Vec::new(alloc)),
            source: Source::new(),
            waker: None,
        }
    }

    /// The same link, which isn't ready once before each of these reads and writes, by their numbers from 0. A poll that isn't ready
    /// makes no read or write, so the next poll is of the same number.
    pub fn with_marks(self, reads: Vec<u64>, writes: Vec<u64>) -> Self
        ensures { result ≡ record self { read_marks = first_poll reads.items; write_marks = first_poll writes.items } }
    {
        let mut link = self;
        link.read_marks = Readiness::new(reads);
        link.write_marks = Readiness::new(writes);
        link
    }

    /// One more piece comes; the empty one is the end. A task that found nothing to be read is woken. Nothing comes behind the end.
    pub fn push(&mut self, piece: &[u8]) -> Result<(), NoMemory>
        ensures ok { OnOk result (self.new ≡ after_push piece.now self.old) }
        ensures err { OnErr result (self.new ≡ self.old) }
    {
        if self.has_end {
            return Ok(());
        }
        if piece.is_empty() {
            self.has_end = true;
        } else {
            let bytes = piece.to_vec(self.alloc)?;
            self.pieces.push(Piece { bytes, at: 0 })?;
        }
        // A waker wakes its task when it is dropped.
        self.waker = None;
        Ok(())
    }

    /// The pieces to come; of the first one the bytes that are left.
    pub fn pieces(&self) -> &[Piece]
        ensures { result.now ≡ self.now.pieces }
    {
        self.pieces.as_slice()
    }

    /// Whether the end stands behind the pieces.
    pub fn has_end(&self) -> bool
        ensures { result ≡ self.now.has_end }
    {
        self.has_end
    }

    /// The bytes that were written.
    pub fn written(&self) -> &[u8]
        ensures { result.now ≡ self.now.sink.written }
    {
        self.sink.written()
    }

    /// The reads to come before which it isn't ready.
    pub fn read_marks(&self) -> &[u64]
        ensures { result.now ≡ self.now.read_marks.marks }
    {
        self.read_marks.marks()
    }

    /// The writes to come before which it isn't ready.
    pub fn write_marks(&self) -> &[u64]
        ensures { result.now ≡ self.now.write_marks.marks }
    {
        self.write_marks.marks()
    }

    /// How many polls of a read weren't ready.
    pub fn read_waits(&self) -> u64
        ensures { result ≡ self.now.read_marks.waits }
    {
        self.read_marks.waits()
    }

    /// How many polls of a write weren't ready.
    pub fn write_waits(&self) -> u64
        ensures { result ≡ self.now.write_marks.waits }
    {
        self.write_marks.waits()
    }

    /// How many reads and writes have failed.
    pub fn faults(&self) -> u64
        ensures { result ≡ min (self.now.reads.faults + self.now.sink.calls.faults) last_count }
    {
        self.reads.faults().saturating_add(self.sink.faults())
    }

    /// How many writes have failed for want of memory.
    pub fn starved(&self) -> u64
        ensures { result ≡ self.now.sink.starved }
    {
        self.sink.starved()
    }
}

// Gives of the first piece as much as there is room for.
fn give_front(pieces: &mut Vec<Piece>, buf: &mut [u8]) -> usize
    requires { 0 < length buf.old }
    ensures size { result ≡ length (read_piece (length buf.old) pieces.old.items) }
    ensures bytes { take result buf.new ≡ read_piece (length buf.old) pieces.old.items }
    ensures rest { drop result buf.new ≡ drop result buf.old }
    ensures within { result ≤ length buf.new }
    ensures left { pieces.new.items ≡ left_behind (length buf.old) pieces.old.items }
    ensures none { result ≡ 0 → pieces.old.items ≡ [] }
{
    if pieces.is_empty() {
        return 0;
    }
    let left = pieces[0].left();
    let (size, room) = (left.len(), buf.len());
    if room < size {
        buf.copy_from_slice(&left[..room]);
        pieces[0].pass(room);
        return room;
    }
    buf[..size].copy_from_slice(left);
    pieces.remove(0);
    size
}

impl PollLink for MemPollLink {
    ghost left = { λ l. Some (concat l.pieces) };

    ghost end = { λ l. Some l.has_end };

    ghost written = { λ l. Some l.sink.written };

    ghost marks = { λ l. Some (has_marks l) };

    ghost faults = { λ l. l.reads.faults + l.sink.calls.faults };

    ghost read_waits = { λ l. l.read_marks.waits };

    ghost write_waits = { λ l. l.write_marks.waits };

    ghost source = { λ l. l.source };

    fn poll_read(&mut self, cx: &mut Context<'_>, buf: &mut [u8]) -> Poll<Result<usize, Failed>>
        requires { 0 < length buf.old }
        ensures pending { is_pending result ≡ waits_to_read self.old }
        ensures fails { is_failed result ≡ fails_to_read self.old }
        ensures size { IfDone result (λ n. n ≡ length (read_piece (length buf.old) self.old.pieces)) }
        ensures bytes { IfDone result (λ n. take n buf.new ≡ read_piece (length buf.old) self.old.pieces) }
        ensures rest { IfDone result (λ n. drop n buf.new ≡ drop n buf.old) }
        ensures within { IfDone result (λ n. n ≤ length buf.new) }
        ensures gives { IfDone result (λ n. concat self.old.pieces ≡ take n buf.new ++ concat self.new.pieces) }
        ensures ends { result ≡ Poll.Ready (Ok 0) → (self.new.pieces ≡ []) × (self.new.has_end ≡ true) }
        ensures after { self.new ≡ record (after_poll_read (length buf.old) self.old) { is_awaited = self.new.is_awaited } }
        ensures unmarked { NoneCame (Some (has_marks self.old)) (Some (has_marks self.new)) }
        ensures ready { OnPending result (HasNoMark (Some (has_marks self.old)) → (self.new.pieces ≡ []) × (self.new.has_end ≡ false)) }
        ensures registered { OnPending result (IsRegistered cx.new self.new.source) }
        ensures task { KeepsTask cx.old cx.new }

        // At a mark the task is woken at once.
        ensures woken { IsTrue (is_marked self.old.read_marks) → (cx.new.is_woken ≡ true) × (self.new.is_awaited ≡ self.old.is_awaited) }

        // Where there is nothing to be read, the next piece wakes it; where no waker can be made it is woken at once.
        ensures awaited { OnPending result (IsTrue (is_marked self.old.read_marks) ⊎ ((cx.new.lacks_waker ≡ true) ⊎ (self.new.is_awaited ≡ true))) }
    {
        if self.read_marks.meets_mark() {
            return cx.yield_now();
        }
        if self.reads.fails() {
            self.reads.fail();
            self.read_marks.pass();
            return Poll::Ready(Err(Failed));
        }
        if self.pieces.is_empty() && !self.has_end {
            self.read_marks.wait();
            return cx.register(&self.source, &mut self.waker);
        }
        self.reads.pass();
        self.read_marks.pass();
        Poll::Ready(Ok(give_front(&mut self.pieces, buf)))
    }

    fn poll_write(&mut self, cx: &mut Context<'_>, piece: &[u8]) -> Poll<Result<usize, Failed>>
        requires { 0 < length piece.now }
        ensures pending { is_pending result ≡ is_marked self.old.write_marks }
        // It fails where it is listed, and else only where memory was wanted and refused.
        ensures listed { IsTrue (is_failing self.old.sink.calls) → is_done result ≡ false }
        ensures wanted { OnFailed result (IsTrue (is_failing self.old.sink.calls) ⊎ (self.old.sink.room < write_size piece.now self.old.sink)) }

        ensures size { IfDone result (λ n. n ≡ write_size piece.now self.old.sink) }
        ensures some { IfDone result (λ n. 0 < n) }
        ensures after { self.new ≡ after_poll_write piece.now (is_done result) self.new.sink.room self.old }
        ensures unmarked { NoneCame (Some (has_marks self.old)) (Some (has_marks self.new)) }
        ensures ready { OnPending result (¬ HasNoMark (Some (has_marks self.old))) }
        ensures registered { OnPending result (IsRegistered cx.new self.new.source) }
        ensures task { KeepsTask cx.old cx.new }
        ensures woken { OnPending result (cx.new.is_woken ≡ true) }
    {
        if self.write_marks.meets_mark() {
            return cx.yield_now();
        }
        self.write_marks.pass();
        Poll::Ready(self.sink.write(piece))
    }

    ghost tells_marks = { λ _. refl };

    ghost tells_end = { λ _. refl };
}

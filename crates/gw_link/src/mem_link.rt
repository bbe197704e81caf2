ghost use Rattle.std.specs.Prelude.{◌≡◌, ℕ, ◌+◌, ◌<◌, ◌≤◌, ◌⊎◌, [], Some, length, take, drop, min, IfOk, OnErr, IsErr, IsTrue, is_err, is_ok};
ghost use Rattle.gw_link.specs.Faults.{last_count};
ghost use Rattle.gw_link.specs.Memory.{LinkState, up_to_cut, in_one_piece, is_failing, read_size, after_read, write_size, after_write};

use crate::failed::Failed;
use crate::link::Link;
use crate::mem_sink::MemSink;
use crate::mem_source::MemSource;
use crate::sink::Sink;
use crate::source::Source;
use std::marker::Model;

/// A connection in memory: what is read from it is a source, what is written to it goes to a sink. Its reads that fail are the
/// source's, its writes that fail the sink's.
#[derive(Drop)]
pub struct MemLink {
    source: MemSource,
    sink: MemSink,
    cuts: Vec<usize>,
}

impl Model for MemLink {
    ghost Value = { LinkState };

    ghost view = { λ l. record { source = l.source; sink = l.sink; cuts = l.cuts.items } };
}

impl MemLink {
    /// A link whose bytes come in pieces: no read gives bytes from before and from behind one of the places `cuts`.
    pub fn new(source: MemSource, sink: MemSink, cuts: Vec<usize>) -> Self
        ensures { result ≡ record { source = source; sink = sink; cuts = cuts.items } }
    {
        MemLink { source, sink, cuts }
    }

    /// The bytes that are left to be read.
    pub fn left(&self) -> &[u8]
        ensures { result.now ≡ self.now.source.left }
    {
        self.source.left()
    }

    /// The bytes that were written.
    pub fn written(&self) -> &[u8]
        ensures { result.now ≡ self.now.sink.written }
    {
        self.sink.written()
    }

    /// How many reads and writes have failed.
    pub fn faults(&self) -> u64
        ensures { result ≡ min (self.now.source.calls.faults + self.now.sink.calls.faults) last_count }
    {
        self.source.faults().saturating_add(self.sink.faults())
    }

    /// How many writes have failed for want of memory.
    pub fn starved(&self) -> u64
        ensures { result ≡ self.now.sink.starved }
    {
        self.sink.starved()
    }

    // Of so many bytes those of one piece.
    fn in_one_piece(&self, size: usize) -> usize
        ensures { result ≡ in_one_piece self.now size }
    {
        let given = self.source.given();
        self.cuts
            .iter()
            .fold(size, |size, cut| up_to_cut(given, size, *cut))
    }
}

// Of so many bytes behind so many others those before the place, where it is ahead.
fn up_to_cut(given: usize, size: usize, cut: usize) -> usize
    ensures { result ≡ up_to_cut given size cut }
{
    if given < cut {
        return size.min(cut - given);
    }
    size
}

impl Link for MemLink {
    ghost left = { λ l. Some l.source.left };

    ghost written = { λ l. Some l.sink.written };

    ghost faults = { λ l. l.source.calls.faults + l.sink.calls.faults };

    fn read(&mut self, buf: &mut [u8]) -> Result<usize, Failed>
        requires { 0 < length buf.old }
        ensures fails { is_err result ≡ is_failing self.old.source.calls }
        ensures size { IfOk result (λ n. n ≡ read_size (in_one_piece self.old (length buf.old)) self.old.source) }
        ensures bytes { IfOk result (λ n. take n buf.new ≡ take n self.old.source.left) }
        ensures within { IfOk result (λ n. n ≤ length buf.new) }
        ensures ends { result ≡ Ok 0 → self.new.source.left ≡ [] }
        ensures after { self.new ≡ record self.old { source = after_read (in_one_piece self.old (length buf.old)) self.old.source } }
    {
        let size = self.in_one_piece(buf.len());
        self.source.read(&mut buf[..size])
    }

    fn write(&mut self, piece: &[u8]) -> Result<usize, Failed>
        requires { 0 < length piece.now }
        // It fails where it is listed, and else only where memory was wanted and refused.
        ensures listed { IsTrue (is_failing self.old.sink.calls) → IsErr result }
        ensures wanted { OnErr result (IsTrue (is_failing self.old.sink.calls) ⊎ (self.old.sink.room < write_size piece.now self.old.sink)) }

        ensures size { IfOk result (λ n. n ≡ write_size piece.now self.old.sink) }
        ensures some { IfOk result (λ n. 0 < n) }
        ensures after { self.new ≡ record self.old { sink = record (after_write piece.now (is_ok result) self.old.sink) { room = self.new.sink.room } } }
    {
        self.sink.write(piece)
    }
}

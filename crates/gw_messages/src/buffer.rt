ghost use Rattle.std.specs.Prelude.{◌≡◌, ℕ, [], ◌++◌, ◌≤◌, length, drop, take, IfOk, OnOk, OnErr};
ghost use Rattle.gw_messages.specs.model.Sections.{ends_head, ends_trailers};
ghost use Rattle.gw_messages.specs.model.Bodies.{IsLine};
ghost use Rattle.gw_messages.specs.Chunks.{IsLineWithin, seen_line};
ghost use Rattle.gw_messages.specs.Searches.{IsFound};

use crate::bytes::first;
use crate::chunk::Line;
use crate::line::LineSearch;
use crate::section::{Found, Search};
use std::alloc::{AllocError, Global};
use std::marker::Model;
use std::mem;

/// A buffer that was emptied keeps no more memory than this, which is that of one head.
const MOST_KEPT: usize = 16384;

/// The most memory that is taken at once for bytes that were announced and haven't come.
const MOST_ROOM: usize = 1_048_576;

/// Bytes that came and weren't taken yet. It knows how far the ends of sections and of a chunk's line were looked for.
#[derive(Drop)]
pub struct Buffer {
    alloc: Global,
    bytes: Vec<u8>,
    start: usize,
    heads: Search,
    trailers: Search,
    lines: LineSearch,
}

impl Model for Buffer {
    ghost use Rattle.std.specs.Prelude.{List, ℕ, drop};
    ghost use Rattle.gw_messages.specs.Searches.{IsBuffer};

    ghost Value = { List ℕ };

    ghost view = { λ b. drop b.start b.bytes.items };

    ghost invariant = { λ b. IsBuffer b.start b.bytes.items b.heads b.trailers b.lines };
}

impl Buffer {
    /// No bytes.
    pub fn new(alloc: Global) -> Self
        ensures { result ≡ [] }
    {
        Buffer {
            alloc,
            bytes: Vec::new(alloc),
            start: 0,
            heads: Search::new(),
            trailers: Search::new(),
            lines: LineSearch::new(),
        }
    }

    /// The bytes, without a copy.
    pub fn bytes(&self) -> &[u8]
        ensures { result.now ≡ self.now }
    {
        self.bytes.as_slice().split_at(self.start).1
    }

    /// At most so many bytes from the front.
    pub fn front(&self, count: usize) -> &[u8]
        ensures { result.now ≡ take count self.now }
    {
        first(self.bytes(), count)
    }

    /// Puts a piece at the end, or leaves all as it was.
    pub fn feed(&mut self, piece: &[u8]) -> Result<(), AllocError>
        ensures ok { OnOk result (self.new ≡ self.old ++ piece.now) }
        ensures err { OnErr result (self.new ≡ self.old) }
    {
        self.compact()?;
        self.bytes.extend_from_slice(piece)
    }

    // Frees what was taken, where that is more than is left.
    fn compact(&mut self) -> Result<(), AllocError>
        ensures { self.new ≡ self.old }
    {
        if self.start > self.bytes.len() / 2 {
            let rest = Vec::from_slice(self.alloc, self.bytes.as_slice().split_at(self.start).1)?;
            self.bytes = rest;
            self.start = 0;
        }
        Ok(())
    }

    /// Takes so many bytes from the front.
    pub fn advance(&mut self, count: usize)
        requires { count ≤ length self.old }
        ensures { self.new ≡ drop count self.old }
    {
        self.skip(count);
        self.shrink();
    }

    /// The same where more is taken soon: their memory is freed only where nothing is left.
    pub fn skip(&mut self, count: usize)
        requires { count ≤ length self.old }
        ensures { self.new ≡ drop count self.old }
    {
        self.heads = Search::new();
        self.trailers = Search::new();
        self.lines = LineSearch::new();
        self.start += count;
        if self.start == self.bytes.len() {
            self.clear();
        }
    }

    /// Takes so many bytes from the front. Where that is much and all that there is, it is handed on without a copy.
    pub fn take(&mut self, alloc: Global, count: usize) -> Result<Vec<u8>, AllocError>
        requires { count ≤ length self.old }
        ensures front { IfOk result (λ front. front.items ≡ take count self.old) }
        ensures rest { OnOk result (self.new ≡ drop count self.old) }
        ensures err { OnErr result (self.new ≡ self.old) }
    {
        if count > MOST_KEPT && self.start == 0 && count == self.bytes.len() {
            self.heads = Search::new();
            self.trailers = Search::new();
            self.lines = LineSearch::new();
            return Ok(mem::replace(&mut self.bytes, Vec::new(self.alloc)));
        }
        let front = Vec::from_slice(alloc, self.front(count))?;
        self.advance(count);
        Ok(front)
    }

    /// Makes room for so many bytes, not all of which have come, so that they needn't be moved while they come. Where there is no memory
    /// for it, all stays.
    pub fn make_room(&mut self, count: usize)
        ensures { self.new ≡ self.old }
    {
        let room = count.min(MOST_ROOM);
        if room > MOST_KEPT && (self.start > 0 || self.bytes.capacity() < room) {
            let _ = self.move_to(room);
        }
    }

    // Moves the bytes to the front of memory for so many.
    fn move_to(&mut self, room: usize) -> Result<(), AllocError>
        ensures { self.new ≡ self.old }
    {
        let mut moved = Vec::with_capacity(self.alloc, room)?;
        moved.extend_from_slice(self.bytes())?;
        self.bytes = moved;
        self.start = 0;
        Ok(())
    }

    /// Frees what was taken, where that is much. Where there is no memory for the rest, all stays.
    pub fn shrink(&mut self)
        ensures { self.new ≡ self.old }
    {
        if self.bytes.capacity() > MOST_KEPT {
            let _ = self.compact();
        }
    }

    // Without bytes, and without much memory.
    fn clear(&mut self)
        ensures { self.new ≡ [] }
    {
        if self.bytes.capacity() > MOST_KEPT {
            self.bytes = Vec::new(self.alloc);
        } else {
            self.bytes.clear();
        }
        self.start = 0;
        self.heads = Search::new();
        self.trailers = Search::new();
        self.lines = LineSearch::new();
    }

    /// Where the head ends at whose beginning the bytes begin.
    pub fn find_head(&mut self) -> Found
        ensures found { IsFound ends_head self.old result }
        ensures same { self.new ≡ self.old }
    {
        let bytes = self.bytes.as_slice().split_at(self.start).1;
        self.heads.find_head(bytes)
    }

    /// Where the trailer section ends at whose beginning the bytes begin.
    pub fn find_trailers(&mut self) -> Found
        ensures found { IsFound ends_trailers self.old result }
        ensures same { self.new ≡ self.old }
    {
        let bytes = self.bytes.as_slice().split_at(self.start).1;
        self.trailers.find_trailers(bytes)
    }

    /// The line of a chunk at the front, of which at most so many bytes are looked at.
    pub fn read_line(&mut self, most: usize) -> Line
        ensures line { IsLine (take most self.old) (seen_line (take most self.old) result) }
        ensures within { IsLineWithin (take most self.old) result }
        ensures same { self.new ≡ self.old }
    {
        let bytes = self.bytes.as_slice().split_at(self.start).1;
        self.lines.read_line(bytes, most)
    }
}

ghost use Rattle.std.specs.Prelude.{◌≡◌, ◌==◌, true, length, take};
ghost use Rattle.std.specs.List.{list_all, list_any};
ghost use Rattle.httparse.specs.Grammar.{is_ows};
ghost use Rattle.gw_messages.specs.model.Bodies.{IsLine, part_line};
ghost use Rattle.gw_messages.specs.Chunks.{IsLineWithin, seen_line};
ghost use Rattle.gw_messages.specs.Lines.{continues, Continues, IsLineSearch, IsResumable};

use crate::bytes::first;
use crate::chunk::{Line, MOST_LINE, read_line};
use crate::element::is_blank;

/// How far a chunk's line was read that isn't whole. Nothing before is looked at again until what follows may end it.
#[derive(Drop)]
pub struct LineSearch {
    // How many bytes of it have come, or 0 where that isn't known.
    pub seen: usize,
    // Whether they reach into its extension. Else they reach into the spaces and tabs behind its size.
    pub extended: bool,
}

impl LineSearch {
    /// Nothing was read.
    pub fn new() -> Self
        ensures { result.seen ≡ 0 }
    {
        LineSearch {
            seen: 0,
            extended: false,
        }
    }

    /// Goes on to read the line of a chunk, of which so many bytes are looked at.
    pub fn read_line(&mut self, bytes: &[u8], most: usize) -> Line
        requires { IsLineSearch self.old bytes.now }
        ensures line { IsLine (take most bytes.now) (seen_line (take most bytes.now) result) }
        ensures within { IsLineWithin (take most bytes.now) result }
        ensures kept { IsLineSearch self.new bytes.now }
        ensures further { result ≡ Line.Part → IsResumable (take most bytes.now) → self.new.seen ≡ length (take most bytes.now) }
    {
        let front = first(bytes, most);
        if self.goes_on(front) {
            self.seen = front.len();
            return Line::Part;
        }
        let line = read_line(front);
        if let Line::Part = &line {
            self.note(front);
        }
        line
    }

    // Whether the bytes behind those that were read only go on with the line.
    fn goes_on(&self, front: &[u8]) -> bool
        ensures { result ≡ true → Continues self.now front.now }
    {
        if self.seen == 0 || front.len() < self.seen || front.len() > MOST_LINE {
            return false;
        }
        continue_line(self.extended, &front[self.seen..])
    }

    // Notes how far a line came that isn't whole.
    fn note(&mut self, front: &[u8])
        requires { IsLine front.now part_line }
        ensures kept { IsLineSearch self.new front.now }
        ensures further { IsResumable front.now → self.new.seen ≡ length front.now }
    {
        self.seen = 0;
        self.extended = has_byte(front, b';');
        if !has_byte(front, b'\r') && (self.extended || has_blank(front)) {
            self.seen = front.len();
        }
    }
}

fn continue_line(extended: bool, bytes: &[u8]) -> bool
    ensures { result ≡ list_all (continues extended) bytes.now }
{
    if extended {
        bytes.iter().all(|byte| !(*byte == b'\r' || *byte == b'\n'))
    } else {
        bytes.iter().all(|byte| is_blank(*byte))
    }
}

fn has_byte(bytes: &[u8], byte: u8) -> bool
    ensures { result ≡ list_any (λ b. b == byte) bytes.now }
{
    bytes.iter().any(|other| *other == byte)
}

fn has_blank(bytes: &[u8]) -> bool
    ensures { result ≡ list_any is_ows bytes.now }
{
    bytes.iter().any(|byte| is_blank(*byte))
}

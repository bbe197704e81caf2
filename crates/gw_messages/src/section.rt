ghost use Rattle.std.specs.Prelude.{◌≡◌, ℕ, ◌+◌, ◌<◌, ◌≤◌, List, Bool, true, min, length};
ghost use Rattle.gw_messages.specs.model.Sections.{are_empty_lines, ends_head, ends_trailers, ends_with_empty_line, NoneBelow};
ghost use Rattle.gw_messages.specs.Searches.{IsBlank, IsFound, IsHeadSearch, IsNextEnd, IsTrailersSearch};

use crate::bytes::index_of;

/// How far the end of a section was looked for. Nothing before is looked at again.
#[derive(Drop)]
pub struct Search {
    pub seen: usize,
    // How many bytes at the front are whole empty lines.
    pub blank: usize,
}

/// Where a section ends.
#[derive(Clone, Copy)]
pub enum Found {
    /// Behind so many bytes.
    Whole(usize),
    /// Behind more bytes than it may have.
    Long,
    /// Behind bytes that haven't come.
    Part,
}

/// The most bytes of a head, and of a trailer section.
pub const MOST_SECTION: usize = 16384;

impl Search {
    /// Nothing was looked at.
    pub fn new() -> Self
        ensures seen { result.seen ≡ 0 }
        ensures blank { result.blank ≡ 0 }
    {
        Search { seen: 0, blank: 0 }
    }

    /// Goes on to look for the end of a head.
    pub fn find_head(&mut self, bytes: &[u8]) -> Found
        requires { IsHeadSearch self.old bytes.now }
        ensures found { IsFound ends_head bytes.now result }
        ensures kept { IsHeadSearch self.new bytes.now }
        ensures further { self.old.seen ≤ self.new.seen }
        ensures blank { self.old.blank ≤ self.new.blank }
        ensures all { result ≡ Found.Part → self.new.seen ≡ length bytes.now }
    {
        let stop = bytes.len().min(MOST_SECTION);
        'lines: while self.seen < stop {
            let end = line_end(bytes, self.seen);
            if self.ends_head(&bytes[..end]) {
                return Found::Whole(end);
            }
            self.seen = end;
        }
        no_end(bytes)
    }

    // Whether the bytes end a head. What they have of empty lines at the front isn't looked at again.
    fn ends_head(&mut self, front: &[u8]) -> bool
        requires { IsBlank self.old front.now }
        ensures value { result ≡ ends_head front.now }
        ensures kept { IsBlank self.new front.now }
        ensures seen { self.new.seen ≡ self.old.seen }
        ensures same { result ≡ true → self.new.blank ≡ self.old.blank }
        ensures further { self.old.blank ≤ self.new.blank }
    {
        if !ends_with_empty_line(front) {
            return false;
        }
        if !are_empty_lines(&front[self.blank..]) {
            return true;
        }
        self.blank = front.len();
        false
    }

    /// Goes on to look for the end of a trailer section.
    pub fn find_trailers(&mut self, bytes: &[u8]) -> Found
        requires { IsTrailersSearch self.old bytes.now }
        ensures found { IsFound ends_trailers bytes.now result }
        ensures kept { IsTrailersSearch self.new bytes.now }
        ensures further { self.old.seen ≤ self.new.seen }
        ensures blank { self.new.blank ≡ self.old.blank }
        ensures all { result ≡ Found.Part → self.new.seen ≡ length bytes.now }
    {
        let stop = bytes.len().min(MOST_SECTION);
        'lines: while self.seen < stop {
            let end = line_end(bytes, self.seen);
            if ends_trailers(&bytes[..end]) {
                return Found::Whole(end);
            }
            self.seen = end;
        }
        no_end(bytes)
    }
}

// How many bytes there are up to the next line feed, or all that a section may have: no section ends between.
fn line_end(bytes: &[u8], seen: usize) -> usize
    requires within { seen < length bytes.now }
    requires few { seen < 16384 }
    ensures { IsNextEnd seen result bytes.now }
{
    let stop = bytes.len().min(MOST_SECTION);
    let at = index_of(&bytes[seen..stop], b'\n');
    (seen + at + 1).min(stop)
}

// Where no end is among the first bytes.
fn no_end(bytes: &[u8]) -> Found
    ensures { (ends : List ℕ → Bool) → NoneBelow ends (min (length bytes.now) 16384 + 1) bytes.now → IsFound ends bytes.now result }
{
    if bytes.len() > MOST_SECTION {
        Found::Long
    } else {
        Found::Part
    }
}

fn ends_with_empty_line(bytes: &[u8]) -> bool
    ensures { result ≡ ends_with_empty_line bytes.now }
{
    bytes.ends_with(b"\n\n") || bytes.ends_with(b"\n\r\n")
}

fn ends_trailers(bytes: &[u8]) -> bool
    ensures { result ≡ ends_trailers bytes.now }
{
    bytes == b"\r\n".as_slice() || bytes.ends_with(b"\r\n\r\n")
}

/// Whether the bytes are whole empty lines and nothing else.
pub fn are_empty_lines(bytes: &[u8]) -> bool
    ensures { result ≡ are_empty_lines bytes.now }
{
    let mut left = bytes;
    'bytes: while let Some((byte, rest)) = left.split_first() {
        if *byte != b'\n' && !(*byte == b'\r' && rest.starts_with(b"\n")) {
            return false;
        }
        left = rest;
    }
    true
}

ghost use Rattle.std.specs.Prelude.{◌≡◌, drop};
ghost use Rattle.gw_messages.specs.model.Bodies.{begins_as_line_end, is_long_line, IsLine};
ghost use Rattle.gw_messages.specs.Chunks.{IsData, IsLineWithin, seen_line};

use crate::bytes::{first, index_of};
use httparse::{Status, parse_chunk_size};

/// The most bytes of a chunk's line, without its end.
pub const MOST_LINE: usize = 1024;

/// What stands where a chunk begins.
pub enum Line {
    /// Its line, which announces so many bytes, and how many bytes it has with its end.
    Whole(u64, usize),
    Bad,
    Part,
}

/// Reads the line of a chunk.
pub fn read_line(bytes: &[u8]) -> Line
    ensures line { IsLine bytes.now (seen_line bytes.now result) }
    ensures within { IsLineWithin bytes.now result }
{
    if is_long_line(bytes) {
        return Line::Bad;
    }
    match parse_chunk_size(bytes) {
        Ok(Status::Complete((length, size))) => Line::Whole(size, length),
        Ok(Status::Partial) => Line::Part,
        Err(_) => Line::Bad,
    }
}

fn is_long_line(bytes: &[u8]) -> bool
    ensures { result ≡ is_long_line bytes.now }
{
    index_of(bytes, b'\r') > MOST_LINE
}

/// What stands behind the line of a chunk.
pub enum Data {
    /// As many bytes as the line announces, and a line end.
    Whole,
    TooBig,
    Malformed,
    Part,
}

/// Reads the data of a chunk of this size, where so much room is left in the body.
pub fn read_data(room: usize, size: u64, bytes: &[u8]) -> Data
    ensures { IsData room size bytes.now result }
{
    if size.min(bytes.len() as u64) > room as u64 {
        return Data::TooBig;
    }
    let rest = behind(bytes, size);
    if !begins_as_line_end(rest) {
        return Data::Malformed;
    }
    if rest.len() < 2 {
        return Data::Part;
    }
    Data::Whole
}

fn behind(bytes: &[u8], count: u64) -> &[u8]
    ensures { result.now ≡ drop count bytes.now }
{
    if count < bytes.len() as u64 {
        &bytes[count as usize..]
    } else {
        &bytes[bytes.len()..]
    }
}

fn begins_as_line_end(bytes: &[u8]) -> bool
    ensures { result ≡ begins_as_line_end bytes.now }
{
    b"\r\n".starts_with(first(bytes, 2))
}

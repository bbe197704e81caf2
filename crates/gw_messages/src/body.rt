ghost use Rattle.std.specs.Prelude.{◌≡◌, ◌+◌, ◌-◌, ◌^◌, ◌<◌, ◌≤◌, length, take, true, List, ℕ, IfOk, IfSome, OnErr, Ok, None};
ghost use Rattle.gw_messages.specs.model.Bodies.{Body, IsBody, part_body};

use crate::buffer::Buffer;
use crate::bytes::first;
use crate::chunk::{Data, Line, read_data};
use crate::fault::BodyFault;
use crate::section::Found;
use gw_text::NoMemory;
use std::alloc::Global;
use std::mem;

/// The most bytes of a trailer section.
const MOST_TRAILERS: usize = 16384;

/// How many bytes a body may have.
#[derive(Clone, Copy)]
pub struct Limits {
    /// When it is decoded.
    pub content: usize,
    /// As it is sent, where it is chunked.
    pub encoded: usize,
    ghost small: { (content < 2 ^ 32) × (encoded < 2 ^ 32) },
}

/// How far a body has come.
#[derive(Drop)]
pub enum Reading {
    /// One that may have so many bytes, and has so many, which stay in the buffer until it is whole.
    Sized(usize, usize),
    Chunked(Decoder),
}

/// How far a chunked body has come.
#[derive(Drop)]
pub struct Decoder {
    alloc: Global,
    limits: Limits,
    content: Vec<u8>,
    /// How many bytes were taken from the buffer.
    taken: usize,
    stage: Stage,
    ghost room: { length content.items ≤ limits.content },
    ghost few: { taken ≤ limits.encoded + 1 },
}

/// What comes next of a chunked body. A line that was taken isn't read again while its chunk's data come.
#[derive(Clone, Copy)]
enum Stage {
    /// A chunk's line.
    Line,
    /// The data of a chunk whose line announced so many bytes.
    Data(u64),
    /// The trailer section.
    Trailers,
}

/// What comes of a body.
#[derive(Drop)]
pub enum Progress {
    Whole(Vec<u8>),
    Bad(BodyFault),
    Part,
}

impl Reading {
    ghost use Rattle.gw_messages.specs.Readings.{Comes, IsProgress, Leads, missing, waits};

    /// Nothing came of a body of so many bytes, or of a chunked one.
    pub fn new(alloc: Global, limits: Limits, size: Option<usize>) -> Self
        ensures { (bytes : List ℕ) (body : Body) → Comes result bytes body → IsBody limits.content limits.encoded size bytes body }
    {
        match size {
            Some(size) => Reading::Sized(limits.content, size),
            None => Reading::Chunked(Decoder {
                alloc,
                limits,
                content: Vec::new(alloc),
                taken: 0,
                stage: Stage::Line,
            }),
        }
    }

    /// Goes on to read the body.
    pub fn read(&mut self, alloc: Global, buffer: &mut Buffer) -> Result<Progress, NoMemory>
        ensures progress { IfOk result (IsProgress self.old buffer.old self.new buffer.new) }
        ensures err { OnErr result (Leads self.old buffer.old self.new buffer.new) }
    {
        match self {
            Reading::Sized(room, size) => buffer.read_sized(alloc, *room, *size),
            Reading::Chunked(decoder) => {
                let progress = decoder.read(buffer)?;
                buffer.shrink();
                Ok(progress)
            }
        }
    }

    /// Makes room for what was announced and hasn't come, once where the body begins.
    pub fn make_room(&self, buffer: &mut Buffer)
        ensures { buffer.new ≡ buffer.old }
    {
        let Reading::Sized(_, size) = self else {
            return;
        };
        if buffer.bytes().len() < *size {
            buffer.make_room(*size);
        }
    }

    /// How many bytes are missing of a body of an announced size; 0 of a chunked one.
    pub fn missing(&self, buffer: &Buffer) -> usize
        ensures { result ≡ missing self.now buffer.now }
    {
        match self {
            Reading::Sized(_, size) => size.saturating_sub(buffer.bytes().len()),
            Reading::Chunked(_) => 0,
        }
    }

    /// Whether it shows by the count of bytes that nothing comes of the body yet. Asked first, it spares the large result of `read`.
    pub fn waits(&self, buffer: &Buffer) -> bool
        ensures value { result ≡ waits self.now buffer.now }
        ensures part { result ≡ true → Comes self.now buffer.now part_body }
    {
        let count = buffer.bytes().len();
        match self {
            Reading::Sized(room, size) => count < *size && count <= *room,
            Reading::Chunked(decoder) => decoder.waits(count),
        }
    }
}

impl Buffer {
    ghost use Rattle.gw_messages.specs.Readings.{IsProgress};
    ghost use Rattle.gw_messages.specs.declared.body.Reading.TheVariants.{Sized as IsSized};

    // Takes a body of so many bytes, where it may have so many.
    fn read_sized(&mut self, alloc: Global, room: usize, size: usize) -> Result<Progress, NoMemory>
        ensures progress { IfOk result (IsProgress (IsSized room size) self.old (IsSized room size) self.new) }
        ensures err { OnErr result (self.new ≡ self.old) }
    {
        let count = self.bytes().len();
        if size.min(count) > room {
            return Ok(Progress::Bad(BodyFault::TooBig));
        }
        if count < size {
            return Ok(Progress::Part);
        }
        let body = self.take(alloc, size)?;
        Ok(Progress::Whole(body))
    }
}

impl Stage {
    ghost use Rattle.gw_messages.specs.Readings.{behind_line};

    // What comes behind the line of a chunk of this size: the last one has none.
    fn behind_line(size: u64) -> Self
        ensures { result ≡ behind_line size }
    {
        if size == 0 {
            return Stage::Trailers;
        }
        Stage::Data(size)
    }
}

impl Decoder {
    ghost use Rattle.gw_messages.specs.Readings.{IsFinished, IsProgress, IsRest, Leads, waits_for_data};
    ghost use Rattle.gw_messages.specs.declared.body.Reading.TheVariants.{Chunked as IsChunked};
    ghost use Rattle.gw_messages.specs.declared.body.Stage.TheVariants.{Line as IsBeforeLine, Data as IsBeforeData, Trailers as IsBeforeTrailers};

    // Whether so many bytes are fewer than the data of the chunk that comes next, and not too many.
    fn waits(&self, count: usize) -> bool
        ensures { result ≡ waits_for_data self.now count }
    {
        let Stage::Data(size) = self.stage else {
            return false;
        };
        (count as u64) < size
            && count <= self.limits.content - self.content.len()
            && count < self.limits.encoded + 1 - self.taken
    }

    // Takes part after part.
    fn read(&mut self, buffer: &mut Buffer) -> Result<Progress, NoMemory>
        ensures progress { IfOk result (IsProgress (IsChunked self.old) buffer.old (IsChunked self.new) buffer.new) }
        ensures err { OnErr result (Leads (IsChunked self.old) buffer.old (IsChunked self.new) buffer.new) }
    {
        'parts: loop {
            if let Some(progress) = self.take_next(buffer)? {
                return Ok(progress);
            }
        }
    }

    // Takes the next part, or says what comes of the body.
    fn take_next(&mut self, buffer: &mut Buffer) -> Result<Option<Progress>, NoMemory>
        ensures stopped { IfOk result (λ stop. IfSome stop (IsProgress (IsChunked self.old) buffer.old (IsChunked self.new) buffer.new)) }
        ensures taken { result ≡ Ok None → Leads (IsChunked self.old) buffer.old (IsChunked self.new) buffer.new }
        ensures smaller { result ≡ Ok None → length buffer.new < length buffer.old }
        ensures err { OnErr result (Leads (IsChunked self.old) buffer.old (IsChunked self.new) buffer.new) }
    {
        match self.stage {
            Stage::Line => Ok(self.take_line(buffer)),
            Stage::Data(size) => self.take_data(buffer, size),
            Stage::Trailers => Ok(Some(self.take_trailers(buffer))),
        }
    }

    // Takes a chunk's line, or says what comes of the body.
    fn take_line(&mut self, buffer: &mut Buffer) -> Option<Progress>
        requires { self.old.stage ≡ IsBeforeLine }
        ensures stopped { IfSome result (IsProgress (IsChunked self.old) buffer.old (IsChunked self.new) buffer.new) }
        ensures taken { result ≡ None → Leads (IsChunked self.old) buffer.old (IsChunked self.new) buffer.new }
        ensures smaller { result ≡ None → length buffer.new < length buffer.old }
    {
        let (size, length) = match buffer.read_line(self.limits.encoded + 1 - self.taken) {
            Line::Bad => return Some(Progress::Bad(BodyFault::Malformed)),
            Line::Part => return Some(self.part(buffer)),
            Line::Whole(size, length) => (size, length),
        };
        self.stage = Stage::behind_line(size);
        self.taken += length;
        buffer.skip(length);
        None
    }

    // Takes the data of a chunk of this size, or says what comes of the body.
    fn take_data(&mut self, buffer: &mut Buffer, size: u64) -> Result<Option<Progress>, NoMemory>
        requires { self.old.stage ≡ IsBeforeData size }
        ensures stopped { IfOk result (λ stop. IfSome stop (IsProgress (IsChunked self.old) buffer.old (IsChunked self.new) buffer.new)) }
        ensures taken { result ≡ Ok None → Leads (IsChunked self.old) buffer.old (IsChunked self.new) buffer.new }
        ensures smaller { result ≡ Ok None → length buffer.new < length buffer.old }
        ensures err { OnErr result (Leads (IsChunked self.old) buffer.old (IsChunked self.new) buffer.new) }
    {
        let room = self.limits.content - self.content.len();
        let seen = first(buffer.bytes(), self.limits.encoded + 1 - self.taken);
        match read_data(room, size, seen) {
            Data::TooBig => return Ok(Some(Progress::Bad(BodyFault::TooBig))),
            Data::Malformed => return Ok(Some(Progress::Bad(BodyFault::Malformed))),
            Data::Part => return Ok(Some(self.part(buffer))),
            Data::Whole => {}
        }
        let end = size as usize;
        self.content.extend_from_slice(&seen[..end])?;
        self.stage = Stage::Line;
        self.taken += end + 2;
        buffer.skip(end + 2);
        Ok(None)
    }

    // Takes the trailer section, or says what comes of the body.
    fn take_trailers(&mut self, buffer: &mut Buffer) -> Progress
        requires { self.old.stage ≡ IsBeforeTrailers }
        ensures { IsProgress (IsChunked self.old) buffer.old (IsChunked self.new) buffer.new result }
    {
        let most = self.limits.encoded + 1 - self.taken;
        match buffer.find_trailers() {
            Found::Whole(length) => {
                if length > most {
                    return self.part(buffer);
                }
                self.taken += length;
                buffer.advance(length);
                self.finished()
            }
            Found::Long => {
                if most > MOST_TRAILERS {
                    return Progress::Bad(BodyFault::LongTrailers);
                }
                self.part(buffer)
            }
            Found::Part => self.part(buffer),
        }
    }

    // The whole content, unless the body has too many bytes as it was sent.
    fn finished(&mut self) -> Progress
        ensures { IsFinished self.old.limits.encoded self.old.content.items self.old.taken result }
    {
        if self.taken > self.limits.encoded {
            return Progress::Bad(BodyFault::TooBig);
        }
        Progress::Whole(mem::replace(&mut self.content, Vec::new(self.alloc)))
    }

    // Where the body isn't whole: that may be since it has too many bytes.
    fn part(&self, buffer: &Buffer) -> Progress
        requires { IsRest self.now.stage (self.now.limits.content - length self.now.content.items) (take (self.now.limits.encoded + 1 - self.now.taken) buffer.now) part_body }
        ensures { IsProgress (IsChunked self.now) buffer.now (IsChunked self.now) buffer.now result }
    {
        if self.taken + buffer.bytes().len() > self.limits.encoded {
            return Progress::Bad(BodyFault::TooBig);
        }
        Progress::Part
    }
}

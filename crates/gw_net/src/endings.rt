use crate::mio_link::MioLink;
use gw_text::NoMemory;
use mio::Interest;
use mio::net::TcpStream;
use std::alloc::Global;
use std::io::{ErrorKind, Read};
use std::net::Shutdown;
use std::rt::Clock;
use std::time::{Duration, Instant};

// How many connections end at a time.
const MOST_ENDINGS: usize = 64;

// How many pieces of how many bytes are taken of what a client still sends when its connection ends, and for how many milliseconds.
const MOST_REST: u32 = 64;

const PIECE: usize = 65_536;

const MOST_WAIT: u64 = 2000;

// A connection to which nothing more is written.
#[derive(Drop)]
struct Ending {
    number: u64,
    stream: TcpStream,
    pieces: u32,
    since: Instant,
}

impl Ending {
    // Takes what the client has sent, and says whether it may send more.
    fn drain(&mut self) -> bool {
        let mut rest = [0; PIECE];
        'pieces: while self.pieces < MOST_REST {
            self.pieces += 1;
            match self.stream.read(&mut rest) {
                Ok(size) if size > 0 => {}
                Err(error) if error.kind() == ErrorKind::WouldBlock => return true,
                _ => return false,
            }
        }
        false
    }
}

/// The connections that end in two steps (RFC 9112, section 9.6): nothing more is written to them, and what their clients still send is
/// taken and dropped for a while, since a connection that is closed over unread bytes takes back what was written last.
#[derive(Drop)]
pub(crate) struct Endings {
    all: Vec<Ending>,
}

impl Endings {
    /// None, with room for as many as may end at a time.
    pub(crate) fn new(alloc: Global) -> Result<Self, NoMemory> {
        Ok(Endings {
            all: Vec::with_capacity(alloc, MOST_ENDINGS)?,
        })
    }

    /// Whether no connection ends.
    pub(crate) fn is_empty(&self) -> bool {
        self.all.is_empty()
    }

    /// Ends a connection. The oldest one is closed where too many end.
    pub(crate) fn begin<R: Clock + Drop>(&mut self, number: u64, link: MioLink<R>, clock: &R) {
        let Some((mut stream, mut watch)) = link.into_open() else {
            return;
        };
        if stream.shutdown(Shutdown::Write).is_err()
            || watch.hear(&mut stream, Interest::READABLE).is_err()
        {
            return;
        }
        let Ok(since) = Instant::now(clock) else {
            return;
        };
        let mut ending = Ending {
            number,
            stream,
            pieces: 0,
            since,
        };
        if ending.drain() {
            self.put(ending);
        }
    }

    fn put(&mut self, ending: Ending) {
        if self.all.len() == MOST_ENDINGS {
            drop(self.all.remove(0));
        }
        // There is room for it; else it is closed at once.
        drop(self.all.push(ending));
    }

    /// Takes what the client of this number has sent, and says whether its connection ends.
    pub(crate) fn hear(&mut self, number: u64) -> bool {
        let Some(at) = self.all.iter().position(|ending| ending.number == number) else {
            return false;
        };
        if !self.all[at].drain() {
            drop(self.all.remove(at));
        }
        true
    }

    /// Closes those that have ended for too long.
    pub(crate) fn close_old(&mut self, clock: &impl Clock) {
        if self.all.is_empty() {
            return;
        }
        let Ok(now) = Instant::now(clock) else {
            self.all.clear();
            return;
        };
        let most = Duration::from_millis(MOST_WAIT);
        self.all
            .retain(|ending| now.duration_since(ending.since) < most);
    }
}

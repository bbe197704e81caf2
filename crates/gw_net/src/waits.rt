ghost use Rattle.std.specs.Io.{ReadsAtMost};

use crate::pieces::read_piece;
use std::io;
use std::io::ErrorKind;
use std::net::TcpStream;
use std::rt::Clock;
use std::time::{Duration, Instant};

// How many milliseconds a read waits for the first bytes of a request.
const MOST_IDLE: u64 = 1000;

// How many milliseconds the other reads of a request wait together, and each write by itself.
const MOST_WAIT: u64 = 2000;

// How many milliseconds are waited for what a client still sends when its connection ends.
const MOST_ENDING: u64 = 500;

/// How long the calls of a link wait whose client holds all others up.
#[derive(Drop)]
pub(crate) struct Waits<R: Clock + Drop> {
    rt: R,
    // No byte of the next request was read.
    is_idle: bool,
    left: Duration,
}

impl<R: Clock + Drop> Waits<R> {
    /// Those of a stream whose first request comes. Its pieces are sent at once.
    pub(crate) fn new(rt: R, stream: &TcpStream) -> io::Result<Self> {
        stream.set_nodelay(true)?;
        stream.set_write_timeout(Some(Duration::from_millis(MOST_WAIT)))?;
        Ok(Waits {
            rt,
            is_idle: true,
            left: Duration::from_millis(MOST_IDLE),
        })
    }

    // Counts a read that began then. Where the clock fails it counts nothing.
    fn count(&mut self, begin: io::Result<Instant>) {
        if self.is_idle {
            self.is_idle = false;
            self.left = Duration::from_millis(MOST_WAIT);
            return;
        }
        if let (Ok(begin), Ok(end)) = (begin, Instant::now(&self.rt)) {
            let waited = end.duration_since(begin);
            self.left = self
                .left
                .checked_sub(waited)
                .unwrap_or(Duration::from_secs(0));
        }
    }

    /// One read. An error where no time is left for it.
    pub(crate) fn read(&mut self, stream: &mut TcpStream, buf: &mut [u8]) -> io::Result<usize>
        ensures bound { ReadsAtMost result buf.new }
    {
        if self.left == Duration::from_secs(0) {
            return Err(io::Error::from(ErrorKind::TimedOut));
        }
        stream.set_read_timeout(Some(self.left))?;
        let begin = Instant::now(&self.rt);
        let answer = read_piece(stream, buf);
        self.count(begin);
        answer
    }

    /// A part of a reply was written, so the next read may be that of the next request.
    pub(crate) fn wrote(&mut self) {
        self.is_idle = true;
        self.left = Duration::from_millis(MOST_IDLE);
    }

    /// The connection ends.
    pub(crate) fn end(&mut self) {
        self.is_idle = false;
        self.left = Duration::from_millis(MOST_ENDING);
    }
}

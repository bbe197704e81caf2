ghost use Rattle.std.specs.Prelude.{◌≡◌, ◌<◌, ◌≤◌, None, length, IfOk};
ghost use Rattle.std.specs.Io.{ReadsAtMost};
ghost use Rattle.gw_net.specs.Real.{SocketState, after_call};

use crate::fault_count::FaultCount;
use crate::pieces::{read_piece, write_piece};
use crate::streams::prepare;
use crate::waits::Waits;
use gw_link::{Failed, Link};
use std::io;
use std::io::ErrorKind;
use std::marker::Model;
use std::net::{Shutdown, TcpStream};
use std::rt::Clock;
use std::time::Duration;

// How many pieces of how many bytes are taken of what a client still sends when its connection ends.
const MOST_REST: usize = 64;

const PIECE: usize = 65_536;

// How many milliseconds each of them is waited for.
const MOST_WAIT: u64 = 250;

/// A connection with a client over TCP. It tells no content. A client that is silent for 30 seconds, or takes nothing for as long,
/// fails the call that waits for it; a brief one is given less time. Dropping it closes the connection.
#[derive(Drop)]
pub struct TcpLink<R: Clock + Drop> {
    stream: TcpStream,
    // Those of a brief one.
    waits: Option<Waits<R>>,
    faults: FaultCount,
}

impl<R: Clock + Drop> Model for TcpLink<R> {
    ghost use Rattle.gw_net.specs.Real.{SocketState};

    ghost Value = { SocketState };

    ghost view = { λ l. record { faults = l.faults } };
}

impl<R: Clock + Drop> TcpLink<R> {
    /// A link over the stream; an error where its options can't be set, and then the stream is closed.
    pub fn new(stream: TcpStream) -> io::Result<Self>
        ensures { IfOk result (λ link. link ≡ record { faults = 0 }) }
    {
        prepare(&stream)?;
        Ok(TcpLink {
            stream,
            waits: None,
            faults: FaultCount::new(),
        })
    }

    /// A link whose client holds all others up. A second passes at most until the first bytes of a request come. The others are waited
    /// for two seconds together, and so is each write.
    pub(crate) fn brief(stream: TcpStream, rt: R) -> io::Result<Self>
        ensures { IfOk result (λ link. link ≡ record { faults = 0 }) }
    {
        let waits = Waits::new(rt, &stream)?;
        Ok(TcpLink {
            stream,
            waits: Some(waits),
            faults: FaultCount::new(),
        })
    }

    /// How many calls have failed.
    pub fn faults(&self) -> u64
        ensures { result ≡ self.now.faults }
    {
        self.faults.get()
    }

    // One read.
    fn receive(&mut self, buf: &mut [u8]) -> io::Result<usize>
        ensures bound { ReadsAtMost result buf.new }
        ensures same { self.new ≡ self.old }
    {
        match &mut self.waits {
            Some(waits) => waits.read(&mut self.stream, buf),
            None => read_piece(&mut self.stream, buf),
        }
    }

    // Bounds how long is waited for what the client still sends. An error where nobody needs to wait.
    fn prepare_end(&mut self) -> io::Result<()> {
        match &mut self.waits {
            // A client for whom was waited too long sends nothing.
            Some(_) if self.faults.get() > 0 => Err(io::Error::from(ErrorKind::TimedOut)),
            Some(waits) => {
                waits.end();
                Ok(())
            }
            None => self
                .stream
                .set_read_timeout(Some(Duration::from_millis(MOST_WAIT))),
        }
    }

    /// Ends the connection in two steps (RFC 9112, section 9.6): nothing more is written, and what the client still sends is taken and
    /// dropped for a while, 16 seconds and 4 MiB at most, since a connection that is closed over unread bytes takes back what was written
    /// last. That of a brief one takes half a second at most.
    pub(crate) fn end(self) {
        let mut link = self;
        if link.stream.shutdown(Shutdown::Write).is_err() || link.prepare_end().is_err() {
            return;
        }
        let mut rest = [0; PIECE];
        'pieces: for _ in 0..MOST_REST {
            match link.receive(&mut rest) {
                Ok(size) if size > 0 => {}
                _ => return,
            }
        }
    }
}

impl<R: Clock + Drop> Link for TcpLink<R> {
    ghost left = { λ _. None };

    ghost written = { λ _. None };

    ghost faults = { λ l. l.faults };

    fn read(&mut self, buf: &mut [u8]) -> Result<usize, Failed>
        ensures within { IfOk result (λ n. n ≤ length buf.new) }
        ensures counted { self.new.faults ≡ after_call result self.old.faults }
    {
        match self.receive(buf) {
            Ok(taken) => Ok(taken),
            Err(_) => Err(self.faults.fail()),
        }
    }

    // A client that closed its side is an error here: the system's call is made without SIGPIPE.
    fn write(&mut self, piece: &[u8]) -> Result<usize, Failed>
        ensures some { IfOk result (λ n. 0 < n) }
        ensures within { IfOk result (λ n. n ≤ length piece.now) }
        ensures counted { self.new.faults ≡ after_call result self.old.faults }
    {
        if let Some(waits) = &mut self.waits {
            waits.wrote();
        }
        match write_piece(&mut self.stream, piece) {
            Ok(taken) if taken > 0 => Ok(taken),
            _ => Err(self.faults.fail()),
        }
    }
}

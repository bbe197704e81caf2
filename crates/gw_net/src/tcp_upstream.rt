ghost use Rattle.std.specs.Prelude.{◌≡◌, ◌≤◌, ◌<◌, None, length, IfOk};
ghost use Rattle.std.specs.Io.{WritesAtMost};
ghost use Rattle.gw_link.specs.Faults.{HasRisen};
ghost use Rattle.gw_net.specs.Real.{UpstreamState, after_call, after_connect};

use crate::fault_count::FaultCount;
use crate::pieces::{read_piece, write_piece};
use crate::streams::{MOST_REACH, address, prepare_reads, prepare_writes};
use gw_link::{Failed, Upstream};
use gw_text::Socket;
use std::io;
use std::marker::Model;
use std::net::{Net, TcpListener, TcpStream};
use std::time::Duration;

// The most bytes of a first piece that a connection takes at once whatever its options: one segment's memory, which it always has.
const MOST_AT_ONCE: usize = 4096;

// A connection with the backend at a socket.
#[derive(Drop)]
struct Connection {
    at: Socket,
    stream: TcpStream,
    sent: Sent,
}

// What was sent over a connection.
#[derive(Clone, Copy)]
enum Sent {
    Nothing,
    // One short piece.
    Little,
    // More, by calls whose waiting is bounded.
    Much,
}

impl Connection {
    // Prepares for a piece of so many bytes. Most requests are one short piece, for which no option is set: two calls of the system less.
    fn prepare(&mut self, size: usize) -> io::Result<()>
        ensures { self.new.at ≡ self.old.at }
    {
        match self.sent {
            Sent::Nothing if size <= MOST_AT_ONCE => self.sent = Sent::Little,
            Sent::Nothing | Sent::Little => {
                prepare_writes(&self.stream)?;
                self.sent = Sent::Much;
            }
            Sent::Much => {}
        }
        Ok(())
    }

    // Sends a front of the piece.
    fn send(&mut self, piece: &[u8]) -> io::Result<usize>
        ensures bound { WritesAtMost result piece.now }
        ensures at { self.new.at ≡ self.old.at }
    {
        self.prepare(piece.len())?;
        write_piece(&mut self.stream, piece)
    }
}

/// Reaches backends over TCP, by one connection at a time. It tells no content. A backend that isn't reached in 5 seconds, is silent
/// for 30 or takes nothing for as long fails the call that waits for it. Dropping it closes its connection.
#[derive(Drop)]
pub struct TcpUpstream<R: Net + Drop> {
    rt: R,
    connection: Option<Connection>,
    faults: FaultCount,
}

impl<R: Net + Drop> Model for TcpUpstream<R> {
    ghost use Rattle.std.specs.Prelude.{option_map};
    ghost use Rattle.gw_net.specs.Real.{UpstreamState};

    ghost Value = { UpstreamState };

    ghost view = { λ u. record { at = option_map (λ c. c.at) u.connection; faults = u.faults } };
}

impl<R: Net<Listener = TcpListener, Stream = TcpStream> + Drop> TcpUpstream<R> {
    /// An upstream without a connection.
    pub fn new(rt: R) -> Self
        ensures { result ≡ record { at = None; faults = 0 } }
    {
        TcpUpstream {
            rt,
            connection: None,
            faults: FaultCount::new(),
        }
    }

    /// How many calls have failed.
    pub fn faults(&self) -> u64
        ensures { result ≡ self.now.faults }
    {
        self.faults.get()
    }
}

fn reach<R: Net<Stream = TcpStream>>(rt: &R, to: Socket) -> io::Result<TcpStream> {
    let most = Duration::from_secs(MOST_REACH);
    let stream = TcpStream::connect_timeout(rt, &address(to), most)?;
    prepare_reads(&stream)?;
    Ok(stream)
}

impl<R: Net<Listener = TcpListener, Stream = TcpStream> + Drop> Upstream for TcpUpstream<R> {
    ghost use Rattle.std.specs.Prelude.{◌≤◌, None};
    ghost use Rattle.std.proofs.Common.{rules};
    ghost use Rattle.gw_link.specs.Faults.{HasRisen};
    ghost use Rattle.gw_link.proofs.FaultLemmas.{HasRisen-then, HasRisen-still};

    ghost exchanges = { λ _. None };

    ghost at = { λ u. u.at };

    ghost faults = { λ u. u.faults };

    ghost becomes = { λ a b. a.faults ≤ b.faults };

    ghost refuses = { λ a b call to. HasRisen a.faults b.faults };

    fn connect(&mut self, to: Socket) -> Result<(), Failed>
        ensures after { self.new ≡ after_connect to result self.old }
    {
        self.connection = None;
        match reach(&self.rt, to) {
            Ok(stream) => {
                self.connection = Some(Connection {
                    at: to,
                    stream,
                    sent: Sent::Nothing,
                });
                Ok(())
            }
            Err(_) => Err(self.faults.fail()),
        }
    }

    fn send(&mut self, piece: &[u8]) -> Result<usize, Failed>
        ensures some { IfOk result (λ n. 0 < n) }
        ensures within { IfOk result (λ n. n ≤ length piece.now) }
        ensures after { self.new ≡ record self.old { faults = after_call result self.old.faults } }
    {
        if let Some(connection) = &mut self.connection {
            match connection.send(piece) {
                Ok(taken) if taken > 0 => return Ok(taken),
                _ => {}
            }
        }
        Err(self.faults.fail())
    }

    fn receive(&mut self, buf: &mut [u8]) -> Result<usize, Failed>
        ensures within { IfOk result (λ n. n ≤ length buf.new) }
        ensures after { self.new ≡ record self.old { faults = after_call result self.old.faults } }
    {
        if let Some(connection) = &mut self.connection {
            if let Ok(taken) = read_piece(&mut connection.stream, buf) {
                return Ok(taken);
            }
        }
        Err(self.faults.fail())
    }

    fn close(&mut self)
        ensures after { self.new ≡ record self.old { at = None } }
    {
        self.connection = None;
    }

    ghost becomes_self = { λ a. Prim.search rules };

    ghost becomes_then = { λ a b c first second. Prim.search rules };

    ghost refuses_later = { λ a b c call to later risen. HasRisen-then a.faults b.faults c.faults later risen };

    ghost refuses_still = { λ a b c call to risen later. HasRisen-still a.faults b.faults c.faults risen later };
}

ghost use Rattle.std.specs.Prelude.{◌≡◌, ℕ, ◌≤◌, ◌<◌, None, length, IfOk, is_some, refl};
ghost use Rattle.std.specs.Io.{WritesAtMost};
ghost use Rattle.futures.specs.Poll.{OnPending};
ghost use Rattle.futures.specs.Task.{Hears, IsArmed, Keeps as KeepsTask};
ghost use Rattle.gw_link.specs.Faults.{HasRisen};
ghost use Rattle.gw_polling.specs.Polls.{IfDone, OnFailed};
ghost use Rattle.gw_net.specs.Real.{PolledUpstreamState, after_poll, after_wait, after_poll_connect};

use crate::fault_count::FaultCount;
use crate::pieces::{read_piece, write_piece};
use crate::streams::{MOST_REACH, MOST_SILENCE, address};
use crate::wait_count::WaitCount;
use crate::watch::Watch;
use futures::task::{Context, Poll};
use gw_link::Failed;
use gw_polling::PollUpstream;
use gw_text::Socket;
use mio::Interest;
use mio::net::TcpStream;
use std::io;
use std::io::ErrorKind;
use std::marker::Model;
use std::net::Net;
use std::rt::Clock;

// A connection with the backend at a socket, or one that is being opened.
#[derive(Drop)]
struct Connection {
    at: Socket,
    stream: TcpStream,
    pieces: u8,
}

impl Connection {
    // Begins to connect.
    fn begin<R: Net>(rt: &R, to: Socket) -> io::Result<Self>
        ensures { IfOk result (λ c. c.at ≡ to) }
    {
        Ok(Connection {
            at: to,
            stream: TcpStream::connect(rt, address(to))?,
            pieces: 0,
        })
    }

    // Whether the backend has accepted it; an error where it didn't.
    fn is_reached(&self) -> io::Result<bool> {
        if self.stream.peer_addr().is_ok() {
            return Ok(true);
        }
        match self.stream.take_error()? {
            Some(error) => Err(error),
            None => Ok(false),
        }
    }

    // Sends a front of the piece. Most requests are one short piece, which waits for nothing; each one behind it is sent at once.
    fn send(&mut self, piece: &[u8]) -> io::Result<usize>
        ensures bound { WritesAtMost result piece.now }
        ensures at { self.new.at ≡ self.old.at }
    {
        if self.pieces == 1 {
            self.stream.set_nodelay(true)?;
        }
        let taken = write_piece(&mut self.stream, piece)?;
        self.pieces = self.pieces.saturating_add(1);
        Ok(taken)
    }
}

/// Reaches backends over TCP, by one connection at a time, and never waits. It tells no content. Where a call finds it not ready, its
/// ring names the connection for which it works when it is, and every few seconds; a backend that isn't reached within 5 seconds, or isn't
/// ready for 30, fails the call. Dropping it closes its connection.
#[derive(Drop)]
pub struct MioUpstream<R: Net + Clock + Drop> {
    rt: R,
    watch: Watch<R>,
    opening: Option<Connection>,
    connection: Option<Connection>,
    faults: FaultCount,
    waits: WaitCount,
}

impl<R: Net + Clock + Drop> Model for MioUpstream<R> {
    ghost use Rattle.std.specs.Prelude.{option_map};
    ghost use Rattle.gw_net.specs.Real.{PolledUpstreamState};

    ghost Value = { PolledUpstreamState };

    ghost view = { λ u. record { at = option_map (λ c. c.at) u.connection; faults = u.faults; waits = u.waits } };
}

impl<R: Net + Clock + Drop> MioUpstream<R> {
    /// An upstream without a connection.
    pub(crate) fn new(rt: R, watch: Watch<R>) -> Self
        ensures { result ≡ record { at = None; faults = 0; waits = 0 } }
    {
        MioUpstream {
            rt,
            watch,
            opening: None,
            connection: None,
            faults: FaultCount::new(),
            waits: WaitCount::new(),
        }
    }

    /// How many calls have failed.
    pub fn faults(&self) -> u64
        ensures { result ≡ self.now.faults }
    {
        self.faults.get()
    }

    /// How many polls weren't ready.
    pub fn waits(&self) -> u64
        ensures { result ≡ self.now.waits }
    {
        self.waits.get()
    }

    // The connection with this socket that is being opened, or a new one.
    fn take_opening(&mut self, to: Socket) -> io::Result<Connection>
        ensures to { IfOk result (λ c. c.at ≡ to) }
        ensures same { self.new ≡ self.old }
    {
        match self.opening.take() {
            Some(opening) if opening.at == to => Ok(opening),
            _ => {
                self.watch.renew();
                Connection::begin(&self.rt, to)
            }
        }
    }

    // A call finds the connection not ready.
    fn wait<T>(&mut self, cx: &mut Context<'_>, wanted: Interest) -> Poll<Result<T, Failed>>
        ensures undone { IfDone result (λ _. ⊥) }
        ensures after { self.new ≡ record self.old { faults = after_poll result self.old.faults; waits = after_wait result self.old.waits } }
        ensures armed { OnPending result (IsArmed cx.new) }
        ensures heard { OnPending result ((s : ℕ) → Hears cx.new s) }
        ensures task { KeepsTask cx.old cx.new }
    {
        if let Some(connection) = &mut self.connection {
            if self
                .watch
                .wait(&mut connection.stream, wanted, MOST_SILENCE)
                .is_ok()
            {
                return self.waits.wait(cx);
            }
        }
        Poll::Ready(Err(self.faults.fail()))
    }

    // The connection isn't open yet.
    fn wait_to_connect(
        &mut self,
        cx: &mut Context<'_>,
        opening: Connection,
    ) -> Poll<Result<(), Failed>>
        requires { self.old.at ≡ None }
        ensures undone { IfDone result (λ _. ⊥) }
        ensures after { self.new ≡ record self.old { faults = after_poll result self.old.faults; waits = after_wait result self.old.waits } }
        ensures armed { OnPending result (IsArmed cx.new) }
        ensures heard { OnPending result ((s : ℕ) → Hears cx.new s) }
        ensures task { KeepsTask cx.old cx.new }
    {
        let mut opening = opening;
        if self
            .watch
            .wait(&mut opening.stream, Interest::WRITABLE, MOST_REACH)
            .is_err()
        {
            return Poll::Ready(Err(self.faults.fail()));
        }
        self.opening = Some(opening);
        self.waits.wait(cx)
    }
}

impl<R: Net + Clock + Drop> PollUpstream for MioUpstream<R> {
    ghost use Rattle.std.specs.Prelude.{◌≤◌, None, refl};
    ghost use Rattle.std.proofs.Common.{rules};
    ghost use Rattle.gw_link.specs.Faults.{HasRisen};
    ghost use Rattle.gw_link.proofs.FaultLemmas.{HasRisen-then, HasRisen-still};

    ghost exchanges = { λ _. None };

    ghost at = { λ u. u.at };

    ghost marks = { λ _. None };

    ghost faults = { λ u. u.faults };

    ghost waits = { λ u. u.waits };

    // It only asks for another poll, so it is heard of at each source.
    ghost source = { λ _. 0 };

    ghost becomes = { λ a b. a.faults ≤ b.faults };

    ghost refuses = { λ a b call to. HasRisen a.faults b.faults };

    fn poll_connect(&mut self, cx: &mut Context<'_>, to: Socket) -> Poll<Result<(), Failed>>
        ensures after { self.new ≡ after_poll_connect to result self.old }
        ensures armed { OnPending result (IsArmed cx.new) }
        ensures heard { OnPending result ((s : ℕ) → Hears cx.new s) }
        ensures task { KeepsTask cx.old cx.new }
    {
        self.connection = None;
        let Ok(opening) = self.take_opening(to) else {
            return Poll::Ready(Err(self.faults.fail()));
        };
        match opening.is_reached() {
            Ok(true) => {
                self.watch.found_ready();
                self.connection = Some(opening);
                Poll::Ready(Ok(()))
            }
            Ok(false) => self.wait_to_connect(cx, opening),
            Err(_) => Poll::Ready(Err(self.faults.fail())),
        }
    }

    fn poll_send(&mut self, cx: &mut Context<'_>, piece: &[u8]) -> Poll<Result<usize, Failed>>
        ensures some { IfDone result (λ n. 0 < n) }
        ensures within { IfDone result (λ n. n ≤ length piece.now) }
        ensures after { self.new ≡ record self.old { faults = after_poll result self.old.faults; waits = after_wait result self.old.waits } }
        ensures armed { OnPending result (IsArmed cx.new) }
        ensures heard { OnPending result ((s : ℕ) → Hears cx.new s) }
        ensures task { KeepsTask cx.old cx.new }
    {
        if let Some(connection) = &mut self.connection {
            match connection.send(piece) {
                Ok(taken) if taken > 0 => {
                    self.watch.found_ready();
                    return Poll::Ready(Ok(taken));
                }
                Err(error) if error.kind() == ErrorKind::WouldBlock => return self.wait(
                    cx,
                    Interest::WRITABLE,
                ),
                _ => {}
            }
        }
        Poll::Ready(Err(self.faults.fail()))
    }

    // Behind a request no backend has answered yet, so the first call asks the ring, and reads nothing.
    fn poll_receive(&mut self, cx: &mut Context<'_>, buf: &mut [u8]) -> Poll<Result<usize, Failed>>
        ensures within { IfDone result (λ n. n ≤ length buf.new) }
        ensures after { self.new ≡ record self.old { faults = after_poll result self.old.faults; waits = after_wait result self.old.waits } }
        ensures armed { OnPending result (IsArmed cx.new) }
        ensures heard { OnPending result ((s : ℕ) → Hears cx.new s) }
        ensures task { KeepsTask cx.old cx.new }
    {
        if !self.watch.hears_reads() {
            return self.wait(cx, Interest::READABLE);
        }
        if let Some(connection) = &mut self.connection {
            match read_piece(&mut connection.stream, buf) {
                Ok(taken) => {
                    self.watch.found_ready();
                    return Poll::Ready(Ok(taken));
                }
                Err(error) if error.kind() == ErrorKind::WouldBlock => return self.wait(
                    cx,
                    Interest::READABLE,
                ),
                Err(_) => {}
            }
        }
        Poll::Ready(Err(self.faults.fail()))
    }

    fn close(&mut self)
        ensures after { self.new ≡ record self.old { at = None } }
    {
        self.opening = None;
        self.connection = None;
    }

    ghost becomes_self = { λ a. Prim.search rules };

    ghost becomes_then = { λ a b c first second. Prim.search rules };

    ghost refuses_later = { λ a b c call to later risen. HasRisen-then a.faults b.faults c.faults later risen };

    ghost refuses_still = { λ a b c call to risen later. HasRisen-still a.faults b.faults c.faults risen later };

    ghost tells_marks = { λ _. refl };
}

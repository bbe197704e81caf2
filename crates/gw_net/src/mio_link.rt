ghost use Rattle.std.specs.Prelude.{◌≡◌, ◌<◌, ◌≤◌, ℕ, None, length, refl};
ghost use Rattle.futures.specs.Poll.{OnPending};
ghost use Rattle.futures.specs.Task.{Hears, IsArmed, Keeps as KeepsTask};
ghost use Rattle.gw_polling.specs.Polls.{IfDone};
ghost use Rattle.gw_net.specs.Real.{PolledLinkState, after_poll, after_wait};

use crate::fault_count::FaultCount;
use crate::pieces::{read_piece, write_piece};
use crate::streams::MOST_SILENCE;
use crate::wait_count::WaitCount;
use crate::watch::Watch;
use futures::task::{Context, Poll};
use gw_link::Failed;
use gw_polling::PollLink;
use mio::Interest;
use mio::net::TcpStream;
use std::io::ErrorKind;
use std::marker::Model;
use std::rt::Clock;

/// A connection with a client over TCP that never waits. It tells no content. Where a read or a write finds it not ready, its ring names
/// it when it is, and every few seconds; a call that finds it not ready for 30 seconds fails. Dropping it closes the connection.
#[derive(Drop)]
pub struct MioLink<R: Clock + Drop> {
    stream: TcpStream,
    watch: Watch<R>,
    is_ended: bool,
    faults: FaultCount,
    read_waits: WaitCount,
    write_waits: WaitCount,
}

impl<R: Clock + Drop> Model for MioLink<R> {
    ghost use Rattle.gw_net.specs.Real.{PolledLinkState};

    ghost Value = { PolledLinkState };

    ghost view = { λ l. record { faults = l.faults; read_waits = l.read_waits; write_waits = l.write_waits } };
}

impl<R: Clock + Drop> MioLink<R> {
    /// A link over a stream that doesn't wait.
    pub(crate) fn new(stream: TcpStream, watch: Watch<R>) -> Self
        ensures { result ≡ record { faults = 0; read_waits = 0; write_waits = 0 } }
    {
        MioLink {
            stream,
            watch,
            is_ended: false,
            faults: FaultCount::new(),
            read_waits: WaitCount::new(),
            write_waits: WaitCount::new(),
        }
    }

    /// How many reads and writes have failed.
    pub fn faults(&self) -> u64
        ensures { result ≡ self.now.faults }
    {
        self.faults.get()
    }

    /// How many polls of a read weren't ready.
    pub fn read_waits(&self) -> u64
        ensures { result ≡ self.now.read_waits }
    {
        self.read_waits.get()
    }

    /// How many polls of a write weren't ready.
    pub fn write_waits(&self) -> u64
        ensures { result ≡ self.now.write_waits }
    {
        self.write_waits.get()
    }

    /// The stream, and how it is watched; none where the client has said that it sends no more.
    pub(crate) fn into_open(self) -> Option<(TcpStream, Watch<R>)> {
        if self.is_ended {
            return None;
        }
        let MioLink { stream, watch, .. } = self;
        Some((stream, watch))
    }

    // A read finds nothing.
    fn wait_to_read(&mut self, cx: &mut Context<'_>) -> Poll<Result<usize, Failed>>
        ensures undone { IfDone result (λ _. ⊥) }
        ensures after { self.new ≡ record self.old { faults = after_poll result self.old.faults; read_waits = after_wait result self.old.read_waits } }
        ensures armed { OnPending result (IsArmed cx.new) }
        ensures heard { OnPending result ((s : ℕ) → Hears cx.new s) }
        ensures task { KeepsTask cx.old cx.new }
    {
        match self
            .watch
            .wait(&mut self.stream, Interest::READABLE, MOST_SILENCE)
        {
            Ok(()) => self.read_waits.wait(cx),
            Err(_) => Poll::Ready(Err(self.faults.fail())),
        }
    }

    // A write finds no room.
    fn wait_to_write(&mut self, cx: &mut Context<'_>) -> Poll<Result<usize, Failed>>
        ensures undone { IfDone result (λ _. ⊥) }
        ensures after { self.new ≡ record self.old { faults = after_poll result self.old.faults; write_waits = after_wait result self.old.write_waits } }
        ensures armed { OnPending result (IsArmed cx.new) }
        ensures heard { OnPending result ((s : ℕ) → Hears cx.new s) }
        ensures task { KeepsTask cx.old cx.new }
    {
        match self
            .watch
            .wait(&mut self.stream, Interest::WRITABLE, MOST_SILENCE)
        {
            Ok(()) => self.write_waits.wait(cx),
            Err(_) => Poll::Ready(Err(self.faults.fail())),
        }
    }
}

impl<R: Clock + Drop> PollLink for MioLink<R> {
    ghost left = { λ _. None };

    ghost end = { λ _. None };

    ghost written = { λ _. None };

    ghost marks = { λ _. None };

    ghost faults = { λ l. l.faults };

    ghost read_waits = { λ l. l.read_waits };

    ghost write_waits = { λ l. l.write_waits };

    // It only asks for another poll, so it is heard of at each source.
    ghost source = { λ _. 0 };

    fn poll_read(&mut self, cx: &mut Context<'_>, buf: &mut [u8]) -> Poll<Result<usize, Failed>>
        ensures within { IfDone result (λ n. n ≤ length buf.new) }
        ensures after { self.new ≡ record self.old { faults = after_poll result self.old.faults; read_waits = after_wait result self.old.read_waits } }
        ensures armed { OnPending result (IsArmed cx.new) }
        ensures heard { OnPending result ((s : ℕ) → Hears cx.new s) }
        ensures task { KeepsTask cx.old cx.new }
    {
        match read_piece(&mut self.stream, buf) {
            Ok(taken) => {
                self.watch.found_ready();
                self.is_ended = taken == 0;
                Poll::Ready(Ok(taken))
            }
            Err(error) if error.kind() == ErrorKind::WouldBlock => self.wait_to_read(cx),
            Err(_) => Poll::Ready(Err(self.faults.fail())),
        }
    }

    // A client that closed its side is an error here: the system's call is made without SIGPIPE.
    fn poll_write(&mut self, cx: &mut Context<'_>, piece: &[u8]) -> Poll<Result<usize, Failed>>
        ensures some { IfDone result (λ n. 0 < n) }
        ensures within { IfDone result (λ n. n ≤ length piece.now) }
        ensures after { self.new ≡ record self.old { faults = after_poll result self.old.faults; write_waits = after_wait result self.old.write_waits } }
        ensures armed { OnPending result (IsArmed cx.new) }
        ensures heard { OnPending result ((s : ℕ) → Hears cx.new s) }
        ensures task { KeepsTask cx.old cx.new }
    {
        match write_piece(&mut self.stream, piece) {
            Ok(taken) if taken > 0 => {
                self.watch.found_ready();
                Poll::Ready(Ok(taken))
            }
            Err(error) if error.kind() == ErrorKind::WouldBlock => self.wait_to_write(cx),
            _ => Poll::Ready(Err(self.faults.fail())),
        }
    }

    ghost tells_marks = { λ _. refl };

    ghost tells_end = { λ _. refl };
}

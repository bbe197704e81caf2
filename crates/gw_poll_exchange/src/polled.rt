ghost use Rattle.std.specs.Prelude.{◌≡◌, ℕ, ◌<◌, ◌≤◌, List, [], Bool, true, None, Some, length, is_some};
ghost use Rattle.futures.specs.Poll.{IfReady, OnPending};
ghost use Rattle.futures.specs.Task.{Keeps as KeepsTask};
ghost use Rattle.gw_text.specs.model.Addresses.{Socket as Address};
ghost use Rattle.gw_exchange.specs.Exchanged.{IsCallFault, IsRefused};
ghost use Rattle.gw_exchange.specs.declared.backend.TheConstants.{MOST_PIECE};
ghost use Rattle.gw_link.specs.Exchanges.{Exchange};
ghost use Rattle.gw_link.specs.Faults.{HasRisen};
ghost use Rattle.gw_polling.specs.Polls.{CountsWaits, IsRegistered, HasNoMark, NoneCame};
ghost use Rattle.gw_poll_exchange.specs.Polled.{StandsFor, IsJoined, GoesOn, IsOver, Reads, ReadsOn, ReadsTo};
ghost use Rattle.gw_poll_exchange.specs.Stays.{UpstreamStays};

use futures::task::{Context, Poll};
use gw_exchange::{ExchangeFault, MOST_PIECE, step_of};
use gw_polling::{PollUpstream, send_on};
use gw_replies::{BackendFault, ReplyReader, ReplyStep, Response};
use gw_text::{Socket, Text};
use std::alloc::Global;

/// An exchange with a backend that is polled: how far it came.
#[derive(Drop)]
pub struct PolledExchange {
    to: Socket,
    /// What is sent.
    bytes: Text,
    /// Whether the response is one to HEAD.
    head: bool,
    /// How many of the bytes were sent.
    sent: usize,
    reader: ReplyReader,
    stage: Stage,
}

/// How far it came.
#[derive(Clone, Copy, Debug, PartialEq, Eq)]
enum Stage {
    /// A connection is to be opened.
    Connecting,
    /// It was opened; what is left of the bytes is to be sent, and then the response is received.
    Connected,
}

impl PolledExchange {
    /// An exchange with the backend at the socket, which isn't begun yet. The response is one to HEAD where `head` is true.
    pub fn new(alloc: Global, to: Socket, bytes: Text, head: bool) -> PolledExchange
        ensures stands { StandsFor result [] }
        ensures connecting { result.stage ≡ Stage.Connecting }
        ensures to { result.to ≡ to }
        ensures bytes { result.bytes ≡ bytes }
        ensures head { result.head ≡ head }
    {
        PolledExchange {
            to,
            bytes,
            head,
            sent: 0,
            reader: ReplyReader::new(alloc, head),
            stage: Stage::Connecting,
        }
    }

    /// Goes on with it until the upstream isn't ready or it is over: opens a connection, sends all bytes, receives until the response is
    /// whole, and closes. What is received is read into the buffer, which is only lent.
    pub fn poll<U: PollUpstream>(
        &mut self,
        up: &mut U,
        cx: &mut Context<'_>,
        buffer: &mut [u8],
    ) -> Poll<Result<Response, ExchangeFault>>
        requires joined { IsJoined self.old.stage (U.at up.old) self.old.to }
        requires begun { (met : List Exchange) × StandsFor self.old met }
        requires any { 0 < length buffer.old }
        requires few { length buffer.old ≤ MOST_PIECE }
        ensures on { OnPending result ((met : List Exchange) → StandsFor self.old met → GoesOn self.old self.new met (U.exchanges up.old) (U.exchanges up.new)) }
        ensures over { IfReady result (λ answer. (met : List Exchange) → StandsFor self.old met → IsOver self.old met (U.exchanges up.old) (U.exchanges up.new) answer) }

        // A call is the cause only where it failed in this poll, at this socket.
        ensures cause { IfReady result (λ answer. IsCallFault answer → HasRisen (U.faults up.old) (U.faults up.new)) }
        ensures refused { IfReady result (IsRefused (U.refuses up.old up.new) self.old.to) }
        ensures later { U.faults up.old ≤ U.faults up.new }

        // It waits only where the upstream wasn't ready in this poll, which then is registered.
        ensures waits { CountsWaits (U.waits up.old) (U.waits up.new) result }
        ensures registered { OnPending result (IsRegistered cx.new (U.source up.new)) }
        ensures ready { OnPending result (¬ HasNoMark (U.marks up.old)) }
        ensures unmarked { NoneCame (U.marks up.old) (U.marks up.new) }

        ensures joined { OnPending result (IsJoined self.new.stage (U.at up.new) self.new.to) }
        ensures closed { IfReady result (λ answer. U.at up.new ≡ None) }
        ensures to { self.new.to ≡ self.old.to }
        ensures bytes { self.new.bytes ≡ self.old.bytes }
        ensures head { self.new.head ≡ self.old.head }
        ensures task { KeepsTask cx.old cx.new }
        ensures same { U.source up.new ≡ U.source up.old }
        ensures goes { U.becomes up.old up.new }
    {
        match self.stage {
            Stage::Connecting => self.connect(up, cx, buffer),
            Stage::Connected => self.go_on(up, cx, buffer),
        }
    }

    // Opens the connection, and goes on over it.
    fn connect<U: PollUpstream>(
        &mut self,
        up: &mut U,
        cx: &mut Context<'_>,
        buffer: &mut [u8],
    ) -> Poll<Result<Response, ExchangeFault>>
        requires connecting { self.old.stage ≡ Stage.Connecting }
        requires begun { (met : List Exchange) × StandsFor self.old met }
        requires any { 0 < length buffer.old }
        requires few { length buffer.old ≤ MOST_PIECE }
        ensures on { OnPending result ((met : List Exchange) → StandsFor self.old met → GoesOn self.old self.new met (U.exchanges up.old) (U.exchanges up.new)) }
        ensures over { IfReady result (λ answer. (met : List Exchange) → StandsFor self.old met → IsOver self.old met (U.exchanges up.old) (U.exchanges up.new) answer) }
        ensures cause { IfReady result (λ answer. IsCallFault answer → HasRisen (U.faults up.old) (U.faults up.new)) }
        ensures refused { IfReady result (IsRefused (U.refuses up.old up.new) self.old.to) }
        ensures up { UpstreamStays U.PollUpstream up.old up.new }
        ensures waits { CountsWaits (U.waits up.old) (U.waits up.new) result }
        ensures registered { OnPending result (IsRegistered cx.new (U.source up.new)) }
        ensures ready { OnPending result (¬ HasNoMark (U.marks up.old)) }
        ensures joined { OnPending result (IsJoined self.new.stage (U.at up.new) self.new.to) }
        ensures closed { IfReady result (λ answer. U.at up.new ≡ None) }
        ensures to { self.new.to ≡ self.old.to }
        ensures bytes { self.new.bytes ≡ self.old.bytes }
        ensures head { self.new.head ≡ self.old.head }
        ensures task { KeepsTask cx.old cx.new }
    {
        match up.poll_connect(cx, self.to) {
            Poll::Ready(Ok(())) => {
                self.stage = Stage::Connected;
                self.go_on(up, cx, buffer)
            }
            Poll::Ready(Err(_)) => Poll::Ready(Err(ExchangeFault::Backend(BackendFault::Open))),
            Poll::Pending => Poll::Pending,
        }
    }

    // Goes on over the connection, which is closed where the exchange is over.
    fn go_on<U: PollUpstream>(
        &mut self,
        up: &mut U,
        cx: &mut Context<'_>,
        buffer: &mut [u8],
    ) -> Poll<Result<Response, ExchangeFault>>
        requires connected { self.old.stage ≡ Stage.Connected }
        requires at { U.at up.old ≡ Some self.old.to }
        requires begun { (met : List Exchange) × StandsFor self.old met }
        requires any { 0 < length buffer.old }
        requires few { length buffer.old ≤ MOST_PIECE }
        ensures on { OnPending result ((met : List Exchange) → StandsFor self.old met → GoesOn self.old self.new met (U.exchanges up.old) (U.exchanges up.new)) }
        ensures over { IfReady result (λ answer. (met : List Exchange) → StandsFor self.old met → IsOver self.old met (U.exchanges up.old) (U.exchanges up.new) answer) }
        ensures cause { IfReady result (λ answer. IsCallFault answer → HasRisen (U.faults up.old) (U.faults up.new)) }
        ensures refused { IfReady result (IsRefused (U.refuses up.old up.new) self.old.to) }
        ensures up { UpstreamStays U.PollUpstream up.old up.new }
        ensures waits { CountsWaits (U.waits up.old) (U.waits up.new) result }
        ensures registered { OnPending result (IsRegistered cx.new (U.source up.new)) }
        ensures ready { OnPending result (¬ HasNoMark (U.marks up.old)) }
        ensures joined { OnPending result (IsJoined self.new.stage (U.at up.new) self.new.to) }
        ensures closed { IfReady result (λ answer. U.at up.new ≡ None) }
        ensures stage { self.new.stage ≡ self.old.stage }
        ensures to { self.new.to ≡ self.old.to }
        ensures bytes { self.new.bytes ≡ self.old.bytes }
        ensures head { self.new.head ≡ self.old.head }
        ensures task { KeepsTask cx.old cx.new }
    {
        match self.converse(up, cx, buffer) {
            Poll::Ready(result) => {
                up.close();
                Poll::Ready(result)
            }
            Poll::Pending => Poll::Pending,
        }
    }

    // Sends what is left of the bytes, and then receives the response.
    fn converse<U: PollUpstream>(
        &mut self,
        up: &mut U,
        cx: &mut Context<'_>,
        buffer: &mut [u8],
    ) -> Poll<Result<Response, ExchangeFault>>
        requires connected { self.old.stage ≡ Stage.Connected }
        requires at { U.at up.old ≡ Some self.old.to }
        requires begun { (met : List Exchange) × StandsFor self.old met }
        requires any { 0 < length buffer.old }
        requires few { length buffer.old ≤ MOST_PIECE }
        ensures on { OnPending result ((met : List Exchange) → StandsFor self.old met → GoesOn self.old self.new met (U.exchanges up.old) (U.exchanges up.new)) }
        ensures over { IfReady result (λ answer. (met : List Exchange) → StandsFor self.old met → IsOver self.old met (U.exchanges up.old) (U.exchanges up.new) answer) }
        ensures cause { IfReady result (λ answer. IsCallFault answer → HasRisen (U.faults up.old) (U.faults up.new)) }
        ensures refused { IfReady result (IsRefused (U.refuses up.old up.new) self.old.to) }
        ensures up { UpstreamStays U.PollUpstream up.old up.new }
        ensures waits { CountsWaits (U.waits up.old) (U.waits up.new) result }
        ensures registered { OnPending result (IsRegistered cx.new (U.source up.new)) }
        ensures ready { OnPending result (¬ HasNoMark (U.marks up.old)) }
        ensures stays { U.at up.new ≡ U.at up.old }
        ensures stage { self.new.stage ≡ self.old.stage }
        ensures to { self.new.to ≡ self.old.to }
        ensures bytes { self.new.bytes ≡ self.old.bytes }
        ensures head { self.new.head ≡ self.old.head }
        ensures task { KeepsTask cx.old cx.new }
    {
        match send_on(up, cx, self.bytes.bytes(), &mut self.sent) {
            Poll::Ready(Ok(())) => receive(up, cx, &mut self.reader, buffer),
            Poll::Ready(Err(_)) => Poll::Ready(Err(ExchangeFault::Backend(BackendFault::Send))),
            Poll::Pending => Poll::Pending,
        }
    }
}

// Receives until the reader has the response or the upstream isn't ready.
fn receive<U: PollUpstream>(
    up: &mut U,
    cx: &mut Context<'_>,
    reader: &mut ReplyReader,
    buffer: &mut [u8],
) -> Poll<Result<Response, ExchangeFault>>
    requires connected { is_some (U.at up.old) ≡ true }
    requires begun { (head : Bool) × ((given : List ℕ) × Reads reader.old head given) }
    requires any { 0 < length buffer.old }
    requires few { length buffer.old ≤ MOST_PIECE }
    ensures on { OnPending result ((head : Bool) (given : List ℕ) → Reads reader.old head given → ReadsOn reader.new head given (U.exchanges up.old) (U.exchanges up.new)) }
    ensures over { IfReady result (λ answer. (head : Bool) (given : List ℕ) → Reads reader.old head given → ReadsTo head given (U.exchanges up.old) (U.exchanges up.new) answer) }
    ensures cause { IfReady result (λ answer. IsCallFault answer → HasRisen (U.faults up.old) (U.faults up.new)) }
    ensures refused { IfReady result (λ answer. (to : Address) → U.at up.old ≡ Some to → IsRefused (U.refuses up.old up.new) to answer) }
    ensures up { UpstreamStays U.PollUpstream up.old up.new }
    ensures waits { CountsWaits (U.waits up.old) (U.waits up.new) result }
    ensures registered { OnPending result (IsRegistered cx.new (U.source up.new)) }
    ensures ready { OnPending result (¬ HasNoMark (U.marks up.old)) }
    ensures stays { U.at up.new ≡ U.at up.old }
    ensures task { KeepsTask cx.old cx.new }
{
    let mut given = 0;
    'pieces: loop {
        let size = match up.poll_receive(cx, buffer) {
            Poll::Ready(Ok(size)) => size,
            Poll::Ready(Err(_)) => {
                return Poll::Ready(Err(ExchangeFault::Backend(BackendFault::Receive)));
            }
            Poll::Pending => return Poll::Pending,
        };
        given += size;
        match step_of(reader, &buffer[..size]) {
            Ok(ReplyStep::Need) => {}
            Ok(ReplyStep::Done(response)) => return Poll::Ready(Ok(Box::into_inner(response))),
            Ok(ReplyStep::Fault(fault)) => {
                return Poll::Ready(Err(ExchangeFault::Backend(fault)));
            }
            Err(_) => return Poll::Ready(Err(ExchangeFault::NoMemory)),
        }
    }
}

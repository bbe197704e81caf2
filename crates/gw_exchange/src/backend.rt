ghost use Rattle.std.specs.Prelude.{◌≡◌, ℕ, ◌+◌, ◌<◌, ◌≤◌, ◌==◌, List, [], ◌++◌, Bool, true, false, Option, Some, None, length, IfOk, IfSome, OnOk, is_some};
ghost use Rattle.gw_text.specs.model.Addresses.{Socket as Address};
ghost use Rattle.gw_link.specs.Exchanges.{Exchange, new_exchange, Tells};
ghost use Rattle.gw_link.specs.Faults.{HasRisen};
ghost use Rattle.gw_replies.specs.model.Responses.{ResponseOf};
ghost use Rattle.gw_replies.specs.Replies.{StandsFor, given, seen};
ghost use Rattle.gw_exchange.specs.Exchanged.{ComesTo, Ends, Exchanged, IsCallFault, IsRefused, Received};

use crate::fault::ExchangeFault;
use gw_link::{Upstream, send_whole};
use gw_replies::{BackendFault, ReplyReader, ReplyStep, Response};
use gw_text::{NoMemory, Socket};
use std::alloc::Global;

/// The most bytes that a response, with the interim ones before it, comes to before it is whole: 64 MiB.
pub const MOST_GIVEN: usize = 67_108_864;

/// The most bytes that one `receive` is asked for.
pub const MOST_PIECE: usize = 8192;

/// How many bytes the first `receive` is asked for. A response that comes in them needs no larger buffer, which wants memory and is cleared first.
const FIRST_PIECE: usize = 1024;

/// One exchange with the backend at the socket: opens a connection, sends all bytes, receives until the response is whole, and
/// closes. The response is one to HEAD where `head` is true.
pub fn exchange<U: Upstream>(
    alloc: Global,
    up: &mut U,
    to: Socket,
    bytes: &[u8],
    head: bool,
) -> Result<Response, ExchangeFault>
    ensures comes { Exchanged to bytes.now head (U.exchanges up.old) (U.exchanges up.new) result }

    // A call is the cause only where it failed, at this socket.
    ensures cause { IsCallFault result → HasRisen (U.faults up.old) (U.faults up.new) }
    ensures refused { IsRefused (U.refuses up.old up.new) to result }
    ensures later { U.faults up.old ≤ U.faults up.new }

    ensures closed { U.at up.new ≡ None }
    ensures goes { U.becomes up.old up.new }
{
    match up.connect(to) {
        Ok(()) => {}
        Err(_) => return Err(ExchangeFault::Backend(BackendFault::Open)),
    }
    let result = converse(alloc, up, bytes, head);
    up.close();
    result
}

// Sends all bytes over the connection that was opened, and receives the response.
fn converse<U: Upstream>(
    alloc: Global,
    up: &mut U,
    bytes: &[u8],
    head: bool,
) -> Result<Response, ExchangeFault>
    requires { is_some (U.at up.old) ≡ true }
    ensures ends { (before : Option (List Exchange)) (to : Address) → Tells before (new_exchange to) (U.exchanges up.old)
        → (e : Exchange) × ((e.to ≡ to) × Tells before e (U.exchanges up.new) × Ends bytes.now head e result) }
    ensures cause { IsCallFault result → HasRisen (U.faults up.old) (U.faults up.new) }
    ensures refused { (to : Address) → U.at up.old ≡ Some to → IsRefused (U.refuses up.old up.new) to result }
    ensures later { U.faults up.old ≤ U.faults up.new }
    ensures goes { U.becomes up.old up.new }
{
    match send_whole(up, bytes) {
        Ok(()) => receive_response(alloc, up, head),
        Err(_) => Err(ExchangeFault::Backend(BackendFault::Send)),
    }
}

// Receives the response over a connection over which all was sent.
fn receive_response<U: Upstream>(
    alloc: Global,
    up: &mut U,
    head: bool,
) -> Result<Response, ExchangeFault>
    requires { is_some (U.at up.old) ≡ true }
    ensures comes { Received head (U.exchanges up.old) (U.exchanges up.new) result }
    ensures cause { IsCallFault result → HasRisen (U.faults up.old) (U.faults up.new) }
    ensures refused { (to : Address) → U.at up.old ≡ Some to → IsRefused (U.refuses up.old up.new) to result }
    ensures later { U.faults up.old ≤ U.faults up.new }
    ensures goes { U.becomes up.old up.new }
{
    let mut reader = ReplyReader::new(alloc, head);
    receive_by(alloc, up, &mut reader)
}

// Receives until the reader, to which nothing came yet, has the response.
fn receive_by<U: Upstream>(
    alloc: Global,
    up: &mut U,
    reader: &mut ReplyReader,
) -> Result<Response, ExchangeFault>
    requires connected { is_some (U.at up.old) ≡ true }
    requires stands { StandsFor reader.old.to_head reader.old [] None }
    requires unended { reader.old.over ≡ false }
    ensures comes { Received reader.old.to_head (U.exchanges up.old) (U.exchanges up.new) result }
    ensures cause { IsCallFault result → HasRisen (U.faults up.old) (U.faults up.new) }
    ensures refused { (to : Address) → U.at up.old ≡ Some to → IsRefused (U.refuses up.old up.new) to result }
    ensures later { U.faults up.old ≤ U.faults up.new }
    ensures goes { U.becomes up.old up.new }
{
    let mut first = [0; FIRST_PIECE];
    let mut more = Vec::new(alloc);
    let mut given = 0;
    'pieces: loop {
        let buffer = buffer_of(&mut first, &mut more, given);
        let size = match up.receive(buffer) {
            Ok(size) => size,
            Err(_) => return Err(ExchangeFault::Backend(BackendFault::Receive)),
        };
        given += size;
        match step_of(reader, &buffer[..size]) {
            Ok(ReplyStep::Need) => {}
            Ok(ReplyStep::Done(response)) => return Ok(Box::into_inner(response)),
            Ok(ReplyStep::Fault(fault)) => return Err(ExchangeFault::Backend(fault)),
            Err(_) => return Err(ExchangeFault::NoMemory),
        }
    }
}

// The buffer for the next piece: the small one, and once something came the large one, if there is memory for it.
fn buffer_of<'b>(first: &'b mut [u8], more: &'b mut Vec<u8>, given: usize) -> &'b mut [u8]
    requires any { 0 < length first.old }
    requires few { length first.old ≤ MOST_PIECE }
    ensures any { 0 < length result.now }
    ensures few { length result.now ≤ MOST_PIECE }
{
    if given > 0 && more.resize(MOST_PIECE, 0).is_ok() {
        return more.as_mut_slice();
    }
    first
}

/// What the bytes of a response come to with this piece behind them; an empty piece is their end.
pub fn step_of(reader: &mut ReplyReader, piece: &[u8]) -> Result<ReplyStep, NoMemory>
    requires { reader.old.over ≡ false }
    ensures answers { IfOk result (λ step. (head : Bool) (bytes : List ℕ) → StandsFor head reader.old bytes None
        → ResponseOf head (bytes ++ piece.now) (length piece.now == 0) (seen step)) }
    ensures settles { IfOk result (λ step. (head : Bool) (bytes : List ℕ) → StandsFor head reader.old bytes None
        → IfSome (given (seen step)) (ComesTo head (bytes ++ piece.now) (length piece.now == 0))) }
    ensures stands { result ≡ Ok ReplyStep.Need → (head : Bool) (bytes : List ℕ) → StandsFor head reader.old bytes None
        → StandsFor head reader.new (bytes ++ piece.now) None }
    ensures over { OnOk result (reader.new.over ≡ (length piece.now == 0)) }
{
    take_piece(reader, piece)?;
    reader.next()
}

// Takes a piece, of which an empty one is the end.
fn take_piece(reader: &mut ReplyReader, piece: &[u8]) -> Result<(), NoMemory>
    requires { reader.old.over ≡ false }
    ensures stands { OnOk result ((head : Bool) (bytes : List ℕ) → StandsFor head reader.old bytes None
        → StandsFor head reader.new (bytes ++ piece.now) None) }
    ensures over { OnOk result (reader.new.over ≡ (length piece.now == 0)) }
{
    if piece.is_empty() {
        reader.finish();
        return Ok(());
    }
    reader.feed(piece)
}

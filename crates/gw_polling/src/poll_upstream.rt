ghost use Rattle.std.specs.Prelude.{◌≡◌, ◌-◌, ℕ, ◌<◌, ◌≤◌, Bool, true, List, Option, Some, None, length, take, drop, is_some, IfSome};
ghost use Rattle.futures.specs.Poll.{OnPending};
ghost use Rattle.futures.specs.Task.{Keeps as KeepsTask};
ghost use Rattle.gw_text.specs.model.Addresses.{Socket as Address};
ghost use Rattle.gw_link.specs.Pieces.{Keeps};
ghost use Rattle.gw_link.specs.Exchanges.{Exchange, new_exchange, Tells, Sends, Receives};
ghost use Rattle.gw_polling.specs.Polls.{IfDone, OnDone, OnFailed, OnUndone, CountsFaults, CountsWaits, IsRegistered, HasNoMark, NoneCame};

use futures::task::{Context, Poll};
use gw_link::{Failed, UpstreamCall};
use gw_text::Socket;

/// Where backends are reached, by one connection at a time, and polled. A mark says that it isn't ready at that point.
pub trait PollUpstream: Drop {
    ghost use Rattle.gw_link.specs.declared.order.UpstreamCall.{UpstreamCall};

    // The exchanges so far, one for each connection that was opened. None: it doesn't tell.
    ghost exchanges: { Self → Option (List Exchange) };

    // The socket with which there is a connection.
    ghost at: { Self → Option Address };

    // Whether a mark is to come. None: it doesn't tell.
    ghost marks: { Self → Option Bool };

    // How many calls have failed; at the last u64 it stays.
    ghost faults: { Self → ℕ };

    // How many polls weren't ready; at the last u64 it stays.
    ghost waits: { Self → ℕ };

    // The name of the source at which it registers.
    ghost source: { Self → ℕ };

    // What is known of it after any calls, one after another. The laws below say that it is kept from call to call.
    ghost becomes: { Self → Self → Type 0 };

    // Between the two such a call failed at the socket. The laws below say that earlier and later calls keep that.
    ghost refuses: { Self → Self → UpstreamCall → Address → Type 0 };

    /// Opens a connection, in the place of one that is there. While it isn't ready there is no connection.
    fn poll_connect(&mut self, cx: &mut Context<'_>, to: Socket) -> Poll<Result<(), Failed>>
        ensures opened { OnDone result (Tells (exchanges self.old) (new_exchange to) (exchanges self.new)) }
        ensures kept { OnUndone result (Keeps (exchanges self.old) (exchanges self.new)) }
        ensures connects { OnDone result (at self.new ≡ Some to) }
        ensures apart { OnUndone result (at self.new ≡ None) }
        ensures refused { OnFailed result (refuses self.old self.new UpstreamCall.Connect to) }
        ensures unmarked { NoneCame (marks self.old) (marks self.new) }
        ensures ready { OnPending result (¬ HasNoMark (marks self.old)) }
        ensures counts { CountsFaults (faults self.old) (faults self.new) result }
        ensures waits { CountsWaits (waits self.old) (waits self.new) result }
        ensures registered { OnPending result (IsRegistered cx.new (source self.new)) }
        ensures task { KeepsTask cx.old cx.new }
        ensures same { source self.new ≡ source self.old }
        ensures goes { becomes self.old self.new };

    /// Takes the front of the piece, at least one byte of it. The piece isn't empty.
    fn poll_send(&mut self, cx: &mut Context<'_>, piece: &[u8]) -> Poll<Result<usize, Failed>>
        requires connected { is_some (at self.old) ≡ true }
        requires any { 0 < length piece.now }
        ensures some { IfDone result (λ n. 0 < n) }
        ensures within { IfDone result (λ n. n ≤ length piece.now) }
        ensures sends { IfDone result (λ n. Sends (exchanges self.old) (take n piece.now) (exchanges self.new)) }
        ensures kept { OnUndone result (Keeps (exchanges self.old) (exchanges self.new)) }
        ensures refused { OnFailed result (IfSome (at self.old) (λ to. refuses self.old self.new UpstreamCall.Send to)) }
        ensures stays { at self.new ≡ at self.old }
        ensures unmarked { NoneCame (marks self.old) (marks self.new) }
        ensures ready { OnPending result (¬ HasNoMark (marks self.old)) }
        ensures counts { CountsFaults (faults self.old) (faults self.new) result }
        ensures waits { CountsWaits (waits self.old) (waits self.new) result }
        ensures registered { OnPending result (IsRegistered cx.new (source self.new)) }
        ensures task { KeepsTask cx.old cx.new }
        ensures same { source self.new ≡ source self.old }
        ensures goes { becomes self.old self.new };

    /// Ok(0) is the end of what the backend gives. The buffer isn't empty.
    fn poll_receive(&mut self, cx: &mut Context<'_>, buf: &mut [u8]) -> Poll<Result<usize, Failed>>
        requires connected { is_some (at self.old) ≡ true }
        requires any { 0 < length buf.old }
        ensures within { IfDone result (λ n. n ≤ length buf.new) }
        ensures receives { IfDone result (λ n. Receives (exchanges self.old) (take n buf.new) (exchanges self.new)) }
        ensures kept { OnUndone result (Keeps (exchanges self.old) (exchanges self.new)) }
        ensures refused { OnFailed result (IfSome (at self.old) (λ to. refuses self.old self.new UpstreamCall.Receive to)) }
        ensures stays { at self.new ≡ at self.old }
        ensures unmarked { NoneCame (marks self.old) (marks self.new) }
        ensures ready { OnPending result (¬ HasNoMark (marks self.old)) }
        ensures counts { CountsFaults (faults self.old) (faults self.new) result }
        ensures waits { CountsWaits (waits self.old) (waits self.new) result }
        ensures registered { OnPending result (IsRegistered cx.new (source self.new)) }
        ensures task { KeepsTask cx.old cx.new }
        ensures same { source self.new ≡ source self.old }
        ensures goes { becomes self.old self.new };

    /// Closes the connection, where there is one.
    fn close(&mut self)
        ensures kept { Keeps (exchanges self.old) (exchanges self.new) }
        ensures closed { at self.new ≡ None }
        ensures unmarked { NoneCame (marks self.old) (marks self.new) }
        ensures later { faults self.old ≤ faults self.new }
        ensures unwaited { waits self.new ≡ waits self.old }
        ensures same { source self.new ≡ source self.old }
        ensures goes { becomes self.old self.new };

    ghost becomes_self: { (a : Self) → becomes a a };

    ghost becomes_then: { (a b c : Self) → becomes a b → becomes b c → becomes a c };

    ghost refuses_later: { (a b c : Self) (call : UpstreamCall) (to : Address) → becomes a b → refuses b c call to → refuses a c call to };

    ghost refuses_still: { (a b c : Self) (call : UpstreamCall) (to : Address) → refuses a b call to → becomes b c → refuses a c call to };

    // An upstream that tells its exchanges tells the marks too.
    ghost tells_marks: { (up : Self) → is_some (marks up) ≡ is_some (exchanges up) };
}

/// Sends on with the piece, of which the first `sent` bytes are sent, until it is sent whole, the upstream isn't ready or a call
/// fails. A piece that is sent whole makes no call.
pub fn send_on<U: PollUpstream>(
    up: &mut U,
    cx: &mut Context<'_>,
    piece: &[u8],
    sent: &mut usize,
) -> Poll<Result<(), Failed>>
    requires connected { is_some (U.at up.old) ≡ true }
    requires within { sent.old ≤ length piece.now }
    ensures later { sent.old ≤ sent.new }
    ensures within { sent.new ≤ length piece.now }
    ensures whole { OnDone result (sent.new ≡ length piece.now) }
    ensures rest { OnUndone result (sent.new < length piece.now) }
    ensures sends { Sends (U.exchanges up.old) (take (sent.new - sent.old) (drop sent.old piece.now)) (U.exchanges up.new) }
    ensures refused { OnFailed result (IfSome (U.at up.old) (λ to. U.refuses up.old up.new UpstreamCall.Send to)) }
    ensures stays { U.at up.new ≡ U.at up.old }
    ensures unmarked { NoneCame (U.marks up.old) (U.marks up.new) }
    ensures ready { OnPending result (¬ HasNoMark (U.marks up.old)) }
    ensures counts { CountsFaults (U.faults up.old) (U.faults up.new) result }
    ensures waits { CountsWaits (U.waits up.old) (U.waits up.new) result }
    ensures registered { OnPending result (IsRegistered cx.new (U.source up.new)) }
    ensures task { KeepsTask cx.old cx.new }
    ensures same { U.source up.new ≡ U.source up.old }
    ensures goes { U.becomes up.old up.new }
    ensures empty { sent.old ≡ length piece.now → (result ≡ Poll.Ready (Ok tt)) × (up.new ≡ up.old) }
{
    'pieces: while *sent < piece.len() {
        match up.poll_send(cx, &piece[*sent..]) {
            Poll::Ready(Ok(taken)) => *sent += taken,
            Poll::Ready(Err(failed)) => return Poll::Ready(Err(failed)),
            Poll::Pending => return Poll::Pending,
        }
    }
    Poll::Ready(Ok(()))
}

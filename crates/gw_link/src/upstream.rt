ghost use Rattle.std.specs.Prelude.{◌≡◌, ℕ, ◌<◌, ◌≤◌, List, [], true, Option, Some, None, length, take, is_some, IfOk, IfSome, OnOk, OnErr};
ghost use Rattle.gw_text.specs.model.Addresses.{Socket as Address};
ghost use Rattle.gw_link.specs.Faults.{Counts};
ghost use Rattle.gw_link.specs.Pieces.{Keeps};
ghost use Rattle.gw_link.specs.Exchanges.{Exchange, new_exchange, Tells, Sends, SendsPart, Receives};

use crate::failed::Failed;
use crate::order::UpstreamCall;
use gw_text::Socket;

/// Where backends are reached, by one connection at a time.
pub trait Upstream: Drop {
    ghost use Rattle.gw_link.specs.declared.order.UpstreamCall.{UpstreamCall};

    // The exchanges so far, one for each connection that was opened. None: it doesn't tell.
    ghost exchanges: { Self → Option (List Exchange) };

    // The socket with which there is a connection.
    ghost at: { Self → Option Address };

    // How many calls have failed; at the last u64 it stays.
    ghost faults: { Self → ℕ };

    // What is known of it after any calls, one after another. The laws below say that it is kept from call to call.
    ghost becomes: { Self → Self → Type 0 };

    // Between the two such a call failed at the socket. The laws below say that earlier and later calls keep that.
    ghost refuses: { Self → Self → UpstreamCall → Address → Type 0 };

    /// Opens a connection, in the place of one that is there.
    fn connect(&mut self, to: Socket) -> Result<(), Failed>
        ensures opened { OnOk result (Tells (exchanges self.old) (new_exchange to) (exchanges self.new)) }
        ensures kept { OnErr result (Keeps (exchanges self.old) (exchanges self.new)) }
        ensures connects { OnOk result (at self.new ≡ Some to) }
        ensures apart { OnErr result (at self.new ≡ None) }
        ensures refused { OnErr result (refuses self.old self.new UpstreamCall.Connect to) }
        ensures counts { Counts (faults self.old) (faults self.new) result }
        ensures goes { becomes self.old self.new };

    /// Takes the front of the piece, at least one byte of it. The piece isn't empty.
    fn send(&mut self, piece: &[u8]) -> Result<usize, Failed>
        requires connected { is_some (at self.old) ≡ true }
        requires any { 0 < length piece.now }
        ensures some { IfOk result (λ n. 0 < n) }
        ensures within { IfOk result (λ n. n ≤ length piece.now) }
        ensures sends { IfOk result (λ n. Sends (exchanges self.old) (take n piece.now) (exchanges self.new)) }
        ensures kept { OnErr result (Keeps (exchanges self.old) (exchanges self.new)) }
        ensures refused { OnErr result (IfSome (at self.old) (λ to. refuses self.old self.new UpstreamCall.Send to)) }
        ensures stays { at self.new ≡ at self.old }
        ensures counts { Counts (faults self.old) (faults self.new) result }
        ensures goes { becomes self.old self.new };

    /// Ok(0) is the end of what the backend gives. The buffer isn't empty.
    fn receive(&mut self, buf: &mut [u8]) -> Result<usize, Failed>
        requires connected { is_some (at self.old) ≡ true }
        requires any { 0 < length buf.old }
        ensures within { IfOk result (λ n. n ≤ length buf.new) }
        ensures receives { IfOk result (λ n. Receives (exchanges self.old) (take n buf.new) (exchanges self.new)) }
        ensures kept { OnErr result (Keeps (exchanges self.old) (exchanges self.new)) }
        ensures refused { OnErr result (IfSome (at self.old) (λ to. refuses self.old self.new UpstreamCall.Receive to)) }
        ensures stays { at self.new ≡ at self.old }
        ensures counts { Counts (faults self.old) (faults self.new) result }
        ensures goes { becomes self.old self.new };

    /// Closes the connection, where there is one.
    fn close(&mut self)
        ensures kept { Keeps (exchanges self.old) (exchanges self.new) }
        ensures closed { at self.new ≡ None }
        ensures later { faults self.old ≤ faults self.new }
        ensures goes { becomes self.old self.new };

    ghost becomes_self: { (a : Self) → becomes a a };

    ghost becomes_then: { (a b c : Self) → becomes a b → becomes b c → becomes a c };

    ghost refuses_later: { (a b c : Self) (call : UpstreamCall) (to : Address) → becomes a b → refuses b c call to → refuses a c call to };

    ghost refuses_still: { (a b c : Self) (call : UpstreamCall) (to : Address) → refuses a b call to → becomes b c → refuses a c call to };
}

/// Sends the whole piece, in as many calls as it takes. An empty piece makes none.
pub fn send_whole<U: Upstream>(up: &mut U, piece: &[u8]) -> Result<(), Failed>
    requires { is_some (U.at up.old) ≡ true }
    ensures ok { OnOk result (Sends (U.exchanges up.old) piece.now (U.exchanges up.new)) }
    ensures err { OnErr result (SendsPart (U.exchanges up.old) piece.now (U.exchanges up.new)) }
    ensures refused { OnErr result (IfSome (U.at up.old) (λ to. U.refuses up.old up.new UpstreamCall.Send to)) }
    ensures stays { U.at up.new ≡ U.at up.old }
    ensures counts { Counts (U.faults up.old) (U.faults up.new) result }
    ensures goes { U.becomes up.old up.new }
    ensures empty { piece.now ≡ [] → (result ≡ Ok tt) × (up.new ≡ up.old) }
{
    let mut at = 0;
    'pieces: while at < piece.len() {
        at += up.send(&piece[at..])?;
    }
    Ok(())
}

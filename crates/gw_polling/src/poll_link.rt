ghost use Rattle.std.specs.Prelude.{◌≡◌, ◌-◌, ℕ, ◌<◌, ◌≤◌, Bool, true, List, Option, is_some, length, take, drop, IfSome};
ghost use Rattle.futures.specs.Poll.{OnPending};
ghost use Rattle.futures.specs.Task.{Keeps as KeepsTask};
ghost use Rattle.gw_link.specs.Pieces.{Gives, Takes, IsAtEnd, Keeps};
ghost use Rattle.gw_polling.specs.Polls.{IfDone, OnDone, OnUndone, CountsFaults, CountsWaits, IsRegistered, HasNoMark, NoneCame, IsUsedUp};

use futures::task::{Context, Poll};
use gw_link::Failed;

/// A connection with a client that is polled. A mark says that it isn't ready at that point; a poll that isn't ready does nothing
/// but wait.
pub trait PollLink: Drop {
    // The bytes that are left to be read. None: it doesn't tell.
    ghost left: { Self → Option (List ℕ) };

    // Whether the end stands behind these bytes. None: it doesn't tell.
    ghost end: { Self → Option Bool };

    // The bytes written so far. None: it doesn't tell.
    ghost written: { Self → Option (List ℕ) };

    // Whether a mark is to come. None: it doesn't tell.
    ghost marks: { Self → Option Bool };

    // How many calls have failed; at the last u64 it stays.
    ghost faults: { Self → ℕ };

    // How many polls of a read, and how many of a write, weren't ready; at the last u64 each stays.
    ghost read_waits: { Self → ℕ };

    ghost write_waits: { Self → ℕ };

    // The name of the source at which it registers.
    ghost source: { Self → ℕ };

    /// Ok(0) is the end. The buffer isn't empty.
    fn poll_read(&mut self, cx: &mut Context<'_>, buf: &mut [u8]) -> Poll<Result<usize, Failed>>
        requires { 0 < length buf.old }
        ensures within { IfDone result (λ n. n ≤ length buf.new) }
        ensures gives { IfDone result (λ n. Gives (left self.old) (take n buf.new) (left self.new)) }
        ensures ends { result ≡ Poll.Ready (Ok 0) → IsAtEnd (left self.new) × IfSome (end self.new) (λ has_end. has_end ≡ true) }
        ensures kept { OnUndone result (Keeps (left self.old) (left self.new)) }
        ensures unended { Keeps (end self.old) (end self.new) }
        ensures unwritten { Keeps (written self.old) (written self.new) }
        ensures unmarked { NoneCame (marks self.old) (marks self.new) }
        ensures ready { OnPending result (HasNoMark (marks self.old) → IsUsedUp (left self.new) (end self.new)) }
        ensures counts { CountsFaults (faults self.old) (faults self.new) result }
        ensures waits { CountsWaits (read_waits self.old) (read_waits self.new) result }
        ensures unwaited { write_waits self.new ≡ write_waits self.old }
        ensures registered { OnPending result (IsRegistered cx.new (source self.new)) }
        ensures task { KeepsTask cx.old cx.new }
        ensures same { source self.new ≡ source self.old };

    /// Takes the front of the piece, at least one byte of it. The piece isn't empty.
    fn poll_write(&mut self, cx: &mut Context<'_>, piece: &[u8]) -> Poll<Result<usize, Failed>>
        requires { 0 < length piece.now }
        ensures some { IfDone result (λ n. 0 < n) }
        ensures within { IfDone result (λ n. n ≤ length piece.now) }
        ensures takes { IfDone result (λ n. Takes (written self.old) (take n piece.now) (written self.new)) }
        ensures kept { OnUndone result (Keeps (written self.old) (written self.new)) }
        ensures unread { Keeps (left self.old) (left self.new) }
        ensures unended { Keeps (end self.old) (end self.new) }
        ensures unmarked { NoneCame (marks self.old) (marks self.new) }
        ensures ready { OnPending result (¬ HasNoMark (marks self.old)) }
        ensures counts { CountsFaults (faults self.old) (faults self.new) result }
        ensures waits { CountsWaits (write_waits self.old) (write_waits self.new) result }
        ensures unwaited { read_waits self.new ≡ read_waits self.old }
        ensures registered { OnPending result (IsRegistered cx.new (source self.new)) }
        ensures task { KeepsTask cx.old cx.new }
        ensures same { source self.new ≡ source self.old };

    // A link that tells what is left tells the marks and the end too.
    ghost tells_marks: { (link : Self) → is_some (marks link) ≡ is_some (left link) };

    ghost tells_end: { (link : Self) → is_some (end link) ≡ is_some (left link) };
}

/// Writes on with the piece, of which the first `at` bytes are written, until it is written whole, the link isn't ready or a write
/// fails. A piece that is written whole makes no call.
pub fn write_on<K: PollLink>(
    link: &mut K,
    cx: &mut Context<'_>,
    piece: &[u8],
    at: &mut usize,
) -> Poll<Result<(), Failed>>
    requires { at.old ≤ length piece.now }
    ensures later { at.old ≤ at.new }
    ensures within { at.new ≤ length piece.now }
    ensures whole { OnDone result (at.new ≡ length piece.now) }
    ensures rest { OnUndone result (at.new < length piece.now) }
    ensures takes { Takes (K.written link.old) (take (at.new - at.old) (drop at.old piece.now)) (K.written link.new) }
    ensures unread { Keeps (K.left link.old) (K.left link.new) }
    ensures unended { Keeps (K.end link.old) (K.end link.new) }
    ensures unmarked { NoneCame (K.marks link.old) (K.marks link.new) }
    ensures ready { OnPending result (¬ HasNoMark (K.marks link.old)) }
    ensures counts { CountsFaults (K.faults link.old) (K.faults link.new) result }
    ensures waits { CountsWaits (K.write_waits link.old) (K.write_waits link.new) result }
    ensures unwaited { K.read_waits link.new ≡ K.read_waits link.old }
    ensures registered { OnPending result (IsRegistered cx.new (K.source link.new)) }
    ensures task { KeepsTask cx.old cx.new }
    ensures same { K.source link.new ≡ K.source link.old }
    ensures empty { at.old ≡ length piece.now → (result ≡ Poll.Ready (Ok tt)) × (link.new ≡ link.old) }
{
    'pieces: while *at < piece.len() {
        match link.poll_write(cx, &piece[*at..]) {
            Poll::Ready(Ok(taken)) => *at += taken,
            Poll::Ready(Err(failed)) => return Poll::Ready(Err(failed)),
            Poll::Pending => return Poll::Pending,
        }
    }
    Poll::Ready(Ok(()))
}

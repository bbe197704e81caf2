ghost use Rattle.std.specs.Prelude.{◌≡◌, ℕ, ◌<◌, ◌≤◌, List, [], Option, length, take, IfOk, OnOk, OnErr};
ghost use Rattle.gw_link.specs.Faults.{Counts};
ghost use Rattle.gw_link.specs.Pieces.{Gives, Takes, TakesPart, IsAtEnd, Keeps};

use crate::failed::Failed;

/// A connection with a client: its bytes come from it, and replies go to it.
pub trait Link: Drop {
    // The bytes that are left to be read. None: it doesn't tell.
    ghost left: { Self → Option (List ℕ) };

    // The bytes written so far. None: it doesn't tell.
    ghost written: { Self → Option (List ℕ) };

    // How many calls have failed; at the last u64 it stays.
    ghost faults: { Self → ℕ };

    /// Ok(0) is the end. The buffer isn't empty.
    fn read(&mut self, buf: &mut [u8]) -> Result<usize, Failed>
        requires { 0 < length buf.old }
        ensures within { IfOk result (λ n. n ≤ length buf.new) }
        ensures gives { IfOk result (λ n. Gives (left self.old) (take n buf.new) (left self.new)) }
        ensures ends { result ≡ Ok 0 → IsAtEnd (left self.new) }
        ensures kept { OnErr result (Keeps (left self.old) (left self.new)) }
        ensures unwritten { Keeps (written self.old) (written self.new) }
        ensures counts { Counts (faults self.old) (faults self.new) result };

    /// Takes the front of the piece, at least one byte of it. The piece isn't empty.
    fn write(&mut self, piece: &[u8]) -> Result<usize, Failed>
        requires { 0 < length piece.now }
        ensures some { IfOk result (λ n. 0 < n) }
        ensures within { IfOk result (λ n. n ≤ length piece.now) }
        ensures takes { IfOk result (λ n. Takes (written self.old) (take n piece.now) (written self.new)) }
        ensures kept { OnErr result (Keeps (written self.old) (written self.new)) }
        ensures unread { Keeps (left self.old) (left self.new) }
        ensures counts { Counts (faults self.old) (faults self.new) result };
}

/// Writes the whole piece, in as many calls as it takes. An empty piece makes none.
pub fn write_whole<K: Link>(link: &mut K, piece: &[u8]) -> Result<(), Failed>
    ensures ok { OnOk result (Takes (K.written link.old) piece.now (K.written link.new)) }
    ensures err { OnErr result (TakesPart (K.written link.old) piece.now (K.written link.new)) }
    ensures unread { Keeps (K.left link.old) (K.left link.new) }
    ensures counts { Counts (K.faults link.old) (K.faults link.new) result }
    ensures empty { piece.now ≡ [] → (result ≡ Ok tt) × (link.new ≡ link.old) }
{
    let mut at = 0;
    'pieces: while at < piece.len() {
        at += link.write(&piece[at..])?;
    }
    Ok(())
}

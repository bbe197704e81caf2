ghost use Rattle.std.specs.Prelude.{◌≡◌, ℕ, ◌<◌, ◌≤◌, List, [], Option, length, take, IfOk, OnOk, OnErr};
ghost use Rattle.gw_link.specs.Faults.{Counts};
ghost use Rattle.gw_link.specs.Pieces.{Takes, TakesPart, Keeps};

use crate::failed::Failed;

/// Where bytes go.
pub trait Sink {
    // The bytes written so far. None: it doesn't tell.
    ghost written: { Self → Option (List ℕ) };

    // How many calls have failed; at the last u64 it stays.
    ghost faults: { Self → ℕ };

    /// Takes the front of the piece, at least one byte of it. The piece isn't empty.
    fn write(&mut self, piece: &[u8]) -> Result<usize, Failed>
        requires { 0 < length piece.now }
        ensures some { IfOk result (λ n. 0 < n) }
        ensures within { IfOk result (λ n. n ≤ length piece.now) }
        ensures takes { IfOk result (λ n. Takes (written self.old) (take n piece.now) (written self.new)) }
        ensures kept { OnErr result (Keeps (written self.old) (written self.new)) }
        ensures counts { Counts (faults self.old) (faults self.new) result };
}

/// Writes the whole piece, in as many calls as it takes. An empty piece makes none.
pub fn write_all<K: Sink>(sink: &mut K, piece: &[u8]) -> Result<(), Failed>
    ensures ok { OnOk result (Takes (K.written sink.old) piece.now (K.written sink.new)) }
    ensures err { OnErr result (TakesPart (K.written sink.old) piece.now (K.written sink.new)) }
    ensures counts { Counts (K.faults sink.old) (K.faults sink.new) result }
    ensures empty { piece.now ≡ [] → (result ≡ Ok tt) × (sink.new ≡ sink.old) }
{
    let mut at = 0;
    'pieces: while at < piece.len() {
        at += sink.write(&piece[at..])?;
    }
    Ok(())
}

ghost use Rattle.std.specs.Prelude.{◌≡◌, ℕ, ◌+◌, ◌<◌, ◌≤◌, ◌↔◌, List, Option, length, take, vec_len, IfSome, IfOk, OnOk, OnErr};
ghost use Rattle.gw_link.specs.Faults.{Counts, HasRisen};
ghost use Rattle.gw_link.specs.Pieces.{Gives, GivesPart, IsAtEnd, Keeps};

use crate::failed::Failed;
use gw_text::NoMemory;
use std::alloc::Global;

/// The most bytes that `read_all` takes: 64 MiB.
pub const MOST_INPUT: usize = 67_108_864;

/// The most bytes that `read_all` asks for in one call.
pub const MOST_PIECE: usize = 8192;

/// Where bytes come from. A source counts the bytes that it gives; one whose count is full fails.
pub trait Source {
    // The bytes that are left. None: it doesn't tell.
    ghost left: { Self → Option (List ℕ) };

    // How many bytes it has given, also where it doesn't tell which.
    ghost given: { Self → ℕ };

    // How many calls have failed; at the last u64 it stays.
    ghost faults: { Self → ℕ };

    /// Ok(0) is the end. The buffer isn't empty.
    fn read(&mut self, buf: &mut [u8]) -> Result<usize, Failed>
        requires { 0 < length buf.old }
        ensures within { IfOk result (λ n. n ≤ length buf.new) }
        ensures gives { IfOk result (λ n. Gives (left self.old) (take n buf.new) (left self.new)) }
        ensures ends { result ≡ Ok 0 → IsAtEnd (left self.new) }
        ensures counted { IfOk result (λ n. given self.new ≡ given self.old + n) }
        ensures kept { OnErr result (Keeps (left self.old) (left self.new) × (given self.new ≡ given self.old)) }
        ensures counts { Counts (faults self.old) (faults self.new) result };
}

/// Why a source wasn't read to its end.
#[derive(Clone, Copy, Debug, PartialEq, Eq)]
pub enum ReadFault {
    Failed,
    TooLong,
    NoMemory,
}

impl From<Failed> for ReadFault {
    ghost use Rattle.gw_link.specs.declared.source.ReadFault.TheVariants.{Failed as SourceFailed};

    ghost from_gives = { λ _ fault. fault ≡ SourceFailed };

    fn from(_: Failed) -> Self {
        ReadFault::Failed
    }
}

impl From<NoMemory> for ReadFault {
    ghost use Rattle.gw_link.specs.declared.source.ReadFault.TheVariants.{NoMemory as OutOfMemory};

    ghost from_gives = { λ _ fault. fault ≡ OutOfMemory };

    fn from(_: NoMemory) -> Self {
        ReadFault::NoMemory
    }
}

/// All that the source has left.
pub fn read_all<S: Source>(alloc: Global, source: &mut S) -> Result<Vec<u8>, ReadFault>
    ensures all { IfOk result (λ v. Gives (S.left source.old) v.items (S.left source.new)) }
    ensures end { OnOk result (IsAtEnd (S.left source.new)) }
    ensures counted { IfOk result (λ v. S.given source.new ≡ S.given source.old + vec_len v) }
    ensures small { IfOk result (λ v. vec_len v ≤ MOST_INPUT) }

    // Too much is what was given, also by a source that doesn't tell what it has.
    ensures too_long { (result ≡ Err ReadFault.TooLong) ↔
        (S.given source.old + MOST_INPUT < S.given source.new) }
    ensures long { result ≡ Err ReadFault.TooLong →
        IfSome (S.left source.old) (λ input. MOST_INPUT < length input) }
    ensures failed { result ≡ Err ReadFault.Failed →
        HasRisen (S.faults source.old) (S.faults source.new) }
    ensures later { S.faults source.old ≤ S.faults source.new }

    // Whatever the answer, bytes were taken from the front, and not many more than the limit.
    ensures part { GivesPart (S.left source.old) (S.given source.old)
        (S.left source.new) (S.given source.new) }
    ensures limit { S.given source.new ≤ S.given source.old + (MOST_INPUT + MOST_PIECE) }
{
    let mut input = Vec::new(alloc);
    let mut buffer = [0; MOST_PIECE];
    'pieces: loop {
        let taken = source.read(&mut buffer)?;
        if taken == 0 {
            return Ok(input);
        }
        if MOST_INPUT - input.len() < taken {
            return Err(ReadFault::TooLong);
        }
        input.extend_from_slice(&buffer[..taken])?;
    }
}

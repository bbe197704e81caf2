ghost use Rattle.std.specs.Prelude.{◌≡◌, ◌≤◌, ℕ, List, Bool, false, None, length};
ghost use Rattle.gw_frames.specs.model.Requests.{Part, a_head, Step, Asks, ended};

/// The most bytes that a connection has while it hasn't ended: 1,000 requests, each with a head of 16,384 bytes and a body of
/// 16,777,216 bytes as it is sent.
pub const MOST_OPEN_BYTES: u64 = 16_793_600_000;

/// The bytes of a connection give one list of steps only, whatever part comes next and however many requests came before.
#[tactic(auto, using(crate::proofs::RequestLaws::steps_unique))]
pub fn one_list_of_steps()
    ensures { (part : Part) (count : ℕ) (bytes : List ℕ) (over : Bool) (a b : List Step)
        → Asks part count bytes over a → Asks part count bytes over b → a ≡ b }
{}

/// A connection with more bytes than `MOST_OPEN_BYTES` has ended, whatever the bytes are.
#[tactic(auto, using(crate::proofs::Limits::open_limit))]
pub fn most_bytes_of_an_open_connection()
    ensures { (bytes : List ℕ) (steps : List Step) → Asks a_head 0 bytes false steps → ended steps ≡ None → length bytes ≤ MOST_OPEN_BYTES }
{}

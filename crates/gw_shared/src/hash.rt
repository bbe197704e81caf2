//! The hash of a key.
ghost use Rattle.std.specs.Prelude.{◌≡◌};
ghost use Rattle.gw_shared.specs.model.Hashes as rules;

/// The hash of no bytes.
const BASIS: u64 = 14_695_981_039_346_656_037;

/// By what the hash is multiplied with each byte.
const PRIME: u64 = 1_099_511_628_211;

fn mixed(hash: u64, byte: u8) -> u64
    ensures { result ≡ rules.mixed hash byte }
{
    (hash ^ u64::from(byte)).wrapping_mul(PRIME)
}

/// The hash of these bytes.
#[tactic(auto, unfolding(crate::specs::model::Hashes::hash_of))]
pub(crate) fn hash_of(key: &[u8]) -> u64
    ensures { result ≡ rules.hash_of key.now }
{
    let mut hash = BASIS;
    'bytes: for byte in key {
        hash = mixed(hash, *byte);
    }
    hash
}

ghost use Rattle.std.specs.Prelude.{◌≡◌, ◌==◌, ◌≤◌, length, take};
ghost use Rattle.std.specs.List.{position_or_len};

use memchr::memchr;

/// At most so many bytes from the front.
pub fn first(bytes: &[u8], count: usize) -> &[u8]
    ensures { result.now ≡ take count bytes.now }
{
    if count < bytes.len() {
        &bytes[..count]
    } else {
        bytes
    }
}

/// Where the byte first stands, or else the length.
pub fn index_of(bytes: &[u8], byte: u8) -> usize
    ensures place { result ≡ position_or_len (λ b. b == byte) bytes.now }
    ensures within { result ≤ length bytes.now }
{
    match memchr(byte, bytes) {
        Some(at) => at,
        None => bytes.len(),
    }
}

ghost use Rattle.std.specs.Prelude.{◌≡◌, take, drop};
ghost use Rattle.std.specs.List.{list_all};
ghost use Rattle.gw_frames.specs.model.Heads.{host_length, is_address_byte, is_authority, is_host, is_host_byte, is_port};

use gw_messages::bytes::index_of;
use gw_messages::number::{are_digits, number_up_to};

/// The most bytes of a host's name.
const MOST_HOST: usize = 253;

/// The most digits of a port, and the greatest port.
const MOST_PORT_DIGITS: usize = 5;

const MOST_PORT: usize = 65535;

/// Whether the text is a host, or a host and a port.
pub fn is_authority(text: &[u8]) -> bool
    ensures { result ≡ is_authority text.now }
{
    let (host, port) = split_host(text);
    is_host(host) && is_port(port)
}

/// The host of an authority, and what follows it.
pub fn split_host(authority: &[u8]) -> (&[u8], &[u8])
    ensures host { result.0.now ≡ take (host_length authority.now) authority.now }
    ensures port { result.1.now ≡ drop (host_length authority.now) authority.now }
{
    authority.split_at(host_end(authority).min(authority.len()))
}

fn host_end(authority: &[u8]) -> usize
    ensures { result ≡ host_length authority.now }
{
    if authority.first() == Some(&b'[') {
        index_of(authority, b']') + 1
    } else {
        index_of(authority, b':')
    }
}

fn is_host(host: &[u8]) -> bool
    ensures { result ≡ is_host host.now }
{
    if host.first() == Some(&b'[') {
        return host.len() > 2
            && host[host.len() - 1] == b']'
            && are_address_bytes(&host[1..host.len() - 1]);
    }
    !host.is_empty() && host.len() <= MOST_HOST && are_host_bytes(host)
}

fn are_address_bytes(bytes: &[u8]) -> bool
    ensures { result ≡ list_all is_address_byte bytes.now }
{
    bytes.iter().all(|byte| byte.is_ascii_hexdigit() || *byte == b':' || *byte == b'.')
}

fn are_host_bytes(bytes: &[u8]) -> bool
    ensures { result ≡ list_all is_host_byte bytes.now }
{
    bytes.iter().all(|byte| {
        byte.is_ascii_alphanumeric() || *byte == b'-' || *byte == b'.' || *byte == b'_'
    })
}

fn is_port(text: &[u8]) -> bool
    ensures { result ≡ is_port text.now }
{
    let Some((first, digits)) = text.split_first() else {
        return true;
    };
    if *first != b':' || digits.len() > MOST_PORT_DIGITS || !are_digits(digits) {
        return false;
    }
    number_up_to(MOST_PORT, digits).is_some()
}

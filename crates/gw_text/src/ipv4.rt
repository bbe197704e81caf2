ghost use Rattle.std.specs.Prelude.{◌≡◌};
ghost use Rattle.gw_text.specs.model.Addresses as addresses;

use std::net::Ipv4Addr;

/// The address that a text names, as `10.0.0.1`.
pub fn parse_ipv4(text: &[u8]) -> Option<Ipv4Addr>
    ensures { result ≡ addresses.ipv4_of text.now }
{
    Ipv4Addr::parse_ascii(text).ok()
}

ghost use Rattle.std.specs.Prelude.{◌≡◌, ◌==◌, ◌<◌, IfOk, Some, slice_index};
ghost use Rattle.std.specs.Char.{is_ascii_digit};
ghost use Rattle.std.specs.List.{list_all, before_first, after_first};
ghost use Rattle.gw_text.specs.Parsing.{Parses};
ghost use Rattle.gw_text.specs.model.Addresses as addresses;
ghost use Rattle.gw_text.specs.model.Doors as doors;

use crate::ipv4::parse_ipv4;
use crate::list::List;
use crate::name::TextFault;
use crate::text::Text;
use std::alloc::{AllocError, Global};
use std::marker::Model;
use std::net::Ipv4Addr;

/// An address of IPv4 and a port.
#[derive(Clone, Copy, Debug, PartialEq, Eq, Hash)]
pub struct Socket {
    pub a: u8,
    pub b: u8,
    pub c: u8,
    pub d: u8,
    pub port: u16,
}

/// Sockets in their order.
pub type Sockets = List<Socket>;

impl Model for Socket {
    ghost use Rattle.gw_text.specs.model.Addresses.{Socket as Plain};

    ghost Value = { Plain };

    ghost view = { λ s. record { a = s.a; b = s.b; c = s.c; d = s.d; port = s.port } };

    ghost inverse = { λ s. record { a = s.a; b = s.b; c = s.c; d = s.d; port = s.port } };
}

impl Socket {
    /// The socket that a text names, as `127.0.0.1:8080`.
    pub fn parse(_alloc: Global, s: &str) -> Result<Self, TextFault>
        ensures { Parses (addresses.socket_of s.now) result }
    {
        socket_of(s).ok_or(TextFault::Bad)
    }

    /// The address, `:` and the port.
    pub fn print(&self, alloc: Global) -> Result<Text, AllocError>
        ensures text { IfOk result (λ text. text ≡ addresses.socket_text self.now) }
        ensures parsed { IfOk result (λ text. addresses.socket_of text ≡ Some self.now) }
    {
        let Socket { a, b, c, d, port } = *self;
        let text = format!(in alloc; "{a}.{b}.{c}.{d}:{port}")?;
        Ok(Text::from_vec(text.into_bytes()))
    }

    /// The address without the port.
    pub fn address(&self) -> Ipv4Addr
        ensures { result ≡ addresses.address_of self.now }
    {
        Ipv4Addr::new(self.a, self.b, self.c, self.d)
    }

    /// The text of the address without the port.
    pub fn print_address(&self, alloc: Global) -> Result<Text, AllocError>
        ensures { IfOk result (λ text. text ≡ addresses.address_text self.now) }
    {
        let Socket { a, b, c, d, .. } = *self;
        let text = format!(in alloc; "{a}.{b}.{c}.{d}")?;
        Ok(Text::from_vec(text.into_bytes()))
    }

    /// Whether both have the same four numbers.
    pub(crate) fn same_address(&self, other: &Socket) -> bool
        ensures { result ≡ doors.same_address self.now other.now }
    {
        self.a == other.a && self.b == other.b && self.c == other.c && self.d == other.d
    }

    /// Whether both have the same address and port.
    pub fn same_socket(&self, other: &Socket) -> bool
        ensures { result ≡ doors.same_socket self.now other.now }
    {
        self.same_address(other) && self.port == other.port
    }
}

/// The texts before and after the first separator, and no text after where there is none.
pub(crate) fn around(s: &str, separator: char) -> (&str, &str)
    requires { separator < 128 }
    ensures before { result.0.now ≡ before_first (λ b. b == separator) s.now }
    ensures after { result.1.now ≡ after_first (λ b. b == separator) s.now }
{
    match s.split_once(separator) {
        Some((before, after)) => (before, after),
        None => (s, ""),
    }
}

/// The socket that a text names.
#[tactic(auto, unfolding(crate::specs::model::Addresses::socket_of))]
pub(crate) fn socket_of(s: &str) -> Option<Socket>
    ensures { result ≡ addresses.socket_of s.now }
{
    let (address, port) = around(s, ':');
    let port = port_of(port)?;
    let [a, b, c, d] = parse_ipv4(address.as_bytes())?.octets();
    Some(Socket { a, b, c, d, port })
}

// Whether the byte may begin a number of several digits.
fn is_leading(b: u8) -> bool
    ensures { result ≡ addresses.is_leading b }
{
    b.is_ascii_digit() && b != b'0'
}

fn begins_above_0(text: &[u8]) -> bool
    ensures { result ≡ addresses.is_leading (slice_index text.now 0) }
{
    match text.first() {
        Some(b) => is_leading(*b),
        None => false,
    }
}

fn are_digits(text: &[u8]) -> bool
    ensures { result ≡ list_all is_ascii_digit text.now }
{
    text.iter().all(|b| b.is_ascii_digit())
}

/// Whether the text is a number in decimal digits, without a leading zero where there are several.
pub fn is_decimal(text: &[u8]) -> bool
    ensures { result ≡ addresses.is_decimal text.now }
{
    are_digits(text) && (text.len() == 1 || begins_above_0(text))
}

/// The port that a text writes.
#[tactic(auto, unfolding(crate::specs::model::Addresses::number_up_to))]
pub(crate) fn port_of(s: &str) -> Option<u16>
    ensures { result ≡ addresses.port_of s.now }
{
    if !is_decimal(s.as_bytes()) {
        return None;
    }
    s.parse().ok()
}

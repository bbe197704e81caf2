use gw_text::Socket;
use std::io;
use std::net::{Ipv4Addr, SocketAddr, SocketAddrV4, TcpStream};
use std::time::Duration;

/// How many seconds a peer may be silent, or take nothing, before the call that waits for it fails.
pub(crate) const MOST_SILENCE: u64 = 30;

/// How many seconds may pass until a backend is reached.
pub(crate) const MOST_REACH: u64 = 5;

/// Makes a stream send each piece at once, and bounds how long its calls wait.
pub(crate) fn prepare(stream: &TcpStream) -> io::Result<()> {
    prepare_reads(stream)?;
    prepare_writes(stream)
}

/// Bounds how long a read waits.
pub(crate) fn prepare_reads(stream: &TcpStream) -> io::Result<()> {
    stream.set_read_timeout(Some(Duration::from_secs(MOST_SILENCE)))
}

/// Makes a stream send each piece at once, and bounds how long a write waits.
pub(crate) fn prepare_writes(stream: &TcpStream) -> io::Result<()> {
    stream.set_nodelay(true)?;
    stream.set_write_timeout(Some(Duration::from_secs(MOST_SILENCE)))
}

/// The socket as std's sockets take it.
pub(crate) fn address(at: Socket) -> SocketAddr {
    SocketAddr::V4(SocketAddrV4::new(Ipv4Addr::new(at.a, at.b, at.c, at.d), at.port))
}

/// A socket as std's sockets tell it. None where it has an address of the other version.
pub(crate) fn socket_of(address: SocketAddr) -> Option<Socket> {
    match address {
        SocketAddr::V4(at) => {
            let [a, b, c, d] = at.ip().octets();
            let port = at.port();
            Some(Socket { a, b, c, d, port })
        }
        SocketAddr::V6(_) => None,
    }
}

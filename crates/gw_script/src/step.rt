use gw_link::UpstreamCall;
use gw_text::Socket;

/// A step of a script, with the parts of its line.
#[derive(Drop)]
pub enum Step<'l> {
    /// A watch event, by its bytes.
    Event(&'l [u8]),
    /// What was taken is published, and every worker learns it.
    Publish,
    /// A connection begins at a door of a worker, both by their numbers.
    Open {
        name: &'l str,
        worker: usize,
        door: usize,
    },
    /// The client of a connection sends these bytes.
    Send {
        name: &'l str,
        bytes: Vec<u8>,
    },
    /// The client of a connection has sent all.
    End {
        name: &'l str,
    },
    /// From now on the backend at the socket answers this text and so many `x`, and then ends.
    Answer {
        socket: Socket,
        text: Vec<u8>,
        fill: usize,
    },
    /// From now on this call fails at the socket, until there is an answer for it.
    Fail {
        socket: Socket,
        call: UpstreamCall,
    },
}

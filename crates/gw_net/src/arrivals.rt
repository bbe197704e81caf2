use gw_edge::EdgeFault;
use gw_text::NoMemory;
use mio::net::TcpStream;
use mio::{Events, Interest, Token};
use std::alloc::Global;
use std::io::ErrorKind;
use std::net::{Net, TcpListener};
use std::time::Duration;
use std::{io, net};

// How many connections wait at most, and of how many sockets the system tells at once.
const MOST_WAITING: usize = 64;

// The token of the listening socket. A connection has its number.
const LISTENER: usize = 0;

// How often a wait that nothing came of is begun again.
const MOST_TRIES: u64 = u64::MAX;

// A connection that was accepted.
#[derive(Drop)]
struct Arrival {
    number: usize,
    stream: TcpStream,
    // Bytes of it are there, or its end.
    is_ready: bool,
}

/// The connections of a listening socket, each of which is given once bytes of it are there. So a client that says nothing holds nobody
/// up. Where too many wait, the oldest one is closed.
#[derive(Drop)]
pub(crate) struct Arrivals {
    listener: TcpListener,
    poll: mio::Poll,
    events: Events,
    // The oldest one first.
    waiting: Vec<Arrival>,
    next: usize,
    may_accept: bool,
}

// What waits for the listening socket. A handle on the socket stays registered as long as it is open.
fn listen_by<R: Net>(rt: &R, listener: TcpListener) -> io::Result<(mio::Poll, TcpListener)> {
    let poll = mio::Poll::new(rt)?;
    let mut listener = mio::net::TcpListener::from_std(listener);
    poll.registry()
        .register(&mut listener, Token(LISTENER), Interest::READABLE)?;
    Ok((poll, TcpListener::from(listener)))
}

// Notes of which connections the system has told, and says whether one waits at the listening socket. A connection that was given is
// told of too, until it is closed, which means nothing here.
fn note(events: &Events, waiting: &mut Vec<Arrival>) -> bool {
    let mut comes = false;
    'events: for event in events {
        let Token(number) = event.token();
        if number == LISTENER {
            comes = true;
        } else if let Some(at) = waiting.iter().position(|one| one.number == number) {
            waiting[at].is_ready = true;
        }
    }
    comes
}

impl Arrivals {
    // Those of a listening socket that is registered.
    fn of(alloc: Global, poll: mio::Poll, listener: TcpListener) -> Result<Self, NoMemory> {
        Ok(Arrivals {
            listener,
            poll,
            events: Events::with_capacity(alloc, MOST_WAITING)?,
            waiting: Vec::with_capacity(alloc, MOST_WAITING)?,
            next: LISTENER + 1,
            may_accept: true,
        })
    }

    /// Those of a listening socket that doesn't wait.
    pub(crate) fn new<R: Net>(
        alloc: Global,
        rt: &R,
        listener: TcpListener,
    ) -> Result<Self, EdgeFault> {
        let Ok((poll, listener)) = listen_by(rt, listener) else {
            return Err(EdgeFault::Failed);
        };
        Ok(Arrivals::of(alloc, poll, listener)?)
    }

    /// The listening socket.
    pub(crate) fn listener(&self) -> &TcpListener {
        &self.listener
    }

    // The oldest connection of which bytes are there.
    fn ready(&mut self) -> Option<net::TcpStream> {
        let at = self.waiting.iter().position(|one| one.is_ready)?;
        Some(net::TcpStream::from(self.waiting.remove(at).stream))
    }

    // Waits until the system tells of sockets; where one may come to the listening socket at once, it only asks.
    fn look(&mut self) -> io::Result<()> {
        let most = if self.may_accept {
            Some(Duration::from_secs(0))
        } else {
            None
        };
        self.poll.poll(&mut self.events, most)?;
        let comes = note(&self.events, &mut self.waiting);
        self.may_accept = self.may_accept || comes;
        Ok(())
    }

    // Has the next connection wait, in place of the oldest one where too many do.
    fn admit(&mut self) -> io::Result<()> {
        let stream = match self.listener.accept() {
            Ok((stream, _)) => stream,
            Err(error) if error.kind() == ErrorKind::WouldBlock => {
                self.may_accept = false;
                return Ok(());
            }
            Err(error) => return Err(error),
        };
        let number = self.next;
        self.next = number.checked_add(1).unwrap_or(LISTENER + 1);
        // Its calls wait, and none is made before it is given.
        let mut stream = TcpStream::from_std(stream);
        self.poll
            .registry()
            .register(&mut stream, Token(number), Interest::READABLE)?;
        if self.waiting.len() >= MOST_WAITING {
            drop(self.waiting.remove(0));
        }
        // There is room for it; else it is closed at once.
        drop(
            self.waiting.push(Arrival {
                number,
                stream,
                is_ready: false,
            }),
        );
        Ok(())
    }

    /// The next connection of which bytes are there. It waits as long as it takes.
    pub(crate) fn next(&mut self) -> io::Result<net::TcpStream> {
        'tries: for _ in 0..MOST_TRIES {
            if let Some(stream) = self.ready() {
                return Ok(stream);
            }
            self.look()?;
            // Who has sent something is given before others come, so that it isn't closed for them.
            if self.may_accept && !self.waiting.iter().any(|one| one.is_ready) {
                self.admit()?;
            }
        }
        Err(io::Error::from(ErrorKind::TimedOut))
    }
}

ghost use Rattle.std.specs.Prelude.{◌≡◌, None, Some, ⊤, IfOk};
ghost use Rattle.gw_net.specs.Real.{SocketState, after_call};

use crate::arrivals::Arrivals;
use crate::fault_count::FaultCount;
use crate::streams::socket_of;
use crate::tcp_link::TcpLink;
use gw_edge::Acceptor;
use gw_link::Failed;
use gw_text::Socket;
use std::io;
use std::io::ErrorKind;
use std::marker::Model;
use std::net::{TcpListener, TcpStream};
use std::rt::Clock;
use std::sync::Arc;
use std::thread::sleep;
use std::time::Duration;

// How many milliseconds pass before an acceptor answers that it can't accept.
const PAUSE: u64 = 100;

// Which connections are given.
#[derive(Drop)]
enum Incoming {
    // Each one, as soon as it comes.
    All(Arc<TcpListener>),
    // Those of which bytes are there.
    Heard(Arrivals),
}

impl Incoming {
    fn next(&mut self) -> io::Result<TcpStream> {
        match self {
            Incoming::All(listener) => Ok(listener.accept()?.0),
            Incoming::Heard(arrivals) => arrivals.next(),
        }
    }
}

/// Accepts connections of a listening socket, which others may share. It waits for the next one for as long as it takes. Where the
/// system gives none, as when descriptors have run out, it answers after a tenth of a second, so that a loop that accepts again
/// takes no processor for itself.
#[derive(Drop)]
pub struct TcpAcceptor<R: Clock + Clone + Drop> {
    incoming: Incoming,
    rt: R,
    faults: FaultCount,
}

impl<R: Clock + Clone + Drop> Model for TcpAcceptor<R> {
    ghost use Rattle.gw_net.specs.Real.{SocketState};

    ghost Value = { SocketState };

    ghost view = { λ a. record { faults = a.faults } };
}

impl<R: Clock + Clone + Drop> TcpAcceptor<R> {
    /// An acceptor of a listener that blocks.
    pub fn new(listener: Arc<TcpListener>, rt: R) -> Self
        ensures { result ≡ record { faults = 0 } }
    {
        TcpAcceptor {
            incoming: Incoming::All(listener),
            rt,
            faults: FaultCount::new(),
        }
    }

    /// An acceptor whose connections are brief, and are given when bytes of them are there.
    pub(crate) fn brief(arrivals: Arrivals, rt: R) -> Self
        ensures { result ≡ record { faults = 0 } }
    {
        TcpAcceptor {
            incoming: Incoming::Heard(arrivals),
            rt,
            faults: FaultCount::new(),
        }
    }

    /// Where it listens: the system chooses a port where 0 was bound. None where the system doesn't tell.
    pub fn socket(&self) -> Option<Socket> {
        let listener = match &self.incoming {
            Incoming::All(listener) => &**listener,
            Incoming::Heard(arrivals) => arrivals.listener(),
        };
        socket_of(listener.local_addr().ok()?)
    }

    /// How many calls have failed.
    pub fn faults(&self) -> u64
        ensures { result ≡ self.now.faults }
    {
        self.faults.get()
    }

    // A link over a stream that was given.
    fn link_over(&self, stream: TcpStream) -> io::Result<TcpLink<R>>
        ensures { IfOk result (λ link. link ≡ record { faults = 0 }) }
    {
        match &self.incoming {
            Incoming::All(_) => TcpLink::new(stream),
            Incoming::Heard(_) => match self.rt.clone() {
                Ok(theirs) => TcpLink::brief(stream, theirs),
                Err(_) => Err(io::Error::from(ErrorKind::OutOfMemory)),
            },
        }
    }
}

impl<R: Clock + Clone + Drop> Acceptor for TcpAcceptor<R> {
    type Conn = TcpLink<R>;

    ghost coming = { λ _. None };

    ghost closed = { λ _. None };

    ghost has_room = { λ _. ⊤ };

    ghost faults = { λ a. a.faults };

    fn accept(&mut self) -> Result<Option<TcpLink<R>>, Failed>
        // It never says that no link is left.
        ensures some { IfOk result (λ link. link ≡ Some (record { faults = 0 })) }
        ensures counted { self.new.faults ≡ after_call result self.old.faults }
    {
        let Ok(stream) = self.incoming.next() else {
            sleep(&self.rt, Duration::from_millis(PAUSE));
            return Err(self.faults.fail());
        };
        match self.link_over(stream) {
            Ok(link) => Ok(Some(link)),
            Err(_) => Err(self.faults.fail()),
        }
    }

    fn close(&mut self, link: TcpLink<R>)
        ensures same { self.new ≡ self.old }
    {
        link.end();
    }
}

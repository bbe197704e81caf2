ghost use Rattle.std.specs.Prelude.{◌≡◌, None, IfOk, OnOk, vec_len};
ghost use Rattle.gw_net.specs.Real.{SocketState, UpstreamState, after_call, after_edge_call};

use crate::arrivals::Arrivals;
use crate::fault_count::FaultCount;
use crate::mio_ring::MioRing;
use crate::streams::address;
use crate::tcp_acceptor::TcpAcceptor;
use crate::tcp_upstream::TcpUpstream;
use gw_edge::{Edge, EdgeFault};
use gw_link::Failed;
use gw_polling::PollEdge;
use gw_text::{NoMemory, Socket};
use std::alloc::Global;
use std::io;
use std::marker::Model;
use std::net::{Net, TcpListener, TcpStream};
use std::rt::Clock;
use std::sync::Arc;

/// Binds sockets of the loopback network, 127.0.0.0/8, and no others. Its upstreams reach backends anywhere. What `bind` binds first is
/// the admin endpoint's, whose one worker serves each client: there a connection is given when bytes of it are there, and is brief.
#[derive(Drop)]
pub struct LoopEdge<R: Net + Clock + Clone + Drop> {
    rt: R,
    has_bound: bool,
    faults: FaultCount,
}

impl<R: Net + Clock + Clone + Drop> Model for LoopEdge<R> {
    ghost use Rattle.gw_net.specs.Real.{SocketState};

    ghost Value = { SocketState };

    ghost view = { λ e. record { faults = e.faults } };
}

impl<R: Net<Listener = TcpListener, Stream = TcpStream> + Clock + Clone + Drop> LoopEdge<R> {
    /// An edge that has bound nothing.
    pub fn new(rt: R) -> Self
        ensures { result ≡ record { faults = 0 } }
    {
        LoopEdge {
            rt,
            has_bound: false,
            faults: FaultCount::new(),
        }
    }

    /// How many calls have failed.
    pub fn faults(&self) -> u64
        ensures { result ≡ self.now.faults }
    {
        self.faults.get()
    }
}

// The listening socket, with as long a queue as the system allows. Its calls don't wait.
fn listen<R: Net>(rt: &R, at: Socket) -> io::Result<TcpListener>
    ensures loopback { OnOk result (at.a ≡ 127) }
{
    if at.a != 127 {
        return Err(io::Error::from(io::ErrorKind::AddrNotAvailable));
    }
    let listener = mio::net::TcpListener::bind(rt, address(at))?;
    Ok(TcpListener::from(listener))
}

// The same, but its calls wait.
fn listen_and_wait<R: Net>(rt: &R, at: Socket) -> io::Result<TcpListener>
    ensures loopback { OnOk result (at.a ≡ 127) }
{
    let listener = listen(rt, at)?;
    listener.set_nonblocking(false)?;
    Ok(listener)
}

// So many acceptors of the listener.
fn acceptors_of<R: Clock + Clone + Drop>(
    alloc: Global,
    rt: &R,
    listener: TcpListener,
    places: usize,
) -> Result<Vec<TcpAcceptor<R>>, NoMemory>
    ensures { IfOk result (λ acceptors. vec_len acceptors ≡ places) }
{
    let listener = Arc::new(alloc, listener)?;
    let mut acceptors = Vec::with_capacity(alloc, places)?;
    'places: for _place in 0..places {
        let theirs = rt.clone()?;
        acceptors.push_reserved(TcpAcceptor::new(Arc::try_clone(&listener)?, theirs));
    }
    Ok(acceptors)
}

// So many acceptors of brief connections, each with a handle on the listener of its own.
fn brief_acceptors_of<R: Net + Clock + Clone + Drop>(
    alloc: Global,
    rt: &R,
    listener: TcpListener,
    places: usize,
) -> Result<Vec<TcpAcceptor<R>>, EdgeFault>
    ensures { IfOk result (λ acceptors. vec_len acceptors ≡ places) }
{
    let mut acceptors = Vec::with_capacity(alloc, places)?;
    'places: for _place in 0..places {
        let Ok(own) = listener.try_clone() else {
            return Err(EdgeFault::Failed);
        };
        let arrivals = Arrivals::new(alloc, rt, own)?;
        acceptors.push_reserved(TcpAcceptor::brief(arrivals, rt.clone()?));
    }
    Ok(acceptors)
}

// Binds the socket, and gives so many acceptors of brief connections.
fn bind_brief<R: Net + Clock + Clone + Drop>(
    alloc: Global,
    rt: &R,
    at: Socket,
    places: usize,
) -> Result<Vec<TcpAcceptor<R>>, EdgeFault>
    ensures places { IfOk result (λ acceptors. vec_len acceptors ≡ places) }
    ensures loopback { OnOk result (at.a ≡ 127) }
{
    match listen(rt, at) {
        Ok(listener) => brief_acceptors_of(alloc, rt, listener, places),
        Err(_) => Err(EdgeFault::Failed),
    }
}

// Binds the socket, and gives so many acceptors of all connections.
fn bind_all<R: Net + Clock + Clone + Drop>(
    alloc: Global,
    rt: &R,
    at: Socket,
    places: usize,
) -> Result<Vec<TcpAcceptor<R>>, EdgeFault>
    ensures places { IfOk result (λ acceptors. vec_len acceptors ≡ places) }
    ensures loopback { OnOk result (at.a ≡ 127) }
{
    match listen_and_wait(rt, at) {
        Ok(listener) => Ok(acceptors_of(alloc, rt, listener, places)?),
        Err(_) => Err(EdgeFault::Failed),
    }
}

impl<R: Net<Listener = TcpListener, Stream = TcpStream> + Clock + Clone + Drop> Edge
    for LoopEdge<R> {
    type Accept = TcpAcceptor<R>;

    type Up = TcpUpstream<R>;

    ghost faults = { λ e. e.faults };

    fn bind(
        &mut self,
        alloc: Global,
        at: Socket,
        places: usize,
    ) -> Result<Vec<TcpAcceptor<R>>, EdgeFault>
        ensures places { IfOk result (λ acceptors. vec_len acceptors ≡ places) }
        ensures loopback { OnOk result (at.a ≡ 127) }
        ensures counted { self.new.faults ≡ after_edge_call result self.old.faults }
    {
        let bound = if self.has_bound {
            bind_all(alloc, &self.rt, at, places)
        } else {
            bind_brief(alloc, &self.rt, at, places)
        };
        self.has_bound = true;
        match bound {
            Err(EdgeFault::Failed) => Err(self.faults.fail().into()),
            answer => answer,
        }
    }

    fn upstream(&mut self) -> Result<TcpUpstream<R>, Failed>
        ensures fresh { IfOk result (λ up. up ≡ record { at = None; faults = 0 }) }
        ensures counted { self.new.faults ≡ after_call result self.old.faults }
    {
        match self.rt.clone() {
            Ok(theirs) => Ok(TcpUpstream::new(theirs)),
            Err(_) => Err(self.faults.fail()),
        }
    }
}

// So many rings over the socket, each with a handle on it of its own.
fn rings_of<R: Net + Clock + Clone + Drop>(
    alloc: Global,
    rt: &R,
    listener: TcpListener,
    places: usize,
) -> Result<Vec<MioRing<R>>, EdgeFault>
    ensures { IfOk result (λ rings. vec_len rings ≡ places) }
{
    let mut rings = Vec::with_capacity(alloc, places)?;
    'places: for _place in 0..places {
        let Ok(own) = listener.try_clone() else {
            return Err(EdgeFault::Failed);
        };
        let own = mio::net::TcpListener::from_std(own);
        rings.push_reserved(MioRing::new(alloc, rt.clone()?, own)?);
    }
    Ok(rings)
}

impl<R: Net<Listener = TcpListener, Stream = TcpStream> + Clock + Clone + Drop> PollEdge
    for LoopEdge<R> {
    type Ring = MioRing<R>;

    fn ring(
        &mut self,
        alloc: Global,
        at: Socket,
        places: usize,
    ) -> Result<Vec<MioRing<R>>, EdgeFault>
        ensures places { IfOk result (λ rings. vec_len rings ≡ places) }
        ensures loopback { OnOk result (at.a ≡ 127) }
        ensures counted { self.new.faults ≡ after_edge_call result self.old.faults }
    {
        let Ok(listener) = listen(&self.rt, at) else {
            return Err(self.faults.fail().into());
        };
        match rings_of(alloc, &self.rt, listener, places) {
            Err(EdgeFault::Failed) => Err(self.faults.fail().into()),
            answer => answer,
        }
    }
}

ghost use Rattle.std.specs.Prelude.{◌≡◌, ◌≤◌, ◌+◌, ◌++◌, ◌∷◌, ◌<◌, [], false, None, Some, IfOk, IfSome, OnOk, OnErr};
ghost use Rattle.std.specs.List.{range_with_len};
ghost use Rattle.std.specs.Option.{option_to_list};
ghost use Rattle.futures.specs.Task.{Keeps as KeepsTask};
ghost use Rattle.gw_link.specs.Faults.{HasRisen, last_count, one_more};
ghost use Rattle.gw_polling.specs.Rings.{is_among, without, new_number, woken_number};
ghost use Rattle.gw_net.specs.Real.{RingState};

use crate::endings::Endings;
use crate::fault_count::FaultCount;
use crate::mio_link::MioLink;
use crate::mio_upstream::MioUpstream;
use crate::streams::socket_of;
use crate::watch::Watch;
use futures::task::Context;
use gw_edge::EdgeFault;
use gw_polling::{Numbers, Ring, RingFault, Woken};
use gw_text::{NoMemory, Socket};
use mio::net::{TcpListener, TcpStream};
use mio::{Events, Interest, Registry, Token};
use std::alloc::Global;
use std::io;
use std::io::ErrorKind;
use std::marker::Model;
use std::net::Net;
use std::rt::Clock;
use std::sync::{Arc, Wait};
use std::time::{Duration, Instant};

// The most sockets of which the system tells at once.
const MOST_EVENTS: usize = 256;

// The token of the listening socket. A connection's sockets have its number and one.
const LISTENER: usize = 0;

// How many milliseconds pass before a ring tries again to accept, where the system gave no connection, and before it looks at those that
// end.
const PAUSE: u64 = 100;

// How many seconds pass before all open connections are named again, so that each gives up by itself what isn't ready for too long.
const ROUND: u64 = 5;

// How often a wait that nothing came of is begun again.
const MOST_TRIES: u64 = u64::MAX;

/// The connections of a listening socket, which others may share, and where one worker waits until some of them are ready. Each connection
/// is named once when it came, then when the system tells that one of its sockets is ready, and every few seconds.
#[derive(Drop)]
pub struct MioRing<R: Net + Clock + Clone + Drop> {
    rt: R,
    listener: TcpListener,
    poll: mio::Poll,
    registry: Arc<Registry>,
    events: Events,
    named: Vec<u64>,
    open_numbers: Vec<u64>,
    next: u64,
    may_accept: bool,
    // A connection was taken since the system was asked.
    has_taken: bool,
    is_paused: bool,
    // When all that were open were named.
    round: Option<Instant>,
    endings: Endings,
    faults: FaultCount,
}

impl<R: Net + Clock + Clone + Drop> Model for MioRing<R> {
    ghost use Rattle.gw_net.specs.Real.{RingState};

    ghost Value = { RingState };

    ghost view = { λ r. record { open_numbers = r.open_numbers.items; next = r.next; faults = r.faults } };
}

// What waits for the listening socket, and a handle on its registry.
fn listen_by<R: Net>(rt: &R, listener: &mut TcpListener) -> io::Result<(mio::Poll, Registry)> {
    let poll = mio::Poll::new(rt)?;
    let registry = poll.registry().try_clone()?;
    registry.register(listener, Token(LISTENER), Interest::READABLE)?;
    Ok((poll, registry))
}

type Came<R> = Woken<MioLink<R>, MioUpstream<R>>;

impl<R: Net + Clock + Clone + Drop> MioRing<R> {
    // A ring of these parts.
    fn of(
        alloc: Global,
        rt: R,
        listener: TcpListener,
        poll: mio::Poll,
        registry: Registry,
    ) -> Result<Self, NoMemory>
        ensures { IfOk result (λ ring. ring ≡ record { open_numbers = []; next = 0; faults = 0 }) }
    {
        Ok(MioRing {
            rt,
            listener,
            poll,
            registry: Arc::new(alloc, registry)?,
            events: Events::with_capacity(alloc, MOST_EVENTS)?,
            named: Vec::new(alloc),
            open_numbers: Vec::new(alloc),
            next: 0,
            may_accept: true,
            has_taken: false,
            is_paused: false,
            round: None,
            endings: Endings::new(alloc)?,
            faults: FaultCount::new(),
        })
    }

    /// A ring over a listening socket that doesn't wait.
    pub(crate) fn new(alloc: Global, rt: R, listener: TcpListener) -> Result<Self, EdgeFault>
        ensures { IfOk result (λ ring. ring ≡ record { open_numbers = []; next = 0; faults = 0 }) }
    {
        let mut listener = listener;
        let Ok((poll, registry)) = listen_by(&rt, &mut listener) else {
            return Err(EdgeFault::Failed);
        };
        Ok(MioRing::of(alloc, rt, listener, poll, registry)?)
    }

    /// Where it listens: the system chooses a port where 0 was bound. None where the system doesn't tell.
    pub fn socket(&self) -> Option<Socket> {
        socket_of(self.listener.local_addr().ok()?)
    }

    /// How many waits have failed.
    pub fn faults(&self) -> u64
        ensures { result ≡ self.now.faults }
    {
        self.faults.get()
    }

    /// The numbers of the open connections. Numbers are given from 0 on.
    pub fn open_numbers(&self) -> &[u64]
        ensures { result.now ≡ self.now.open_numbers }
    {
        self.open_numbers.as_slice()
    }

    fn fail(&mut self) -> RingFault
        ensures fault { result ≡ RingFault.Failed }
        ensures after { self.new ≡ record self.old { faults = one_more self.old.faults } }
    {
        self.faults.fail();
        RingFault::Failed
    }

    // Those that are to be named.
    fn name(&mut self, alloc: Global) -> Result<Numbers, NoMemory>
        ensures { self.new ≡ self.old }
    {
        let numbers = Numbers::of(alloc, self.named.as_slice())?;
        self.named.clear();
        Ok(numbers)
    }

    // Gives a stream its number.
    fn give(&mut self, stream: TcpStream) -> Result<Came<R>, NoMemory>
        requires { self.old.next < last_count }
        ensures number { IfOk result (λ woken. woken_number woken ≡ Some self.old.next) }
        ensures ok { OnOk result (self.new ≡ record { open_numbers = self.old.open_numbers ++ self.old.next ∷ []; next = self.old.next + 1; faults = self.old.faults }) }
        ensures err { OnErr result (self.new ≡ self.old) }
    {
        let token = Token(self.next as usize + 1);
        let link = MioLink::new(
            stream,
            Watch::new(self.rt.clone()?, self.registry.clone()?, token),
        );
        let up = MioUpstream::new(
            self.rt.clone()?,
            Watch::new(self.rt.clone()?, self.registry.clone()?, token),
        );
        self.named.push(self.next)?;
        self.open_numbers.push(self.next)?;
        let number = self.next;
        self.next += 1;
        self.has_taken = true;
        Ok(Woken::New(number, link, up))
    }
}

// Notes of which connections the system has told, and says whether one waits at the listening socket.
fn note(events: &Events, named: &mut Vec<u64>, endings: &mut Endings) -> Result<bool, NoMemory> {
    let mut waits = false;
    'events: for event in events {
        let Token(token) = event.token();
        if token == LISTENER {
            waits = true;
        } else if !endings.hear(token as u64 - 1) {
            named.push(token as u64 - 1)?;
        }
    }
    Ok(waits)
}

impl<R: Net + Clock + Clone + Drop> MioRing<R> {
    // The next stream, where one waits and may have a number. There is memory for its number then.
    fn next_stream(&mut self) -> Result<Option<TcpStream>, RingFault>
        ensures left { OnOk result (self.old.next < last_count) }
        ensures ok { OnOk result (self.new ≡ self.old) }
        ensures failed { result ≡ Err RingFault.Failed → self.new ≡ record self.old { faults = one_more self.old.faults } }
        ensures starved { result ≡ Err RingFault.NoMemory → self.new ≡ self.old }
    {
        if self.next == u64::MAX {
            return Err(self.fail());
        }
        if !self.may_accept {
            return Ok(None);
        }
        self.named.reserve(1)?;
        self.open_numbers.reserve(1)?;
        match self.listener.accept() {
            Ok((stream, _)) if stream.set_nodelay(true).is_ok() => Ok(Some(stream)),
            Err(error) if error.kind() == ErrorKind::WouldBlock => {
                self.may_accept = false;
                Ok(None)
            }
            _ => {
                self.may_accept = false;
                self.is_paused = true;
                Err(self.fail())
            }
        }
    }

    // How long the system may be waited for.
    fn most_wait(&self) -> Option<Duration> {
        if self.has_taken {
            return Some(Duration::from_millis(0));
        }
        if self.is_paused || !self.endings.is_empty() {
            return Some(Duration::from_millis(PAUSE));
        }
        if self.open_numbers.is_empty() {
            return None;
        }
        Some(Duration::from_secs(ROUND))
    }

    // Has all open connections named, where they weren't for a while.
    fn name_all(&mut self) -> Result<(), NoMemory>
        ensures { self.new ≡ self.old }
    {
        let Ok(now) = Instant::now(&self.rt) else {
            return Ok(());
        };
        let last = self.round.unwrap_or(now);
        if now.duration_since(last) < Duration::from_secs(ROUND) {
            self.round = Some(last);
            return Ok(());
        }
        self.round = Some(now);
        self.named.extend_from_slice(self.open_numbers.as_slice())
    }

    // Waits until the system tells of sockets.
    fn look(&mut self) -> Result<(), RingFault>
        ensures ok { OnOk result (self.new ≡ self.old) }
        ensures failed { result ≡ Err RingFault.Failed → self.new ≡ record self.old { faults = one_more self.old.faults } }
        ensures starved { result ≡ Err RingFault.NoMemory → self.new ≡ self.old }
    {
        let most = self.most_wait();
        if self.poll.poll(&mut self.events, most).is_err() {
            return Err(self.fail());
        }
        let noted = note(&self.events, &mut self.named, &mut self.endings);
        // Where memory was wanted, somebody may wait all the same, and who is open is named again soon.
        let waits = *noted.as_ref().unwrap_or(&true);
        self.may_accept = self.may_accept || waits || self.is_paused;
        self.has_taken = false;
        self.is_paused = false;
        self.endings.close_old(&self.rt);
        noted?;
        self.name_all()?;
        Ok(())
    }

    // Asks the system without a wait behind each connection that was taken, so that those who come hold up nobody who is open.
    fn look_between(&mut self) -> Result<(), RingFault>
        ensures ok { OnOk result (self.new ≡ self.old) }
        ensures failed { result ≡ Err RingFault.Failed → self.new ≡ record self.old { faults = one_more self.old.faults } }
        ensures starved { result ≡ Err RingFault.NoMemory → self.new ≡ self.old }
    {
        if self.has_taken {
            return self.look();
        }
        Ok(())
    }
}

impl<R: Net + Clock + Clone + Drop> Ring for MioRing<R> {
    type Link = MioLink<R>;

    type Up = MioUpstream<R>;

    ghost coming = { λ _. None };

    ghost open_numbers = { λ r. r.open_numbers };

    ghost given_numbers = { λ r. range_with_len 0 r.next };

    ghost faults = { λ r. r.faults };

    // It never says that all is done.
    fn wait<W: Wait>(
        &mut self,
        _rt: &W,
        alloc: Global,
        _cx: &mut Context<'_>,
    ) -> Result<Came<R>, RingFault>
        ensures opens { self.new.open_numbers ≡ self.old.open_numbers ++ option_to_list (new_number result) }
        ensures gives { range_with_len 0 self.new.next ≡ range_with_len 0 self.old.next ++ option_to_list (new_number result) }
        ensures once { IfSome (new_number result) (λ number. is_among number (range_with_len 0 self.old.next) ≡ false) }
        ensures undone { ¬ (result ≡ Ok Woken.Done) }
        ensures failed { result ≡ Err RingFault.Failed → HasRisen self.old.faults self.new.faults }
        ensures later { self.old.faults ≤ self.new.faults }
        ensures task { KeepsTask _cx.old _cx.new }
    {
        'tries: for _ in 0..MOST_TRIES {
            self.look_between()?;
            if !self.named.is_empty() {
                return Ok(Woken::Ready(self.name(alloc)?));
            }
            if let Some(stream) = self.next_stream()? {
                return Ok(self.give(stream)?);
            }
            self.look()?;
        }
        Err(self.fail())
    }

    fn close(&mut self, number: u64, link: MioLink<R>, up: MioUpstream<R>)
        ensures closes { self.new ≡ record self.old { open_numbers = without number self.old.open_numbers } }
        ensures unopened { is_among number self.old.open_numbers ≡ false → self.new ≡ self.old }
    {
        if self.open_numbers.contains(&number) {
            self.open_numbers.retain(|other| *other != number);
            drop(up);
            self.endings.begin(number, link, &self.rt);
        }
    }
}

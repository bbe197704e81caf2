//! Jobs that are made of what an edge gives.
ghost use Rattle.std.specs.Prelude.{◌≡◌, ◌+◌, ◌*◌, ◌<◌, ◌≤◌, length, vec_len, IfOk, IfErr, OnOk};
ghost use Rattle.gw_serve.specs.Serving.{AreOf, AreOf-prop, IsBindFault};

use crate::fault::ServeFault;
use crate::job::{AdminJob, Job, ProxyJob};
use crate::polled::PolledJob;
use futures::task::{Doorbell, Queue};
use gw_edge::{Acceptor, Edge, EdgeFault};
use gw_hub::{Hub, HubName};
use gw_link::{Clock, Upstream};
use gw_match::Tables;
use gw_poll::Crowd;
use gw_polling::{PollEdge, PollLink, PollUpstream, Ring};
use gw_snap::{Pass, Passes};
use gw_text::Socket;
use gw_worker::Worker;
use std::alloc::{AllocGlobal, Global};
use std::random::RandomSource;
use std::sync::{Arc, Wait};

/// Jobs that were made, and the passes that are left for more of them. All passes are of the opening that N names.
#[derive(Drop)]
pub(crate) struct Jobs<
    A: Acceptor,
    U: Upstream,
    K: PollLink,
    V: PollUpstream,
    G: Ring<Link = K, Up = V>,
    C: Clock + Drop,
    N: HubName,
    R: Wait + Drop,
> {
    alloc: Global,
    conns: Option<u32>,
    pub(crate) made: Vec<Job<A, U, K, V, G, C, N, R>>,
    pub(crate) passes: Passes<Tables>,
    ghost of: { AreOf N.book (N.doors, N.controller) passes } by { AreOf-prop N.book (N.doors, N.controller) passes },
}

impl<
    A: Acceptor,
    U: Upstream,
    K: PollLink,
    V: PollUpstream,
    G: Ring<Link = K, Up = V>,
    C: Clock + Drop,
    N: HubName,
    R: Wait + Drop,
> Jobs<A, U, K, V, G, C, N, R> {
    /// No jobs yet. Those that are made end after so many accepts.
    pub(crate) fn new(alloc: Global, conns: Option<u32>, passes: Passes<Tables>) -> Self
        requires { AreOf N.book (N.doors, N.controller) passes }
        ensures made { vec_len result.made ≡ 0 }
        ensures passes { result.passes ≡ passes }
    {
        Jobs {
            alloc,
            conns,
            made: Vec::new(alloc),
            passes,
        }
    }

    // The next of the passes.
    fn pass(&mut self) -> Pass<Tables>
        requires { 0 < length self.old.passes }
        ensures book { result.book ≡ N.book }
        ensures fixed { result.fixed ≡ (N.doors, N.controller) }
        ensures left { length self.old.passes ≡ length self.new.passes + 1 }
        ensures made { self.new.made ≡ self.old.made }
    {
        match self.passes.take() {
            Some(pass) => pass,
            None => unreachable!(),
        }
    }

    /// Binds the admin socket, and makes the job of its connections.
    pub(crate) fn admin<E: Edge<Accept = A, Up = U>>(
        &mut self,
        edge: &mut E,
        at: Socket,
        hub: Arc<Hub<N, R>>,
        clock: C,
    ) -> Result<(), ServeFault>
        requires { 0 < length self.old.passes }
        ensures made { OnOk result (vec_len self.new.made ≡ vec_len self.old.made + 1) }
        ensures left { OnOk result (length self.old.passes ≡ length self.new.passes + 1) }
        ensures fault { IfErr result (λ fault. IsBindFault fault (E.faults edge.old) (E.faults edge.new)) }
        ensures later { E.faults edge.old ≤ E.faults edge.new }
    {
        let mut acceptors = bind(edge, self.alloc, at, 1)?;
        let Some(accept) = acceptors.pop() else {
            unreachable!()
        };
        let pass = self.pass();
        self.made.push(Job::Admin(AdminJob {
            alloc: self.alloc,
            hub,
            pass,
            clock,
            accept,
            conns: self.conns,
        }))?;
        Ok(())
    }

    /// Binds the sockets of all doors, and makes the jobs of so many workers for each, whose connections are polled or not.
    #[tactic(auto, using(crate::proofs::Passing::door_fits, crate::proofs::Passing::one_door_more))]
    pub(crate) fn doors<E: PollEdge<Accept = A, Up = U, Ring = G>, S: RandomSource + AllocGlobal>(
        &mut self,
        rt: &S,
        edge: &mut E,
        sockets: &[Socket],
        workers: usize,
        polled: bool,
    ) -> Result<(), ServeFault>
        requires doors { length sockets.now ≡ length N.doors }
        requires passes { length self.old.passes ≡ workers * length sockets.now }
        ensures made { OnOk result (vec_len self.new.made ≡ vec_len self.old.made + workers * length sockets.now) }
        ensures fault { IfErr result (λ fault. IsBindFault fault (E.faults edge.old) (E.faults edge.new)) }
        ensures later { E.faults edge.old ≤ E.faults edge.new }
    {
        'doors: for door in 0..sockets.len() {
            if polled {
                self.polled_door(rt, edge, door, sockets[door], workers)?;
            } else {
                self.door(edge, door, sockets[door], workers)?;
            }
        }
        Ok(())
    }

    // Binds the socket of the door of this number, and makes the jobs of its workers.
    fn door<E: Edge<Accept = A, Up = U>>(
        &mut self,
        edge: &mut E,
        door: usize,
        at: Socket,
        workers: usize,
    ) -> Result<(), ServeFault>
        requires is_there { door < length N.doors }
        requires passes { workers ≤ length self.old.passes }
        ensures made { OnOk result (vec_len self.new.made ≡ vec_len self.old.made + workers) }
        ensures left { OnOk result (length self.old.passes ≡ length self.new.passes + workers) }
        ensures fault { IfErr result (λ fault. IsBindFault fault (E.faults edge.old) (E.faults edge.new)) }
        ensures later { E.faults edge.old ≤ E.faults edge.new }
    {
        let mut acceptors = bind(edge, self.alloc, at, workers)?;
        'workers: for _worker in 0..workers {
            let accept = acceptors.remove(0);
            self.worker(edge, door, accept)?;
        }
        Ok(())
    }

    // Binds the socket of the door of this number, and makes the jobs of its workers, whose connections are polled.
    fn polled_door<E: PollEdge<Accept = A, Up = U, Ring = G>, S: RandomSource + AllocGlobal>(
        &mut self,
        rt: &S,
        edge: &mut E,
        door: usize,
        at: Socket,
        workers: usize,
    ) -> Result<(), ServeFault>
        requires is_there { door < length N.doors }
        requires passes { workers ≤ length self.old.passes }
        ensures made { OnOk result (vec_len self.new.made ≡ vec_len self.old.made + workers) }
        ensures left { OnOk result (length self.old.passes ≡ length self.new.passes + workers) }
        ensures fault { IfErr result (λ fault. IsBindFault fault (E.faults edge.old) (E.faults edge.new)) }
        ensures later { E.faults edge.old ≤ E.faults edge.new }
    {
        let mut rings = rings_at(edge, self.alloc, at, workers)?;
        'workers: for _worker in 0..workers {
            let ring = rings.remove(0);
            self.polled_worker(rt, door, ring)?;
        }
        Ok(())
    }

    // Makes the job of a worker at the door of this number, to whom the ring gives connections.
    fn polled_worker<S: RandomSource + AllocGlobal>(
        &mut self,
        rt: &S,
        door: usize,
        ring: G,
    ) -> Result<(), ServeFault>
        requires is_there { door < length N.doors }
        requires passes { 0 < length self.old.passes }
        ensures made { OnOk result (vec_len self.new.made ≡ vec_len self.old.made + 1) }
        ensures left { OnOk result (length self.old.passes ≡ length self.new.passes + 1) }
        ensures fault { IfErr result (λ fault. fault ≡ ServeFault.NoMemory) }
    {
        let queue = queue_of(rt)?;
        let worker = Worker::new(self.alloc, self.pass());
        self.made.push(Job::Polled(PolledJob {
            alloc: self.alloc,
            crowd: Crowd::new(self.alloc, worker, door),
            ring,
            conns: self.conns,
            queue,
        }))?;
        Ok(())
    }

    // Makes the job of a worker at the door of this number.
    fn worker<E: Edge<Accept = A, Up = U>>(
        &mut self,
        edge: &mut E,
        door: usize,
        accept: A,
    ) -> Result<(), ServeFault>
        requires is_there { door < length N.doors }
        requires passes { 0 < length self.old.passes }
        ensures made { OnOk result (vec_len self.new.made ≡ vec_len self.old.made + 1) }
        ensures left { OnOk result (length self.old.passes ≡ length self.new.passes + 1) }
        ensures fault { IfErr result (λ fault. IsBindFault fault (E.faults edge.old) (E.faults edge.new)) }
        ensures later { E.faults edge.old ≤ E.faults edge.new }
    {
        let Ok(up) = edge.upstream() else {
            return Err(ServeFault::Bind);
        };
        let worker = Worker::new(self.alloc, self.pass());
        self.made.push(Job::Proxy(ProxyJob {
            alloc: self.alloc,
            worker,
            door,
            accept,
            up,
            conns: self.conns,
        }))?;
        Ok(())
    }
}

// So many rings that share the socket.
fn rings_at<E: PollEdge>(
    edge: &mut E,
    alloc: Global,
    at: Socket,
    places: usize,
) -> Result<Vec<E::Ring>, ServeFault>
    ensures places { IfOk result (λ rings. vec_len rings ≡ places) }
    ensures fault { IfErr result (λ fault. IsBindFault fault (E.faults edge.old) (E.faults edge.new)) }
    ensures later { E.faults edge.old ≤ E.faults edge.new }
{
    match edge.ring(alloc, at, places) {
        Ok(rings) => Ok(rings),
        Err(EdgeFault::Failed) => Err(ServeFault::Bind),
        Err(EdgeFault::NoMemory) => Err(ServeFault::NoMemory),
    }
}

// A queue with one task that is to run. The system may refuse the random bytes of its name, which is told as want of memory.
fn queue_of<S: RandomSource + AllocGlobal>(rt: &S) -> Result<Queue, ServeFault>
    ensures { IfErr result (λ fault. fault ≡ ServeFault.NoMemory) }
{
    let Ok(queue) = Queue::new(rt, Doorbell::parking()) else {
        return Err(ServeFault::NoMemory);
    };
    let Ok(task) = queue.add() else {
        return Err(ServeFault::NoMemory);
    };
    task.schedule();
    Ok(queue)
}

// So many acceptors of the socket.
fn bind<E: Edge>(
    edge: &mut E,
    alloc: Global,
    at: Socket,
    places: usize,
) -> Result<Vec<E::Accept>, ServeFault>
    ensures places { IfOk result (λ acceptors. vec_len acceptors ≡ places) }
    ensures fault { IfErr result (λ fault. IsBindFault fault (E.faults edge.old) (E.faults edge.new)) }
    ensures later { E.faults edge.old ≤ E.faults edge.new }
{
    match edge.bind(alloc, at, places) {
        Ok(acceptors) => Ok(acceptors),
        Err(EdgeFault::Failed) => Err(ServeFault::Bind),
        Err(EdgeFault::NoMemory) => Err(ServeFault::NoMemory),
    }
}

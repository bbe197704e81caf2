//! Who opens a controller, and starts the jobs round it.
ghost use Rattle.std.specs.Prelude.{◌≡◌, ◌+◌, ◌*◌, ◌<◌, ◌≤◌, length, vec_len, IfOk, IfErr, OnOk, OnErr};
ghost use Rattle.gw_link.specs.Faults.{HasRisen};
ghost use Rattle.gw_link.specs.Pieces.{Takes, TakesPart};
ghost use Rattle.gw_serve.specs.Serving.{AreOf, IsRunFault, IsStartFault, Leaves, job_count, most_workers, ready_line};

use crate::fault::ServeFault;
use crate::jobs::Jobs;
use gw_edge::{Acceptor, Crew, Edge, EdgeFault, Work, start};
use gw_hub::{Controller, Hub, HubName};
use gw_link::{Clock, Link, Sink, Upstream, write_all};
use gw_match::Tables;
use gw_polling::{PollEdge, PollLink, PollUpstream, Ring};
use gw_snap::{Passes, SnapFaults};
use gw_text::{Door, Doors, NoMemory, Socket, Text};
use std::alloc::{AllocGlobal, Global};
use std::marker::Brand;
use std::random::RandomSource;
use std::sync::{Arc, Wait};
use std::thread::Threads;

/// What is written once all sockets are bound.
pub const READY: &[u8] = b"{\"ready\":true}\n";

/// What is served, and by whom.
#[derive(Drop)]
pub struct Service {
    /// The name by which a GatewayClass chooses this controller.
    pub controller: Text,
    pub doors: Doors,
    /// Where the admin endpoint is.
    pub admin: Socket,
    /// How many workers each door has.
    pub workers: usize,
    /// After how many accepts a job ends. None: it doesn't end.
    pub conns: Option<u32>,
    /// Whether the connections of the doors are polled, so that each worker serves many at once.
    pub polled: bool,
}

// Where connections come, how many workers each door has, after how many accepts a job ends, and whether the connections are polled.
#[derive(Drop)]
struct Sockets {
    admin: Socket,
    doors: Vec<Socket>,
    workers: usize,
    conns: Option<u32>,
    polled: bool,
}

/// Serves the admin endpoint and the connections of all doors: opens a controller, binds the sockets, says that it is ready, starts
/// a job for the admin endpoint and one for each worker of each door, and waits for them.
pub fn serve<
    L: Link + Send + 'static,
    A: Acceptor<Conn = L> + Send + 'static,
    U: Upstream + Send + 'static,
    P: PollLink + Send + 'static,
    V: PollUpstream + Send + 'static,
    G: Ring<Link = P, Up = V> + Send + 'static,
    E: PollEdge<Accept = A, Up = U, Ring = G>,
    W: Crew,
    C: Clock + Drop + Send + 'static,
    K: Sink,
    R: Wait + Threads + RandomSource + AllocGlobal + Clone + Drop + Send + Sync + 'static,
>(
    rt: &R,
    alloc: Global,
    service: Service,
    sink: &mut K,
    clock: C,
    edge: &mut E,
    crew: &mut W,
    snap: &mut SnapFaults,
) -> Result<(), ServeFault>
    requires few { service.workers * length service.doors ≤ most_workers }
    ensures ready { OnOk result (Takes (K.written sink.old) ready_line (K.written sink.new)) }
    ensures started { OnOk result (W.started crew.new ≡ W.started crew.old + job_count service.workers service.doors) }
    ensures ended { OnOk result (W.ended crew.new ≡ W.started crew.new) }

    // How far it came.
    ensures leaves { IfErr result (λ fault. Leaves fault (job_count service.workers service.doors)
        (K.written sink.old) (K.written sink.new) (W.started crew.old) (W.started crew.new)) }

    // Each fault has its cause.
    ensures place { result ≡ Err ServeFault.Place → HasRisen snap.old.places snap.new.places }
    ensures bind { result ≡ Err ServeFault.Bind → HasRisen (E.faults edge.old) (E.faults edge.new) }
    ensures write { result ≡ Err ServeFault.Write → HasRisen (K.faults sink.old) (K.faults sink.new) }
    ensures start { result ≡ Err ServeFault.Start → HasRisen (W.faults crew.old) (W.faults crew.new) }

    ensures places { snap.old.places ≤ snap.new.places }
    ensures uncounted { OnOk result (snap.new ≡ snap.old) }
    ensures ahead { snap.new.ahead ≡ snap.old.ahead }
    ensures edge_later { E.faults edge.old ≤ E.faults edge.new }
    ensures sink_later { K.faults sink.old ≤ K.faults sink.new }
    ensures crew_later { W.faults crew.old ≤ W.faults crew.new }
{
    let Service {
        controller,
        doors,
        admin,
        workers,
        conns,
        polled,
    } = service;
    let sockets = Sockets {
        admin,
        doors: sockets_of(alloc, doors.doors())?,
        workers,
        conns,
        polled,
    };
    let places = 1 + workers * doors.doors().len();
    let theirs = rt.clone()?;
    let (controller, passes) = Controller::open(alloc, theirs, snap, doors, controller, places)?;
    serve_opened::<L, A, U, P, V, G, E, W, C, K, Brand, R>(
        rt, alloc, controller, passes, sockets, sink, clock, edge, crew,
    )
}

// The sockets of the doors.
fn sockets_of(alloc: Global, doors: &[Door]) -> Result<Vec<Socket>, NoMemory>
    ensures { IfOk result (λ sockets. vec_len sockets ≡ length doors.now) }
{
    let mut sockets = Vec::with_capacity(alloc, doors.len())?;
    'doors: for door in doors {
        sockets.push_reserved(door.at);
    }
    Ok(sockets)
}

// Serves with the controller and the passes of the opening that N names.
fn serve_opened<
    L: Link + Send + 'static,
    A: Acceptor<Conn = L> + Send + 'static,
    U: Upstream + Send + 'static,
    P: PollLink + Send + 'static,
    V: PollUpstream + Send + 'static,
    G: Ring<Link = P, Up = V> + Send + 'static,
    E: PollEdge<Accept = A, Up = U, Ring = G>,
    W: Crew,
    C: Clock + Drop + Send + 'static,
    K: Sink,
    N: HubName + Send + Sync + 'static,
    R: Wait + Threads + RandomSource + AllocGlobal + Clone + Drop + Send + Sync + 'static,
>(
    rt: &R,
    alloc: Global,
    controller: Controller<R>,
    passes: Passes<Tables>,
    sockets: Sockets,
    sink: &mut K,
    clock: C,
    edge: &mut E,
    crew: &mut W,
) -> Result<(), ServeFault>
    requires book { controller.book ≡ N.book }
    requires doors { controller.doors ≡ N.doors }
    requires controller { controller.controller ≡ N.controller }
    requires of { AreOf N.book (N.doors, N.controller) passes }
    requires sockets { vec_len sockets.doors ≡ length N.doors }
    requires passes { length passes ≡ job_count sockets.workers N.doors }
    ensures ready { OnOk result (Takes (K.written sink.old) ready_line (K.written sink.new)) }
    ensures started { OnOk result (W.started crew.new ≡ W.started crew.old + job_count sockets.workers N.doors) }
    ensures ended { OnOk result (W.ended crew.new ≡ W.started crew.new) }
    ensures leaves { IfErr result (λ fault. Leaves fault (job_count sockets.workers N.doors)
        (K.written sink.old) (K.written sink.new) (W.started crew.old) (W.started crew.new)) }
    ensures place { result ≡ Err ServeFault.Place → ⊥ }
    ensures bind { result ≡ Err ServeFault.Bind → HasRisen (E.faults edge.old) (E.faults edge.new) }
    ensures write { result ≡ Err ServeFault.Write → HasRisen (K.faults sink.old) (K.faults sink.new) }
    ensures start { result ≡ Err ServeFault.Start → HasRisen (W.faults crew.old) (W.faults crew.new) }
    ensures edge_later { E.faults edge.old ≤ E.faults edge.new }
    ensures sink_later { K.faults sink.old ≤ K.faults sink.new }
    ensures crew_later { W.faults crew.old ≤ W.faults crew.new }
{
    let hub: Arc<Hub<N, R>> = Arc::new(alloc, Hub::new(controller))?;
    let theirs = hub.clone()?;
    let mut jobs: Jobs<A, U, P, V, G, C, N, R> = Jobs::new(alloc, sockets.conns, passes);
    jobs.admin(edge, sockets.admin, theirs, clock)?;
    jobs.doors(
        rt,
        edge,
        sockets.doors.as_slice(),
        sockets.workers,
        sockets.polled,
    )?;
    let ended = run_all(rt, sink, crew, jobs.made);
    // Without the hub no reading is taken, so it stays until all jobs have ended.
    drop(hub);
    ended
}

// Says that it is ready, starts the jobs, and waits for them.
#[tactic(auto, using(crate::proofs::Leaving::cut_short, crate::proofs::Leaving::run_fault))]
fn run_all<
    W: Crew,
    K: Sink,
    R: Wait + Threads + Clone + Drop + Send + Sync + 'static,
    J: Work + Drop + Send + 'static,
>(rt: &R, sink: &mut K, crew: &mut W, jobs: Vec<J>) -> Result<(), ServeFault>
    ensures ready { OnOk result (Takes (K.written sink.old) ready_line (K.written sink.new)) }
    ensures started { OnOk result (W.started crew.new ≡ W.started crew.old + vec_len jobs) }
    ensures ended { OnOk result (W.ended crew.new ≡ W.started crew.new) }
    ensures leaves { IfErr result (λ fault. Leaves fault (vec_len jobs) (K.written sink.old) (K.written sink.new) (W.started crew.old) (W.started crew.new)) }
    ensures fault { IfErr result (λ fault. IsRunFault fault (K.faults sink.old) (K.faults sink.new) (W.faults crew.old) (W.faults crew.new)) }
    ensures sink_later { K.faults sink.old ≤ K.faults sink.new }
    ensures crew_later { W.faults crew.old ≤ W.faults crew.new }
{
    say_ready(sink)?;
    start_all(rt, crew, jobs)?;
    crew.finish(rt);
    Ok(())
}

fn say_ready<K: Sink>(sink: &mut K) -> Result<(), ServeFault>
    ensures ready { OnOk result (Takes (K.written sink.old) ready_line (K.written sink.new)) }
    ensures part { OnErr result (TakesPart (K.written sink.old) ready_line (K.written sink.new)) }
    ensures fault { IfErr result (λ fault. fault ≡ ServeFault.Write) }
    ensures failed { OnErr result (HasRisen (K.faults sink.old) (K.faults sink.new)) }
    ensures later { K.faults sink.old ≤ K.faults sink.new }
{
    match write_all(sink, READY) {
        Ok(()) => Ok(()),
        Err(_) => Err(ServeFault::Write),
    }
}

// Starts the jobs, one after the other.
fn start_all<
    W: Crew,
    R: Wait + Threads + Clone + Drop + Send + Sync + 'static,
    J: Work + Drop + Send + 'static,
>(rt: &R, crew: &mut W, mut jobs: Vec<J>) -> Result<(), ServeFault>
    ensures all { OnOk result (W.started crew.new ≡ W.started crew.old + vec_len jobs) }
    ensures fewer { OnErr result (W.started crew.new < W.started crew.old + vec_len jobs) }
    ensures fault { IfErr result (λ fault. IsStartFault fault (W.faults crew.old) (W.faults crew.new)) }
    ensures started { W.started crew.old ≤ W.started crew.new }
    ensures later { W.faults crew.old ≤ W.faults crew.new }
{
    let count = jobs.len();
    'jobs: for _job in 0..count {
        match start(crew, rt, jobs.remove(0)) {
            Ok(()) => {}
            Err(EdgeFault::Failed) => return Err(ServeFault::Start),
            Err(EdgeFault::NoMemory) => return Err(ServeFault::NoMemory),
        }
    }
    Ok(())
}

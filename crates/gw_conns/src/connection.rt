//! One connection of a client.
ghost use Rattle.std.specs.Prelude.{◌≡◌, ◌<◌, ◌++◌, ◌==◌, ℕ, List, [], false, length, Ok, Err, Some, IfOk, OnOk};
ghost use Rattle.std.specs.List.{concat};
ghost use Rattle.gw_link.specs.Upstreams.{Becomes, Refuses};
ghost use Rattle.gw_poll.specs.Courses.{IsIdle};
ghost use Rattle.gw_polling.specs.PollMemory.{first_poll, has_marks};
ghost use Rattle.gw_snap.specs.Lists.{BeginsWith};
ghost use Rattle.gw_worker.specs.Conns.{IsServing, StandsFor};
ghost use Rattle.gw_worker.specs.Flows.{Served as IsServed, outside};
ghost use Rattle.gw_worker.specs.Stays.{PassStays};
ghost use Rattle.gw_worker.specs.Workers.{IsAt};
ghost use Rattle.gw_worker.specs.model.Sessions.{Part, Place};
ghost use Rattle.gw_conns.specs.Standing.{IsReady, IsServedBy, Stands, conn_of, is_polled};

use futures::task::{Context, Doorbell, Poll, Queue};
use gw_link::{MemLink, MemSink, MemSource, MemUpstream};
use gw_poll::ConnFuture;
use gw_polling::{MemPollLink, MemPollUpstream};
use gw_snap::OpenFault;
use gw_text::NoMemory;
use gw_worker::{Conn, ConnFault, Flow, Served, Worker};
use std::alloc::{AllocGlobal, Global};
use std::mem;
use std::random::RandomSource;
use std::sync::Wait;

/// A connection of a client at a door, which is served by calls or by being polled. One that is polled has a link for each piece, and the
/// backends while it is polled.
#[derive(Drop)]
pub enum Connection {
    Called(Conn),
    Polled(ConnFuture<MemPollLink, MemPollUpstream>),
}

impl Connection {
    /// A connection at the door of this number, of which no byte came yet.
    pub fn new(alloc: Global, door: usize, polled: bool) -> Connection
        ensures stands { (p : Place) → p.door ≡ door → Stands result p [] [] [] }
        ensures ready { IsReady result }
        ensures kind { is_polled result ≡ polled }
    {
        if !polled {
            return Connection::Called(Conn::new(alloc, door));
        }
        Connection::Polled(ConnFuture::new(alloc, door, new_link(alloc), no_backends(alloc)))
    }

    /// The rows of the requests that were served.
    pub fn served(&self) -> &Served
        ensures { result.now ≡ (conn_of self.now).rows }
    {
        match self {
            Connection::Called(conn) => conn.served(),
            Connection::Polled(conn) => conn.rows(),
        }
    }

    /// What comes of a piece, of which an empty one is the end. What is written goes behind what was written.
    pub fn take<W: Wait + RandomSource + AllocGlobal>(
        &mut self,
        rt: &W,
        worker: &mut Worker,
        piece: &[u8],
        wrote: &mut Vec<u8>,
        backends: &mut MemUpstream,
    ) -> Result<Flow, OpenFault>
        requires door { (conn_of self.old).door < length worker.old.pass.fixed.0 }
        requires ready { IsReady self.old }
        requires none { wrote.old.items ≡ [] }
        ensures served { IfOk result (λ flow. (p : Place) (bytes : List ℕ) (parts : List Part) (text : List ℕ) → IsAt worker.old p → Stands self.old p bytes parts text
            → IsServedBy (Refuses backends.old backends.new) p worker.old worker.new self.new (bytes ++ piece.now) (length piece.now == 0) parts text
            (outside (Some []) (Some backends.old.exchanges) backends.old.calls.faults)
            (outside (Some wrote.new.items) (Some backends.new.exchanges) backends.new.calls.faults) flow) }
        ensures ready { result ≡ Ok Flow.More → IsReady self.new }
        ensures kind { is_polled self.new ≡ is_polled self.old }
        ensures becomes { OnOk result (Becomes backends.old backends.new) }
        ensures starved { OnOk result (backends.new.starved ≡ backends.old.starved) }
        ensures refused { result ≡ Err OpenFault.Place → 0 < worker.new.pass.refused }
        ensures later { BeginsWith worker.old.pass.seen worker.new.pass.seen }
        ensures fixed { worker.new.pass.fixed ≡ worker.old.pass.fixed }
        ensures book { worker.new.pass.book ≡ worker.old.pass.book }
    {
        match self {
            Connection::Called(conn) => call(conn, rt.alloc(), worker, piece, wrote, backends),
            Connection::Polled(conn) => poll_once(conn, rt, worker, piece, wrote, backends),
        }
    }
}

// Serves by calls.
fn call(
    conn: &mut Conn,
    alloc: Global,
    worker: &mut Worker,
    piece: &[u8],
    wrote: &mut Vec<u8>,
    backends: &mut MemUpstream,
) -> Result<Flow, OpenFault>
    requires door { conn.old.door < length worker.old.pass.fixed.0 }
    requires serving { IsServing conn.old }
    requires none { wrote.old.items ≡ [] }
    ensures served { IfOk result (λ flow. (p : Place) (bytes : List ℕ) (parts : List Part) (text : List ℕ) → IsAt worker.old p → StandsFor conn.old p bytes parts text
        → IsServed (Refuses backends.old backends.new) p worker.old worker.new conn.new (bytes ++ piece.now) (length piece.now == 0) parts text
        (outside (Some []) (Some backends.old.exchanges) backends.old.calls.faults)
        (outside (Some wrote.new.items) (Some backends.new.exchanges) backends.new.calls.faults) flow) }
    ensures serving { result ≡ Ok Flow.More → IsServing conn.new }
    ensures becomes { OnOk result (Becomes backends.old backends.new) }
    ensures starved { OnOk result (backends.new.starved ≡ backends.old.starved) }
    ensures refused { result ≡ Err OpenFault.Place → 0 < worker.new.pass.refused }
    ensures pass { PassStays worker.old worker.new }
{
    let mut link = no_bytes(alloc);
    let flow = take(conn, worker, piece, &mut link, backends)?;
    wrote.extend_from_slice(link.written())?;
    Ok(flow)
}

// A link over which nothing comes, and nothing was written.
fn no_bytes(alloc: Global) -> MemLink
    ensures written { result.sink.written ≡ [] }
{
    let source = MemSource::new(Vec::new(alloc), Vec::new(alloc));
    let sink = MemSink::new(alloc, Vec::new(alloc));
    MemLink::new(source, sink, Vec::new(alloc))
}

// What comes of a piece. A call that failed for want of memory says nothing of a backend.
fn take(
    conn: &mut Conn,
    worker: &mut Worker,
    piece: &[u8],
    link: &mut MemLink,
    backends: &mut MemUpstream,
) -> Result<Flow, OpenFault>
    requires door { conn.old.door < length worker.old.pass.fixed.0 }
    requires serving { IsServing conn.old }
    ensures served { IfOk result (λ flow. (p : Place) (bytes : List ℕ) (parts : List Part) (text : List ℕ) → IsAt worker.old p → StandsFor conn.old p bytes parts text
        → IsServed (Refuses backends.old backends.new) p worker.old worker.new conn.new (bytes ++ piece.now) (length piece.now == 0) parts text
        (outside (Some link.old.sink.written) (Some backends.old.exchanges) backends.old.calls.faults)
        (outside (Some link.new.sink.written) (Some backends.new.exchanges) backends.new.calls.faults) flow) }
    ensures serving { result ≡ Ok Flow.More → IsServing conn.new }
    ensures becomes { Becomes backends.old backends.new }
    ensures starved { OnOk result (backends.new.starved ≡ backends.old.starved) }
    ensures refused { result ≡ Err OpenFault.Place → 0 < worker.new.pass.refused }
    ensures pass { PassStays worker.old worker.new }
{
    let starved = backends.starved();
    match conn.take(worker, piece, link, backends) {
        Ok(flow) if link.starved() == 0 && backends.starved() == starved => Ok(flow),
        Err(ConnFault::Place) => Err(OpenFault::Place),
        _ => Err(OpenFault::NoMemory),
    }
}

// Serves by one poll of a task of its own.
fn poll_once<W: Wait + RandomSource + AllocGlobal>(
    conn: &mut ConnFuture<MemPollLink, MemPollUpstream>,
    rt: &W,
    worker: &mut Worker,
    piece: &[u8],
    wrote: &mut Vec<u8>,
    backends: &mut MemUpstream,
) -> Result<Flow, OpenFault>
    requires door { conn.old.course.conn.door < length worker.old.pass.fixed.0 }
    requires idle { IsIdle conn.old.course }
    requires none { wrote.old.items ≡ [] }
    ensures served { IfOk result (λ flow. (p : Place) (bytes : List ℕ) (parts : List Part) (text : List ℕ) → IsAt worker.old p → Stands (Connection.Polled conn.old) p bytes parts text
        → IsServedBy (Refuses backends.old backends.new) p worker.old worker.new (Connection.Polled conn.new) (bytes ++ piece.now) (length piece.now == 0) parts text
        (outside (Some []) (Some backends.old.exchanges) backends.old.calls.faults)
        (outside (Some wrote.new.items) (Some backends.new.exchanges) backends.new.calls.faults) flow) }
    ensures idle { result ≡ Ok Flow.More → IsIdle conn.new.course }
    ensures becomes { OnOk result (Becomes backends.old backends.new) }
    ensures starved { OnOk result (backends.new.starved ≡ backends.old.starved) }
    ensures refused { result ≡ Err OpenFault.Place → 0 < worker.new.pass.refused }
    ensures pass { PassStays worker.old worker.new }
{
    let queue = queue_of(rt)?;
    let Some(mut cx) = queue.next(rt) else {
        return Err(OpenFault::NoMemory);
    };
    let flow = poll(conn, &mut cx, rt.alloc(), worker, piece, wrote, backends);
    cx.cancel();
    flow
}

// A queue with one task that is to run. The system may refuse the random bytes of its name, which is told as want of memory.
fn queue_of<W: RandomSource + AllocGlobal>(rt: &W) -> Result<Queue, NoMemory> {
    let Ok(queue) = Queue::new(rt, Doorbell::parking()) else {
        return Err(NoMemory);
    };
    let Ok(task) = queue.add() else {
        return Err(NoMemory);
    };
    task.schedule();
    Ok(queue)
}

// Serves by one poll, over a link that holds the piece. A call that failed for want of memory says nothing of a backend.
fn poll(
    conn: &mut ConnFuture<MemPollLink, MemPollUpstream>,
    cx: &mut Context<'_>,
    alloc: Global,
    worker: &mut Worker,
    piece: &[u8],
    wrote: &mut Vec<u8>,
    backends: &mut MemUpstream,
) -> Result<Flow, OpenFault>
    requires door { conn.old.course.conn.door < length worker.old.pass.fixed.0 }
    requires idle { IsIdle conn.old.course }
    requires none { wrote.old.items ≡ [] }
    ensures served { IfOk result (λ flow. (p : Place) (bytes : List ℕ) (parts : List Part) (text : List ℕ) → IsAt worker.old p → Stands (Connection.Polled conn.old) p bytes parts text
        → IsServedBy (Refuses backends.old backends.new) p worker.old worker.new (Connection.Polled conn.new) (bytes ++ piece.now) (length piece.now == 0) parts text
        (outside (Some []) (Some backends.old.exchanges) backends.old.calls.faults)
        (outside (Some wrote.new.items) (Some backends.new.exchanges) backends.new.calls.faults) flow) }
    ensures idle { result ≡ Ok Flow.More → IsIdle conn.new.course }
    ensures becomes { OnOk result (Becomes backends.old backends.new) }
    ensures starved { OnOk result (backends.new.starved ≡ backends.old.starved) }
    ensures refused { result ≡ Err OpenFault.Place → 0 < worker.new.pass.refused }
    ensures pass { PassStays worker.old worker.new }
{
    let starved = backends.starved();
    let link = link_of(alloc, piece)?;
    lend(conn, alloc, link, backends);
    let polled = conn.poll(worker, cx);
    take_back(conn, alloc, backends);
    wrote.extend_from_slice(conn.link().written())?;
    if backends.starved() != starved {
        return Err(OpenFault::NoMemory);
    }
    match polled {
        Poll::Pending => Ok(Flow::More),
        Poll::Ready(Ok(why)) => Ok(Flow::Ended(why)),
        Poll::Ready(Err(ConnFault::Place)) => Err(OpenFault::Place),
        Poll::Ready(Err(_)) => Err(OpenFault::NoMemory),
    }
}

// A link to which nothing came.
fn new_link(alloc: Global) -> MemPollLink
    ensures pieces { result.pieces ≡ [] }
    ensures end { result.has_end ≡ false }
    ensures unmarked { has_marks result ≡ false }
    ensures written { result.sink.written ≡ [] }
{
    let sink = MemSink::new(alloc, Vec::new(alloc));
    MemPollLink::new(alloc, Vec::new(alloc), sink)
}

// A link to which this piece came, or the end, where it is empty.
fn link_of(alloc: Global, piece: &[u8]) -> Result<MemPollLink, NoMemory>
    ensures left { IfOk result (λ link. concat link.pieces ≡ piece.now) }
    ensures end { IfOk result (λ link. link.has_end ≡ (length piece.now == 0)) }
    ensures unmarked { IfOk result (λ link. has_marks link ≡ false) }
    ensures written { IfOk result (λ link. link.sink.written ≡ []) }
{
    let mut link = new_link(alloc);
    link.push(piece)?;
    Ok(link)
}

// No backend is reached.
fn no_backends(alloc: Global) -> MemPollUpstream {
    MemPollUpstream::new(MemUpstream::new(alloc, Vec::new(alloc)), Vec::new(alloc))
}

// The connection gets a link and the backends.
fn lend(
    conn: &mut ConnFuture<MemPollLink, MemPollUpstream>,
    alloc: Global,
    link: MemPollLink,
    backends: &mut MemUpstream,
)
    ensures course { conn.new.course ≡ conn.old.course }
    ensures link { conn.new.link ≡ link }
    ensures up { conn.new.up ≡ record { up = backends.old; marks = first_poll [] } }
{
    *conn.link() = link;
    let lent = mem::replace(backends, MemUpstream::new(alloc, Vec::new(alloc)));
    *conn.upstream() = MemPollUpstream::new(lent, Vec::new(alloc));
}

// The connection gives the backends back.
fn take_back(
    conn: &mut ConnFuture<MemPollLink, MemPollUpstream>,
    alloc: Global,
    backends: &mut MemUpstream,
)
    ensures course { conn.new.course ≡ conn.old.course }
    ensures link { conn.new.link ≡ conn.old.link }
    ensures backends { backends.new ≡ conn.old.up.up }
{
    let lent = mem::replace(conn.upstream(), no_backends(alloc));
    *backends = lent.into_upstream();
}

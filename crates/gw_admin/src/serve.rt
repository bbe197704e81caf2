//! Connections over links, to their ends.
ghost use Rattle.std.specs.Prelude.{◌≡◌, ◌≤◌, [], false, IfOk, IfErr, OnOk, OnErr};
ghost use Rattle.gw_frames.specs.Inlets.{is_over};
ghost use Rattle.gw_link.specs.Faults.{HasRisen};
ghost use Rattle.gw_lists.specs.Lists.{BeginsWith};
ghost use Rattle.gw_admin.specs.Answering.{place_of};
ghost use Rattle.gw_admin.specs.Conns.{IsReading, IsServing, outside};
ghost use Rattle.gw_admin.specs.Faults.{Counts, CountsNothing, IsCauseOf};
ghost use Rattle.gw_admin.specs.Serving.{CountsNext, HasBroken, HasServed, IsNext, Ran, Stopped};

use crate::conn::{Conn, Flow};
use crate::fault::AdminFault;
use gw_edge::{Acceptor, Next};
use gw_frames::Ended;
use gw_hub::{Hub, HubName};
use gw_link::{Clock, Link};
use gw_match::Tables;
use gw_snap::Pass;
use std::alloc::Global;
use std::sync::Wait;

/// The most bytes that one read is asked for.
const MOST_PIECE: usize = 8192;

/// A connection that was served to its end.
#[derive(Drop)]
pub struct AdminSession {
    /// How many requests there were.
    pub asks: u64,
    pub ended: Ended,
}

/// Serves the connection of a link, to its end.
pub fn serve_admin<N: HubName, R: Wait + Drop, C: Clock, K: Link, W: Wait>(
    rt: &W,
    alloc: Global,
    hub: &Hub<N, R>,
    pass: &mut Pass<Tables>,
    clock: &mut C,
    link: &mut K,
) -> Result<AdminSession, AdminFault>
    requires book { pass.old.book ≡ N.book }
    requires fixed { pass.old.fixed ≡ (N.doors, N.controller) }
    ensures served { IfOk result (λ session. HasServed (place_of N.doors N.controller) session (K.left link.old) (K.left link.new)
        (outside pass.old.seen (C.moments clock.old) (K.written link.old)) (outside pass.new.seen (C.moments clock.new) (K.written link.new))) }
    ensures broken { OnErr result (HasBroken (place_of N.doors N.controller) (K.left link.old) (K.left link.new)
        (outside pass.old.seen (C.moments clock.old) (K.written link.old)) (outside pass.new.seen (C.moments clock.new) (K.written link.new))) }

    // What a connection is given up by.
    ensures read { result ≡ Err AdminFault.Read → HasRisen (K.faults link.old) (K.faults link.new) }
    ensures write { result ≡ Err AdminFault.Write → HasRisen (K.faults link.old) (K.faults link.new) }
    ensures counts { Counts result pass.old pass.new }

    ensures link_later { K.faults link.old ≤ K.faults link.new }
    ensures later { BeginsWith pass.old.seen pass.new.seen }
    ensures book { pass.new.book ≡ pass.old.book }
    ensures fixed { pass.new.fixed ≡ pass.old.fixed }
{
    let mut conn = Conn::new(alloc);
    let ended = pieces(rt, &mut conn, hub, pass, clock, link)?;
    Ok(AdminSession {
        asks: conn.asks as u64,
        ended,
    })
}

// Reads and answers until the connection ends.
fn pieces<N: HubName, R: Wait + Drop, C: Clock, K: Link, W: Wait>(
    rt: &W,
    conn: &mut Conn,
    hub: &Hub<N, R>,
    pass: &mut Pass<Tables>,
    clock: &mut C,
    link: &mut K,
) -> Result<Ended, AdminFault>
    requires serving { IsServing conn.old }
    requires unfinished { is_over conn.old.inlet ≡ false }
    requires reading { IsReading conn.old [] [] }
    requires book { pass.old.book ≡ N.book }
    requires fixed { pass.old.fixed ≡ (N.doors, N.controller) }
    ensures ran { IfOk result (Ran (place_of N.doors N.controller) conn.new (K.left link.old) (K.left link.new)
        (outside pass.old.seen (C.moments clock.old) (K.written link.old)) (outside pass.new.seen (C.moments clock.new) (K.written link.new))) }
    ensures stopped { OnErr result (Stopped (place_of N.doors N.controller) conn.new (K.left link.old) (K.left link.new)
        (outside pass.old.seen (C.moments clock.old) (K.written link.old)) (outside pass.new.seen (C.moments clock.new) (K.written link.new))) }
    ensures counts { OnOk result (CountsNothing pass.old pass.new) }
    ensures cause { IfErr result (λ fault. IsCauseOf fault pass.old pass.new (K.faults link.old) (K.faults link.new)) }
    ensures link_later { K.faults link.old ≤ K.faults link.new }
    ensures later { BeginsWith pass.old.seen pass.new.seen }
    ensures book { pass.new.book ≡ pass.old.book }
    ensures fixed { pass.new.fixed ≡ pass.old.fixed }
{
    let mut buffer = [0; MOST_PIECE];
    let mut taken = 0;
    'pieces: loop {
        let size = match link.read(&mut buffer) {
            Ok(size) => size,
            Err(_) => return Err(AdminFault::Read),
        };
        taken += size;
        match conn.take(rt, hub, pass, clock, &buffer[..size], link)? {
            Flow::More => {}
            Flow::Ended(why) => return Ok(why),
        }
    }
}

/// Accepts the next link, serves it to its end, and closes it.
pub fn admin_next<N: HubName, R: Wait + Drop, C: Clock, A: Acceptor, W: Wait>(
    rt: &W,
    alloc: Global,
    hub: &Hub<N, R>,
    pass: &mut Pass<Tables>,
    clock: &mut C,
    accept: &mut A,
) -> Next<AdminSession, AdminFault>
    requires book { pass.old.book ≡ N.book }
    requires fixed { pass.old.fixed ≡ (N.doors, N.controller) }
    ensures next { IsNext (place_of N.doors N.controller) result (A.coming accept.old) (A.closed accept.old) (A.coming accept.new) (A.closed accept.new)
        pass.old.seen pass.new.seen (C.moments clock.old) (C.moments clock.new) }
    ensures failed { result ≡ Next.Failed → HasRisen (A.faults accept.old) (A.faults accept.new) }
    ensures counts { CountsNext result pass.old pass.new }
    ensures accept_later { A.faults accept.old ≤ A.faults accept.new }
    ensures later { BeginsWith pass.old.seen pass.new.seen }
    ensures book { pass.new.book ≡ pass.old.book }
    ensures fixed { pass.new.fixed ≡ pass.old.fixed }
{
    match accept.accept() {
        Err(_) => Next::Failed,
        Ok(None) => Next::Done,
        Ok(Some(link)) => {
            let mut link = link;
            let result = serve_admin(rt, alloc, hub, pass, clock, &mut link);
            accept.close(link);
            match result {
                Ok(session) => Next::Whole(session),
                Err(fault) => Next::Broke(fault),
            }
        }
    }
}

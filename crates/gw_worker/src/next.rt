//! The next connection of an acceptor.
ghost use Rattle.std.specs.Prelude.{◌≡◌, ◌<◌, ◌≤◌, length};
ghost use Rattle.gw_snap.specs.Lists.{BeginsWith};
ghost use Rattle.gw_worker.specs.Nexts.{CountsRefusedBy, IsNext, around};

use crate::serve::{Broken, Session, serve_proxy};
use crate::worker::Worker;
use gw_edge::{Acceptor, Next};
use gw_link::Upstream;
use std::alloc::Global;

/// Accepts one link, serves its connection at the door of this number, to its end or until it is given up, and closes it.
pub fn serve_next<A: Acceptor, U: Upstream>(
    alloc: Global,
    w: &mut Worker,
    door: usize,
    accept: &mut A,
    up: &mut U,
) -> Next<Session, Broken>
    requires { door < length w.old.pass.fixed.0 }
    ensures next { IsNext (U.refuses up.old up.new) door w.old w.new
        (around (A.coming accept.old) (A.closed accept.old) (A.faults accept.old) (U.exchanges up.old) (U.faults up.old))
        (around (A.coming accept.new) (A.closed accept.new) (A.faults accept.new) (U.exchanges up.new) (U.faults up.new)) result }

    // A reading that was refused is counted, and nothing else is.
    ensures refused { CountsRefusedBy result w.old.pass.refused w.new.pass.refused }
    ensures ahead { w.new.pass.ahead ≡ w.old.pass.ahead }

    ensures accept_later { A.faults accept.old ≤ A.faults accept.new }
    ensures up_later { U.faults up.old ≤ U.faults up.new }
    ensures later { BeginsWith w.old.pass.seen w.new.pass.seen }
    ensures fixed { w.new.pass.fixed ≡ w.old.pass.fixed }
    ensures book { w.new.pass.book ≡ w.old.pass.book }
{
    let mut link = match accept.accept() {
        Ok(Some(link)) => link,
        Ok(None) => return Next::Done,
        Err(_) => return Next::Failed,
    };
    let served = serve_proxy(alloc, w, door, &mut link, up);
    accept.close(link);
    match served {
        Ok(session) => Next::Whole(session),
        Err(broken) => Next::Broke(broken),
    }
}

ghost use Rattle.std.specs.Prelude.{◌≡◌, ◌⊎◌, ◌<◌, ◌≤◌, ℕ, [], length, true, None, Some, Option, IfSome};
ghost use Rattle.std.specs.Borrow.{Lends, sem};
ghost use Rattle.futures.specs.Poll.{OnPending};
ghost use Rattle.futures.specs.Task.{Keeps as KeepsTask};
ghost use Rattle.gw_frames.specs.Inlets.{is_over};
ghost use Rattle.gw_link.specs.Faults.{HasRisen};
ghost use Rattle.gw_link.specs.Pieces.{Keeps};
ghost use Rattle.gw_polling.specs.Polls.{IfDone, OnFailed, HasNoMark, NoneCame, IsUsedUp};
ghost use Rattle.gw_snap.specs.Lists.{BeginsWith};
ghost use Rattle.gw_text.specs.model.Addresses.{Socket as Address};
ghost use Rattle.gw_worker.specs.Flows.{outside};
ghost use Rattle.gw_worker.specs.Workers.{IsAt};
ghost use Rattle.gw_worker.specs.model.Sessions.{Place};
ghost use Rattle.gw_poll.specs.Causes.{OnGoing, IfFailed, HasCause, CountsRefusedIn, HasWaited};
ghost use Rattle.gw_poll.specs.Courses.{CanGoOn, Follows, GivesUp, GoesTo, IsIdle};
ghost use Rattle.gw_poll.specs.Histories.{History, IsSession, no_history};
ghost use Rattle.gw_poll.specs.contracts.conn_future.ConnFuture.{the_row};

use crate::course::Course;
use futures::task::{Context, Poll};
use gw_exchange::MOST_PIECE;
use gw_frames::Ended;
use gw_polling::{PollLink, PollUpstream};
use gw_worker::{ConnFault, Served, Worker};
use std::alloc::Global;

/// A connection that is served by being polled, with its own link and upstream. While it waits it has no buffer.
#[derive(Drop)]
pub struct ConnFuture<K, U> {
    course: Course,
    link: K,
    up: U,
}

impl<K: PollLink, U: PollUpstream> ConnFuture<K, U> {
    /// The connection of the link at the door of this number, which wasn't polled yet.
    pub fn new(alloc: Global, door: usize, link: K, up: U) -> ConnFuture<K, U>
        ensures follows { (p : Place) → p.door ≡ door → Follows p result.course no_history }
        ensures going { (at : Option Address) → CanGoOn result.course at }
        ensures idle { IsIdle result.course }
        ensures door { result.course.conn.door ≡ door }
        ensures rows { result.course.conn.rows ≡ [] }
        ensures link { result.link ≡ link }
        ensures up { result.up ≡ up }
    {
        ConnFuture {
            course: Course::new(alloc, door),
            link,
            up,
        }
    }

    /// Reads and serves until the connection ends or something isn't ready. The worker is that of this poll; all of them have the same
    /// doors and controller's name.
    pub fn poll(&mut self, w: &mut Worker, cx: &mut Context<'_>) -> Poll<Result<Ended, ConnFault>>
        requires door { self.old.course.conn.door < length w.old.pass.fixed.0 }

        // No earlier poll was ready, and the upstream has the connection that it had then.
        requires going { CanGoOn self.old.course (U.at self.old.up) }

        // Each history for which the connection stood goes on, and it stands for that.
        ensures goes { OnGoing result ((p : Place) (h : History) → IsAt w.old p → Follows p self.old.course h
            → GoesTo (U.refuses self.old.up self.new.up) p w.old w.new self.new.course h (K.left self.old.link) (K.left self.new.link)
            (outside (K.written self.old.link) (U.exchanges self.old.up) (U.faults self.old.up)) (outside (K.written self.new.link) (U.exchanges self.new.up) (U.faults self.new.up))) }
        ensures broke { OnFailed result ((p : Place) (h : History) → IsAt w.old p → Follows p self.old.course h
            → GivesUp (U.refuses self.old.up self.new.up) p w.old w.new self.new.course h (K.left self.old.link) (K.left self.new.link)
            (outside (K.written self.old.link) (U.exchanges self.old.up) (U.faults self.old.up)) (outside (K.written self.new.link) (U.exchanges self.new.up) (U.faults self.new.up))) }

        // At its end each history for which it stands is a whole session with this end.
        ensures ends { IfDone result (λ why. (p : Place) (h : History) → Follows p self.new.course h → IsSession p h self.new.course.conn.rows (Some why)) }

        // Where it waits for bytes alone, each is a whole session of the bytes read so far.
        ensures caught_up { OnPending result ((¬ HasRisen (K.write_waits self.old.link) (K.write_waits self.new.link)) → (¬ HasRisen (U.waits self.old.up) (U.waits self.new.up))
            → (p : Place) (h : History) → Follows p self.new.course h → IsSession p h self.new.course.conn.rows None) }

        // Where no mark was to come, so is it, and all is read.
        ensures used_up { OnPending result (HasNoMark (K.marks self.old.link) → HasNoMark (U.marks self.old.up)
            → IsUsedUp (K.left self.new.link) (K.end self.new.link) × ((p : Place) (h : History) → Follows p self.new.course h → IsSession p h self.new.course.conn.rows None)) }

        // It waits only where the link or the upstream wasn't ready in this poll, which then is registered.
        ensures waits { OnPending result (HasWaited cx.new (K.source self.new.link) (K.read_waits self.old.link) (K.read_waits self.new.link)
            ⊎ (HasWaited cx.new (K.source self.new.link) (K.write_waits self.old.link) (K.write_waits self.new.link)
            ⊎ HasWaited cx.new (U.source self.new.up) (U.waits self.old.up) (U.waits self.new.up))) }
        ensures going { OnPending result (CanGoOn self.new.course (U.at self.new.up)) }

        // Where no mark was to come, it may be polled with whatever connection the upstream has then.
        ensures idle { OnPending result (HasNoMark (K.marks self.old.link) → HasNoMark (U.marks self.old.up) → IsIdle self.new.course) }

        // The end of the bytes is read only where it stood, as far as the link tells.
        ensures over { OnGoing result (is_over self.new.course.conn.inlet ≡ true
            → (is_over self.old.course.conn.inlet ≡ true) ⊎ IfSome (K.end self.old.link) (λ told. IfSome (K.end self.new.link) (λ has_end. has_end ≡ true))) }
        ensures unended { Keeps (K.end self.old.link) (K.end self.new.link) }

        // What it is given up by. A reading of the pass that was refused is counted there, and nowhere else.
        ensures cause { IfFailed result (HasCause (K.faults self.old.link) (K.faults self.new.link)) }
        ensures refused { CountsRefusedIn result w.old.pass.refused w.new.pass.refused }

        ensures later { BeginsWith w.old.pass.seen w.new.pass.seen }
        ensures fixed { w.new.pass.fixed ≡ w.old.pass.fixed }
        ensures book { w.new.pass.book ≡ w.old.pass.book }
        ensures ahead { w.new.pass.ahead ≡ w.old.pass.ahead }
        ensures link_later { K.faults self.old.link ≤ K.faults self.new.link }
        ensures link_unmarked { NoneCame (K.marks self.old.link) (K.marks self.new.link) }
        ensures link_same { K.source self.new.link ≡ K.source self.old.link }
        ensures up_later { U.faults self.old.up ≤ U.faults self.new.up }
        ensures up_waits { U.waits self.old.up ≤ U.waits self.new.up }
        ensures up_unmarked { NoneCame (U.marks self.old.up) (U.marks self.new.up) }
        ensures up_same { U.source self.new.up ≡ U.source self.old.up }
        ensures becomes { U.becomes self.old.up self.new.up }
        ensures task { KeepsTask cx.old cx.new }
        ensures door { self.new.course.conn.door ≡ self.old.course.conn.door }
    {
        let mut buffer = [0; MOST_PIECE];
        self.course
            .poll(w, cx, &mut self.link, &mut self.up, &mut buffer)
    }

    /// The rows of the requests that were served.
    pub fn rows(&self) -> &Served
        ensures { result.now ≡ self.now.course.conn.rows }
    {
        self.course.conn.served()
    }

    /// The connection's own link.
    pub fn link(&mut self) -> &mut K
        ensures* writes_back { sem 𝓛 (Lends (the_row K.row U.row) K.row self.entry result (λ link. record self.old { link = link })) }
        ensures value { result.now ≡ self.old.link }
    {
        &mut self.link
    }

    /// The connection's own upstream.
    pub fn upstream(&mut self) -> &mut U
        ensures* writes_back { sem 𝓛 (Lends (the_row K.row U.row) U.row self.entry result (λ up. record self.old { up = up })) }
        ensures value { result.now ≡ self.old.up }
    {
        &mut self.up
    }

    /// The rows of the requests that were served, the link and the upstream.
    pub fn into_parts(self) -> (Served, K, U)
        ensures { result ≡ (self.course.conn.rows, self.link, self.up) }
    {
        let ConnFuture { course, link, up } = self;
        (course.into_rows(), link, up)
    }
}

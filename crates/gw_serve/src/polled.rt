//! The job that serves the connections of a ring by polling them: it waits, admits and takes turns.
ghost use Rattle.std.specs.Prelude.{◌≡◌, ◌≢◌, ◌<◌, ◌≤◌, ◌&&◌, ◌++◌, ◌∷◌, ℕ, List, false, true, not, None, Some, [], length, map, IfSome};
ghost use Rattle.gw_poll.specs.Crowds.{numbers_of};
ghost use Rattle.gw_polling.specs.Rings.{is_among};
ghost use Rattle.gw_serve.specs.Polled.{AreAlike, AreServed};

use futures::task::{Context, Queue};
use gw_poll::{Crowd, Gone, Parted, Refused};
use gw_polling::{Numbers, PollLink, PollUpstream, Ring, Woken};
use std::alloc::Global;
use std::sync::Wait;
use std::thread::yield_now;

/// Serves the connections of a ring, many at once.
#[derive(Drop)]
pub struct PolledJob<K: PollLink, V: PollUpstream, G: Ring<Link = K, Up = V>> {
    pub alloc: Global,
    pub crowd: Crowd<K, V>,
    pub ring: G,
    /// After how many connections and faults of the ring nothing more is admitted: it then ends as soon as none is open. None: it doesn't end.
    pub conns: Option<u32>,
    /// Where the task is by which the connections are polled.
    pub queue: Queue,
    ghost none_open: { length crowd.members.items ≡ 0 },
    ghost is_there: { crowd.door < length crowd.worker.pass.fixed.0 },
}

// The connections that are served, and how many more may come, where that is bounded.
#[derive(Drop)]
struct Turns<K: PollLink, V: PollUpstream, G: Ring<Link = K, Up = V>> {
    alloc: Global,
    crowd: Crowd<K, V>,
    ring: G,
    left: Option<u32>,
}

impl<K: PollLink, V: PollUpstream, G: Ring<Link = K, Up = V>> PolledJob<K, V, G> {
    /// Serves until it ends.
    pub(crate) fn serve<W: Wait>(self, rt: &W) {
        let PolledJob {
            alloc,
            crowd,
            ring,
            conns,
            queue,
        } = self;
        let mut turns = Turns {
            alloc,
            crowd,
            ring,
            left: conns,
        };
        if let Some(mut cx) = queue.next(rt) {
            turns.serve(rt, &mut cx);
            cx.cancel();
        }
    }
}

impl<K: PollLink, V: PollUpstream, G: Ring<Link = K, Up = V>> Turns<K, V, G> {
    // Serves until it ends.
    fn serve<W: Wait>(&mut self, rt: &W, cx: &mut Context<'_>)
        requires { AreServed V.PollUpstream (G.given_numbers self.old.ring) self.old.crowd }
    {
        'waits: for _ in rt.forever() {
            if !self.next(rt, cx) {
                return;
            }
        }
    }

    // Waits once, and serves what is worth it. False: it has ended.
    fn next<W: Wait>(&mut self, rt: &W, cx: &mut Context<'_>) -> bool
        requires { AreServed V.PollUpstream (G.given_numbers self.old.ring) self.old.crowd }
        ensures served { AreServed V.PollUpstream (G.given_numbers self.new.ring) self.new.crowd }
        ensures alike { AreAlike (G.open_numbers self.old.ring) self.old.crowd → AreAlike (G.open_numbers self.new.ring) self.new.crowd }
        ensures full { self.old.left ≡ Some 0 → length self.new.crowd.members.items ≤ length self.old.crowd.members.items }
        ensures left { self.old.left ≡ None → self.new.left ≡ None }
        ensures bounded { result ≡ false → self.new.left ≢ None }
        ensures over { result ≡ true → self.new.left ≡ Some 0 → 0 < length self.new.crowd.members.items }
        ensures ends { result ≡ false → AreAlike (G.open_numbers self.old.ring) self.old.crowd → length self.new.crowd.members.items ≡ 0 }
    {
        match self.ring.wait(rt, self.alloc, cx) {
            Ok(Woken::New(number, link, up)) => {
                self.take(number, link, up);
                self.goes_on()
            }
            Ok(Woken::Ready(numbers)) => {
                self.turn(rt, &numbers, cx);
                self.goes_on()
            }
            Ok(Woken::Done) => self.left.is_none(),
            Err(_) => {
                self.count();
                self.goes_on()
            }
        }
    }

    // Whether more may come, or some are open.
    fn goes_on(&self) -> bool
        ensures on { result ≡ true → self.now.left ≡ Some 0 → 0 < length self.now.crowd.members.items }
        ensures over { result ≡ false → (self.now.left ≢ None) × (length self.now.crowd.members.items ≡ 0) }
    {
        self.left != Some(0) || self.crowd.open() > 0
    }

    // One connection or fault more has come.
    fn count(&mut self)
        ensures bounded { IfSome self.old.left (λ left. self.new.left ≢ None) }
        ensures unbounded { self.old.left ≡ None → self.new.left ≡ None }
        ensures crowd { self.new.crowd ≡ self.old.crowd }
        ensures ring { self.new.ring ≡ self.old.ring }
    {
        if let Some(left) = self.left {
            self.left = Some(left.saturating_sub(1));
        }
    }

    // Admits the connection that came with this number, or closes it.
    fn take(&mut self, number: u64, link: K, up: V)
        requires served { AreServed V.PollUpstream (G.given_numbers self.old.ring) self.old.crowd }
        requires fresh { is_among number (numbers_of self.old.crowd) ≡ false }
        requires given { is_among number (G.given_numbers self.old.ring) ≡ true }
        ensures served { AreServed V.PollUpstream (G.given_numbers self.new.ring) self.new.crowd }
        ensures alike { (others : List ℕ) → G.open_numbers self.old.ring ≡ others ++ number ∷ [] → AreAlike others self.old.crowd → AreAlike (G.open_numbers self.new.ring) self.new.crowd }
        ensures full { self.old.left ≡ Some 0 → self.new.crowd ≡ self.old.crowd }
        ensures bounded { self.old.left ≢ None → self.new.left ≢ None }
        ensures unbounded { self.old.left ≡ None → self.new.left ≡ None }
    {
        if self.left == Some(0) {
            self.ring.close(number, link, up);
            return;
        }
        self.count();
        match self.crowd.admit(number, link, up) {
            Ok(()) => {}
            Err(refused) => {
                let Refused { link, up, cause: _ } = refused;
                self.ring.close(number, link, up);
            }
        }
    }

    // Polls the connections with these numbers, and closes those that ended. Where memory is wanted it is tried again, since nobody names them
    // once more.
    fn turn<W: Wait>(&mut self, rt: &W, numbers: &Numbers, cx: &mut Context<'_>)
        requires { AreServed V.PollUpstream (G.given_numbers self.old.ring) self.old.crowd }
        ensures served { AreServed V.PollUpstream (G.given_numbers self.new.ring) self.new.crowd }
        ensures alike { AreAlike (G.open_numbers self.old.ring) self.old.crowd → AreAlike (G.open_numbers self.new.ring) self.new.crowd }
        ensures fewer { length self.new.crowd.members.items ≤ length self.old.crowd.members.items }
        ensures left { self.new.left ≡ self.old.left }
    {
        'tries: for _ in rt.forever() {
            if let Ok(gone) = self.crowd.turn(numbers, cx) {
                self.close_all(gone);
                return;
            }
            yield_now();
        }
    }

    // Closes the connections that ended.
    fn close_all(&mut self, gone: Gone<K, V>)
        ensures closed { (number : ℕ) → is_among number (G.open_numbers self.new.ring)
            ≡ (is_among number (G.open_numbers self.old.ring) && not (is_among number (map (λ parted. parted.number) gone.items))) }
        ensures given { G.given_numbers self.new.ring ≡ G.given_numbers self.old.ring }
        ensures crowd { self.new.crowd ≡ self.old.crowd }
        ensures left { self.new.left ≡ self.old.left }
    {
        'gone: for parted in gone {
            let Parted {
                number,
                rows: _,
                link,
                up,
                result: _,
            } = parted;
            self.ring.close(number, link, up);
        }
    }
}

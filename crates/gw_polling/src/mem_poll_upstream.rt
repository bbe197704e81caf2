ghost use Rattle.std.specs.Prelude.{◌≡◌, ℕ, ◌<◌, ◌≤◌, [], ◌∷◌, ◌++◌, true, false, Some, length, take, drop, min, is_some, IfSome, OnOk, OnErr, IsTrue, refl};
ghost use Rattle.futures.specs.Poll.{OnPending};
ghost use Rattle.futures.specs.Task.{Hears, IsArmed, Keeps as KeepsTask};
ghost use Rattle.gw_link.specs.Upstreams.{Becomes, Refuses, is_failing_to, next_piece, after_close};
ghost use Rattle.gw_link.specs.UpstreamLaws.{becomes_self as becomes_itself, becomes_then as becomes_more, refuses_later as refused_behind, refuses_still as refused_before};
ghost use Rattle.gw_polling.specs.Polls.{IfDone, OnFailed, is_done, is_pending, HasNoMark, NoneCame};
ghost use Rattle.gw_polling.specs.PollMemory.{PollUpstreamState, first_poll, is_marked, has_mark, after_poll_connect, after_poll_send, after_poll_receive};

use crate::poll_upstream::PollUpstream;
use crate::readiness::Readiness;
use futures::task::{Context, Poll};
use gw_link::{Failed, MemUpstream, Order, Upstream, UpstreamCall};
use gw_text::{NoMemory, Socket};
use std::marker::Model;

/// An upstream in memory that is polled: where it is ready, it makes the calls of the upstream that it is made of.
#[derive(Drop)]
pub struct MemPollUpstream {
    up: MemUpstream,
    marks: Readiness,
}

impl Model for MemPollUpstream {
    ghost Value = { PollUpstreamState };

    ghost view = { λ u. record { up = u.up; marks = u.marks } };
}

impl MemPollUpstream {
    /// It isn't ready once before each call with one of these numbers, from 0; `close` is no such call. A poll that isn't ready makes no
    /// call, so the next poll is of the same number.
    pub fn new(up: MemUpstream, marks: Vec<u64>) -> Self
        ensures { result ≡ record { up = up; marks = first_poll marks.items } }
    {
        MemPollUpstream {
            up,
            marks: Readiness::new(marks),
        }
    }

    /// From now on a backend does so.
    pub fn order(&mut self, order: Order) -> Result<(), NoMemory>
        ensures ok { OnOk result (self.new ≡ record self.old { up = record self.old.up { orders = self.old.up.orders ++ order ∷ [] } }) }
        ensures err { OnErr result (self.new ≡ self.old) }
    {
        self.up.order(order)
    }

    /// The upstream that it is made of, with its exchanges and faults.
    pub fn upstream(&self) -> &MemUpstream
        ensures { result.now ≡ self.now.up }
    {
        &self.up
    }

    /// The upstream that it is made of, handed back.
    pub fn into_upstream(self) -> MemUpstream
        ensures { result ≡ self.up }
    {
        let MemPollUpstream { up, marks: _ } = self;
        up
    }

    /// The calls to come before which it isn't ready.
    pub fn marks(&self) -> &[u64]
        ensures { result.now ≡ self.now.marks.marks }
    {
        self.marks.marks()
    }

    /// How many polls weren't ready.
    pub fn waits(&self) -> u64
        ensures { result ≡ self.now.marks.waits }
    {
        self.marks.waits()
    }
}

impl PollUpstream for MemPollUpstream {
    ghost exchanges = { λ u. Some u.up.exchanges };

    ghost at = { λ u. u.up.at };

    ghost marks = { λ u. Some (has_mark u.marks) };

    ghost faults = { λ u. u.up.calls.faults };

    ghost waits = { λ u. u.marks.waits };

    // It only asks for another poll, so it is heard of at each source.
    ghost source = { λ _. 0 };

    ghost becomes = { λ a b. Becomes a.up b.up };

    ghost refuses = { λ a b. Refuses a.up b.up };

    fn poll_connect(&mut self, cx: &mut Context<'_>, to: Socket) -> Poll<Result<(), Failed>>
        ensures pending { is_pending result ≡ is_marked self.old.marks }
        ensures listed { IsTrue (is_failing_to UpstreamCall.Connect (Some to) self.old.up) → is_done result ≡ false }
        ensures after { self.new ≡ after_poll_connect to (is_done result) self.old }
        ensures refused { OnFailed result (Refuses self.old.up self.new.up UpstreamCall.Connect to) }
        ensures unmarked { NoneCame (Some (has_mark self.old.marks)) (Some (has_mark self.new.marks)) }
        ensures ready { OnPending result (¬ HasNoMark (Some (has_mark self.old.marks))) }
        ensures armed { OnPending result (IsArmed cx.new) }
        ensures heard { OnPending result ((s : ℕ) → Hears cx.new s) }
        ensures task { KeepsTask cx.old cx.new }
        ensures woken { OnPending result (cx.new.is_woken ≡ true) }
        ensures goes { Becomes self.old.up self.new.up }
    {
        if self.marks.meets_mark() {
            self.up.close();
            return cx.yield_now();
        }
        self.marks.pass();
        Poll::Ready(self.up.connect(to))
    }

    fn poll_send(&mut self, cx: &mut Context<'_>, piece: &[u8]) -> Poll<Result<usize, Failed>>
        requires connected { is_some self.old.up.at ≡ true }
        requires any { 0 < length piece.now }
        ensures pending { is_pending result ≡ is_marked self.old.marks }
        ensures listed { IsTrue (is_failing_to UpstreamCall.Send self.old.up.at self.old.up) → is_done result ≡ false }
        ensures size { IfDone result (λ n. n ≡ min (length piece.now) self.old.up.most) }
        ensures some { IfDone result (λ n. 0 < n) }
        ensures after { self.new ≡ after_poll_send piece.now (is_done result) self.old }
        ensures refused { OnFailed result (IfSome self.old.up.at (λ to. Refuses self.old.up self.new.up UpstreamCall.Send to)) }
        ensures unmarked { NoneCame (Some (has_mark self.old.marks)) (Some (has_mark self.new.marks)) }
        ensures ready { OnPending result (¬ HasNoMark (Some (has_mark self.old.marks))) }
        ensures armed { OnPending result (IsArmed cx.new) }
        ensures heard { OnPending result ((s : ℕ) → Hears cx.new s) }
        ensures task { KeepsTask cx.old cx.new }
        ensures woken { OnPending result (cx.new.is_woken ≡ true) }
        ensures goes { Becomes self.old.up self.new.up }
    {
        if self.marks.meets_mark() {
            return cx.yield_now();
        }
        self.marks.pass();
        Poll::Ready(self.up.send(piece))
    }

    fn poll_receive(&mut self, cx: &mut Context<'_>, buf: &mut [u8]) -> Poll<Result<usize, Failed>>
        requires connected { is_some self.old.up.at ≡ true }
        requires any { 0 < length buf.old }
        ensures pending { is_pending result ≡ is_marked self.old.marks }
        ensures listed { IsTrue (is_failing_to UpstreamCall.Receive self.old.up.at self.old.up) → is_done result ≡ false }
        ensures size { IfDone result (λ n. n ≡ length (next_piece (length buf.old) self.old.up)) }
        ensures within { IfDone result (λ n. n ≤ length buf.new) }
        ensures bytes { IfDone result (λ n. take n buf.new ≡ next_piece (length buf.old) self.old.up) }
        ensures rest { IfDone result (λ n. drop n buf.new ≡ drop n buf.old) }
        ensures after { self.new ≡ after_poll_receive (length buf.old) (is_done result) self.old }
        ensures refused { OnFailed result (IfSome self.old.up.at (λ to. Refuses self.old.up self.new.up UpstreamCall.Receive to)) }
        ensures unmarked { NoneCame (Some (has_mark self.old.marks)) (Some (has_mark self.new.marks)) }
        ensures ready { OnPending result (¬ HasNoMark (Some (has_mark self.old.marks))) }
        ensures armed { OnPending result (IsArmed cx.new) }
        ensures heard { OnPending result ((s : ℕ) → Hears cx.new s) }
        ensures task { KeepsTask cx.old cx.new }
        ensures woken { OnPending result (cx.new.is_woken ≡ true) }
        ensures goes { Becomes self.old.up self.new.up }
    {
        if self.marks.meets_mark() {
            return cx.yield_now();
        }
        self.marks.pass();
        Poll::Ready(self.up.receive(buf))
    }

    fn close(&mut self)
        ensures after { self.new ≡ record self.old { up = after_close self.old.up } }
        ensures goes { Becomes self.old.up self.new.up }
    {
        self.up.close();
    }

    ghost becomes_self = { λ a. becomes_itself a.up };

    ghost becomes_then = { λ a b c. becomes_more a.up b.up c.up };

    ghost refuses_later = { λ a b c. refused_behind a.up b.up c.up };

    ghost refuses_still = { λ a b c. refused_before a.up b.up c.up };

    ghost tells_marks = { λ _. refl };
}

//! How far a polled connection came, whatever its link and its upstream are.
ghost use Rattle.std.specs.Prelude.{◌≡◌, ◌⊎◌, ◌<◌, ◌≤◌, ◌*◌, ◌+◌, ◌==◌, ◌++◌, ℕ, List, [], length, true, false, take, None, Some, Option, IfSome};
ghost use Rattle.futures.specs.Poll.{OnPending};
ghost use Rattle.futures.specs.Task.{Keeps as KeepsTask};
ghost use Rattle.gw_exchange.specs.declared.backend.TheConstants.{MOST_PIECE};
ghost use Rattle.gw_frames.specs.Inlets.{is_over};
ghost use Rattle.gw_link.specs.Exchanges.{Exchange, change_last};
ghost use Rattle.gw_link.specs.Faults.{HasRisen};
ghost use Rattle.gw_polling.specs.Polls.{IfDone, OnDone, OnFailed, HasNoMark, IsUsedUp};
ghost use Rattle.gw_poll_exchange.specs.Polled.{IsJoined};
ghost use Rattle.gw_poll_exchange.specs.Stays.{UpstreamStays};
ghost use Rattle.gw_text.specs.model.Addresses.{Socket as Address};
ghost use Rattle.gw_worker.specs.Conns.{IsAsking, IsFed, IsSettled, StandsFor, turns_left, with_answer};
ghost use Rattle.gw_worker.specs.Flows.{Outside, outside};
ghost use Rattle.gw_worker.specs.Stays.{PassStays};
ghost use Rattle.gw_worker.specs.Workers.{IsAt};
ghost use Rattle.gw_worker.specs.declared.conn.Stage.TheVariants.{Ended as HasEnded};
ghost use Rattle.gw_worker.specs.model.Sessions.{Part, Place};
ghost use Rattle.gw_worker.specs.model.Workers.{Worker as PlainWorker};
ghost use Rattle.gw_poll.specs.Causes.{OnGoing, IfFailed, HasCause, CountsRefusedIn, HasWaited};
ghost use Rattle.gw_poll.specs.Courses.{CanGoOn, Follows, GivesUp, GoesTo, HasBegun, IsGoing, IsHeld, IsIdle, IsReplied, steps_left};
ghost use Rattle.gw_poll.specs.Histories.{History, IsSession, no_call, no_history};
ghost use Rattle.gw_poll.specs.Stays.{LinkGoesOn, LinkStays};

use futures::task::{Context, Poll};
use gw_exchange::{ExchangeFault, MOST_PIECE};
use gw_frames::Ended;
use gw_poll_exchange::PolledExchange;
use gw_polling::{PollLink, PollUpstream, write_on};
use gw_replies::{BackendFault, Response};
use gw_text::{Socket, Text};
use gw_worker::{Conn, ConnFault, Flow, Served, Turn, Worker};
use std::alloc::Global;
use std::mem;

/// A connection as far as it came.
#[derive(Drop)]
pub(crate) struct Course {
    alloc: Global,
    pub(crate) conn: Conn,
    stage: Stage,
}

/// What comes next.
#[derive(Drop)]
enum Stage {
    /// What the connection does next.
    Turning,
    /// Bytes, which are to be read.
    Reading,
    /// What is left of this text, of which so many bytes are written.
    Writing(Text, usize),
    /// The answer of a backend.
    Exchanging(PolledExchange),
}

impl Course {
    /// A connection at the door of this number, of which no byte came yet.
    pub(crate) fn new(alloc: Global, door: usize) -> Course
        ensures follows { (p : Place) → p.door ≡ door → Follows p result no_history }
        ensures going { (at : Option Address) → CanGoOn result at }
        ensures idle { IsIdle result }
        ensures door { result.conn.door ≡ door }
        ensures rows { result.conn.rows ≡ [] }
    {
        Course {
            alloc,
            conn: Conn::new(alloc, door),
            stage: Stage::Turning,
        }
    }

    /// Its rows.
    pub(crate) fn into_rows(self) -> Served
        ensures { result ≡ self.conn.rows }
    {
        let Course {
            alloc: _,
            conn,
            stage: _,
        } = self;
        conn.rows()
    }

    /// Reads and serves until the connection ends or something isn't ready. What is read and received is read into the buffer, which is
    /// only lent.
    pub(crate) fn poll<K: PollLink, U: PollUpstream>(
        &mut self,
        w: &mut Worker,
        cx: &mut Context<'_>,
        link: &mut K,
        up: &mut U,
        buffer: &mut [u8],
    ) -> Poll<Result<Ended, ConnFault>>
        requires door { self.old.conn.door < length w.old.pass.fixed.0 }
        requires going { CanGoOn self.old (U.at up.old) }
        requires any { 0 < length buffer.old }
        requires few { length buffer.old ≤ MOST_PIECE }
        ensures goes { OnGoing result ((p : Place) (h : History) → IsAt w.old p → Follows p self.old h
            → GoesTo (U.refuses up.old up.new) p w.old w.new self.new h (K.left link.old) (K.left link.new)
            (outside (K.written link.old) (U.exchanges up.old) (U.faults up.old)) (outside (K.written link.new) (U.exchanges up.new) (U.faults up.new))) }
        ensures broke { OnFailed result ((p : Place) (h : History) → IsAt w.old p → Follows p self.old h
            → GivesUp (U.refuses up.old up.new) p w.old w.new self.new h (K.left link.old) (K.left link.new)
            (outside (K.written link.old) (U.exchanges up.old) (U.faults up.old)) (outside (K.written link.new) (U.exchanges up.new) (U.faults up.new))) }
        ensures ends { IfDone result (λ why. (p : Place) (h : History) → Follows p self.new h → IsSession p h self.new.conn.rows (Some why)) }
        ensures caught_up { OnPending result ((¬ HasRisen (K.write_waits link.old) (K.write_waits link.new)) → (¬ HasRisen (U.waits up.old) (U.waits up.new))
            → (p : Place) (h : History) → Follows p self.new h → IsSession p h self.new.conn.rows None) }
        ensures used_up { OnPending result (HasNoMark (K.marks link.old) → HasNoMark (U.marks up.old)
            → IsUsedUp (K.left link.new) (K.end link.new) × ((p : Place) (h : History) → Follows p self.new h → IsSession p h self.new.conn.rows None)) }
        ensures going { OnPending result (CanGoOn self.new (U.at up.new)) }
        ensures idle { OnPending result (HasNoMark (K.marks link.old) → HasNoMark (U.marks up.old) → IsIdle self.new) }
        ensures over { OnGoing result (is_over self.new.conn.inlet ≡ true
            → (is_over self.old.conn.inlet ≡ true) ⊎ IfSome (K.end link.old) (λ told. IfSome (K.end link.new) (λ has_end. has_end ≡ true))) }
        ensures cause { IfFailed result (HasCause (K.faults link.old) (K.faults link.new)) }
        ensures waits { OnPending result (HasWaited cx.new (K.source link.new) (K.read_waits link.old) (K.read_waits link.new)
            ⊎ (HasWaited cx.new (K.source link.new) (K.write_waits link.old) (K.write_waits link.new)
            ⊎ HasWaited cx.new (U.source up.new) (U.waits up.old) (U.waits up.new))) }
        ensures pass { PassStays w.old w.new }
        ensures refused { CountsRefusedIn result w.old.pass.refused w.new.pass.refused }
        ensures link { LinkGoesOn K.PollLink link.old link.new }
        ensures up { UpstreamStays U.PollUpstream up.old up.new }
        ensures task { KeepsTask cx.old cx.new }
        ensures door { self.new.conn.door ≡ self.old.conn.door }
    {
        let mut taken = 0;
        'pieces: loop {
            match self.serve(w, cx, link, up, buffer) {
                Poll::Ready(Ok(Flow::More)) => {}
                Poll::Ready(Ok(Flow::Ended(why))) => return Poll::Ready(Ok(why)),
                Poll::Ready(Err(fault)) => return Poll::Ready(Err(fault)),
                Poll::Pending => return Poll::Pending,
            }
            match self.read(cx, link, buffer) {
                Poll::Ready(Ok(size)) => taken += size,
                Poll::Ready(Err(fault)) => return Poll::Ready(Err(fault)),
                Poll::Pending => return Poll::Pending,
            }
        }
    }

    // Reads the next bytes, of which none are their end, and takes them.
    fn read<K: PollLink>(
        &mut self,
        cx: &mut Context<'_>,
        link: &mut K,
        buffer: &mut [u8],
    ) -> Poll<Result<usize, ConnFault>>
        requires reading { self.old.stage ≡ Stage.Reading }
        requires going { (bytes : List ℕ) × IsGoing self.old bytes }
        requires any { 0 < length buffer.old }
        requires few { length buffer.old ≤ MOST_PIECE }
        ensures goes { OnGoing result ((w : PlainWorker) (p : Place) (h : History) (x : Option (List Exchange)) (f : ℕ) → Follows p self.old h
            → GoesTo no_call p w w self.new h (K.left link.old) (K.left link.new) (outside (K.written link.old) x f) (outside (K.written link.new) x f)) }
        ensures broke { OnFailed result ((w : PlainWorker) (p : Place) (h : History) (x : Option (List Exchange)) (f : ℕ) → Follows p self.old h
            → GivesUp no_call p w w self.new h (K.left link.old) (K.left link.new) (outside (K.written link.old) x f) (outside (K.written link.new) x f)) }
        ensures same { OnPending result (self.new ≡ self.old) }
        ensures going { IfDone result (λ size. (bytes : List ℕ) → IsGoing self.old bytes
            → (piece : List ℕ) × ((length piece ≡ size) × IsGoing self.new (bytes ++ piece))) }
        ensures stage { OnDone result (self.new.stage ≡ Stage.Turning) }
        ensures within { IfDone result (λ size. size ≤ length buffer.new) }
        ensures over { IfDone result (λ size. is_over self.new.conn.inlet ≡ (size == 0)) }
        ensures ends { result ≡ Poll.Ready (Ok 0) → IfSome (K.end link.new) (λ has_end. has_end ≡ true) }
        ensures cause { IfFailed result (HasCause (K.faults link.old) (K.faults link.new)) }
        ensures no_place { IfFailed result (λ fault. fault ≡ ConnFault.Place → ⊥) }
        ensures waits { OnPending result (HasWaited cx.new (K.source link.new) (K.read_waits link.old) (K.read_waits link.new)) }
        ensures ready { OnPending result (HasNoMark (K.marks link.old) → IsUsedUp (K.left link.new) (K.end link.new)) }
        ensures link { LinkGoesOn K.PollLink link.old link.new }
        ensures task { KeepsTask cx.old cx.new }
        ensures door { self.new.conn.door ≡ self.old.conn.door }
    {
        match link.poll_read(cx, buffer) {
            Poll::Ready(Ok(size)) => self.take(&buffer[..size]),
            Poll::Ready(Err(_)) => Poll::Ready(Err(ConnFault::Read)),
            Poll::Pending => Poll::Pending,
        }
    }

    // Serves all requests that are whole.
    fn serve<K: PollLink, U: PollUpstream>(
        &mut self,
        w: &mut Worker,
        cx: &mut Context<'_>,
        link: &mut K,
        up: &mut U,
        buffer: &mut [u8],
    ) -> Poll<Result<Flow, ConnFault>>
        requires door { self.old.conn.door < length w.old.pass.fixed.0 }
        requires going { CanGoOn self.old (U.at up.old) }
        requires any { 0 < length buffer.old }
        requires few { length buffer.old ≤ MOST_PIECE }
        ensures goes { OnGoing result ((p : Place) (h : History) → IsAt w.old p → Follows p self.old h
            → GoesTo (U.refuses up.old up.new) p w.old w.new self.new h (K.left link.old) (K.left link.new)
            (outside (K.written link.old) (U.exchanges up.old) (U.faults up.old)) (outside (K.written link.new) (U.exchanges up.new) (U.faults up.new))) }
        ensures broke { OnFailed result ((p : Place) (h : History) → IsAt w.old p → Follows p self.old h
            → GivesUp (U.refuses up.old up.new) p w.old w.new self.new h (K.left link.old) (K.left link.new)
            (outside (K.written link.old) (U.exchanges up.old) (U.faults up.old)) (outside (K.written link.new) (U.exchanges up.new) (U.faults up.new))) }
        ensures going { OnGoing result ((bytes : List ℕ) → IsGoing self.old bytes → IsGoing self.new bytes) }
        ensures held { OnGoing result (IsHeld self.new.stage (U.at up.new)) }
        ensures over { is_over self.new.conn.inlet ≡ is_over self.old.conn.inlet }
        ensures cause { IfFailed result (HasCause (K.faults link.old) (K.faults link.new)) }
        ensures waits { OnPending result (HasWaited cx.new (K.source link.new) (K.write_waits link.old) (K.write_waits link.new)
            ⊎ HasWaited cx.new (U.source up.new) (U.waits up.old) (U.waits up.new)) }
        ensures ready { OnPending result (HasNoMark (K.marks link.old) → ¬ HasNoMark (U.marks up.old)) }
        ensures more { result ≡ Poll.Ready (Ok Flow.More) → self.new.stage ≡ Stage.Reading }
        ensures ended { IfDone result (λ flow. (why : Ended) → flow ≡ Flow.Ended why → (self.new.stage ≡ Stage.Turning) × (self.new.conn.stage ≡ HasEnded why)) }
        ensures pass { PassStays w.old w.new }
        ensures refused { CountsRefusedIn result w.old.pass.refused w.new.pass.refused }
        ensures link { LinkStays K.PollLink link.old link.new }
        ensures up { UpstreamStays U.PollUpstream up.old up.new }
        ensures task { KeepsTask cx.old cx.new }
        ensures door { self.new.conn.door ≡ self.old.conn.door }
    {
        'turns: loop {
            match self.turn(w, cx, link, up, buffer) {
                Poll::Ready(Ok(None)) => {}
                Poll::Ready(Ok(Some(flow))) => return Poll::Ready(Ok(flow)),
                Poll::Ready(Err(fault)) => return Poll::Ready(Err(fault)),
                Poll::Pending => return Poll::Pending,
            }
        }
    }

    // One step. None: there is more to do.
    fn turn<K: PollLink, U: PollUpstream>(
        &mut self,
        w: &mut Worker,
        cx: &mut Context<'_>,
        link: &mut K,
        up: &mut U,
        buffer: &mut [u8],
    ) -> Poll<Result<Option<Flow>, ConnFault>>
        requires door { self.old.conn.door < length w.old.pass.fixed.0 }
        requires going { CanGoOn self.old (U.at up.old) }
        requires any { 0 < length buffer.old }
        requires few { length buffer.old ≤ MOST_PIECE }
        ensures goes { OnGoing result ((p : Place) (h : History) → IsAt w.old p → Follows p self.old h
            → GoesTo (U.refuses up.old up.new) p w.old w.new self.new h (K.left link.old) (K.left link.new)
            (outside (K.written link.old) (U.exchanges up.old) (U.faults up.old)) (outside (K.written link.new) (U.exchanges up.new) (U.faults up.new))) }
        ensures broke { OnFailed result ((p : Place) (h : History) → IsAt w.old p → Follows p self.old h
            → GivesUp (U.refuses up.old up.new) p w.old w.new self.new h (K.left link.old) (K.left link.new)
            (outside (K.written link.old) (U.exchanges up.old) (U.faults up.old)) (outside (K.written link.new) (U.exchanges up.new) (U.faults up.new))) }
        ensures going { OnGoing result ((bytes : List ℕ) → IsGoing self.old bytes → IsGoing self.new bytes) }
        ensures held { OnGoing result (IsHeld self.new.stage (U.at up.new)) }
        ensures over { is_over self.new.conn.inlet ≡ is_over self.old.conn.inlet }
        ensures cause { IfFailed result (HasCause (K.faults link.old) (K.faults link.new)) }
        ensures waits { OnPending result (HasWaited cx.new (K.source link.new) (K.write_waits link.old) (K.write_waits link.new)
            ⊎ HasWaited cx.new (U.source up.new) (U.waits up.old) (U.waits up.new)) }
        ensures ready { OnPending result (HasNoMark (K.marks link.old) → ¬ HasNoMark (U.marks up.old)) }
        ensures more { result ≡ Poll.Ready (Ok (Some Flow.More)) → self.new.stage ≡ Stage.Reading }
        ensures ended { IfDone result (λ flow. (why : Ended) → flow ≡ Some (Flow.Ended why) → (self.new.stage ≡ Stage.Turning) × (self.new.conn.stage ≡ HasEnded why)) }
        ensures fewer { result ≡ Poll.Ready (Ok None) → (bytes : List ℕ) → IsGoing self.old bytes → steps_left self.new < steps_left self.old }
        ensures pass { PassStays w.old w.new }
        ensures refused { CountsRefusedIn result w.old.pass.refused w.new.pass.refused }
        ensures link { LinkStays K.PollLink link.old link.new }
        ensures up { UpstreamStays U.PollUpstream up.old up.new }
        ensures task { KeepsTask cx.old cx.new }
        ensures door { self.new.conn.door ≡ self.old.conn.door }
    {
        match mem::replace(&mut self.stage, Stage::Turning) {
            Stage::Turning => self.next(w),
            Stage::Reading => {
                self.stage = Stage::Reading;
                Poll::Ready(Ok(Some(Flow::More)))
            }
            Stage::Writing(text, at) => self.write(cx, link, text, at),
            Stage::Exchanging(exchange) => self.exchange(w, cx, up, exchange, buffer),
        }
    }

    // What the connection does next.
    fn next(&mut self, w: &mut Worker) -> Poll<Result<Option<Flow>, ConnFault>>
        requires door { self.old.conn.door < length w.old.pass.fixed.0 }
        requires turning { self.old.stage ≡ Stage.Turning }
        requires going { (bytes : List ℕ) × IsGoing self.old bytes }
        ensures goes { OnDone result ((p : Place) (h : History) → IsAt w.old p → Follows p self.old h
            → (left : Option (List ℕ)) (o : Outside) → GoesTo no_call p w.old w.new self.new h left left o o) }
        ensures broke { OnFailed result ((p : Place) (h : History) → IsAt w.old p → Follows p self.old h
            → (left : Option (List ℕ)) (o : Outside) → GivesUp no_call p w.old w.new self.new h left left o o) }
        ensures ready { result ≡ Poll.Pending → ⊥ }
        ensures going { OnDone result ((bytes : List ℕ) → IsGoing self.old bytes → IsGoing self.new bytes) }
        ensures held { OnDone result ((at : Option Address) → IsHeld self.new.stage at) }
        ensures over { is_over self.new.conn.inlet ≡ is_over self.old.conn.inlet }
        ensures more { result ≡ Poll.Ready (Ok (Some Flow.More)) → self.new.stage ≡ Stage.Reading }
        ensures ended { IfDone result (λ flow. (why : Ended) → flow ≡ Some (Flow.Ended why) → (self.new.stage ≡ Stage.Turning) × (self.new.conn.stage ≡ HasEnded why)) }
        ensures fewer { result ≡ Poll.Ready (Ok None) → (bytes : List ℕ) → IsGoing self.old bytes → steps_left self.new < steps_left self.old }
        ensures cause { IfFailed result (λ fault. (fault ≡ ConnFault.Read → ⊥) × (fault ≡ ConnFault.Write → ⊥)) }
        ensures pass { PassStays w.old w.new }
        ensures refused { CountsRefusedIn result w.old.pass.refused w.new.pass.refused }
        ensures door { self.new.conn.door ≡ self.old.conn.door }
    {
        match self.conn.next(w) {
            Ok(turn) => Poll::Ready(Ok(self.begin(turn))),
            Err(fault) => Poll::Ready(Err(ConnFault::from(fault))),
        }
    }

    // Begins what a turn asks for.
    fn begin(&mut self, turn: Turn) -> Option<Flow>
        ensures begun { HasBegun turn self.old self.new result }
        ensures conn { self.new.conn ≡ self.old.conn }
    {
        match turn {
            Turn::Need => {
                self.stage = Stage::Reading;
                Some(Flow::More)
            }
            Turn::Ended(why) => Some(Flow::Ended(why)),
            Turn::Write(text) => {
                self.stage = Stage::Writing(text, 0);
                None
            }
            Turn::Exchange(to, bytes, head) => {
                let exchange = PolledExchange::new(self.alloc, to, bytes, head);
                self.stage = Stage::Exchanging(exchange);
                None
            }
        }
    }

    // Writes on with the text, of which the first `at` bytes are written.
    fn write<K: PollLink>(
        &mut self,
        cx: &mut Context<'_>,
        link: &mut K,
        text: Text,
        at: usize,
    ) -> Poll<Result<Option<Flow>, ConnFault>>
        requires going { (bytes : List ℕ) × IsGoing (record self.old { stage = Stage.Writing text at }) bytes }
        ensures goes { OnGoing result ((w : PlainWorker) (p : Place) (h : History) (x : Option (List Exchange)) (f : ℕ)
            → Follows p (record self.old { stage = Stage.Writing text at }) h
            → GoesTo no_call p w w self.new h (K.left link.old) (K.left link.new) (outside (K.written link.old) x f) (outside (K.written link.new) x f)) }
        ensures broke { OnFailed result ((w : PlainWorker) (p : Place) (h : History) (x : Option (List Exchange)) (f : ℕ)
            → Follows p (record self.old { stage = Stage.Writing text at }) h
            → GivesUp no_call p w w self.new h (K.left link.old) (K.left link.new) (outside (K.written link.old) x f) (outside (K.written link.new) x f)) }
        ensures going { OnGoing result ((bytes : List ℕ) → IsGoing (record self.old { stage = Stage.Writing text at }) bytes → IsGoing self.new bytes) }
        ensures held { OnGoing result ((a : Option Address) → IsHeld self.new.stage a) }
        ensures conn { self.new.conn ≡ self.old.conn }
        ensures done { IfDone result (λ flow. (flow ≡ None) × (self.new.stage ≡ Stage.Turning)) }
        ensures cause { IfFailed result (λ fault. (fault ≡ ConnFault.Write) × HasRisen (K.faults link.old) (K.faults link.new)) }
        ensures waits { OnPending result (HasWaited cx.new (K.source link.new) (K.write_waits link.old) (K.write_waits link.new)) }
        ensures ready { OnPending result (¬ HasNoMark (K.marks link.old)) }
        ensures link { LinkStays K.PollLink link.old link.new }
        ensures task { KeepsTask cx.old cx.new }
    {
        let mut at = at;
        match write_on(link, cx, text.bytes(), &mut at) {
            Poll::Ready(Ok(())) => {
                self.stage = Stage::Turning;
                Poll::Ready(Ok(None))
            }
            Poll::Ready(Err(_)) => Poll::Ready(Err(ConnFault::Write)),
            Poll::Pending => {
                self.stage = Stage::Writing(text, at);
                Poll::Pending
            }
        }
    }

    // Goes on with the exchange, and has the reply written where it is over.
    fn exchange<U: PollUpstream>(
        &mut self,
        w: &mut Worker,
        cx: &mut Context<'_>,
        up: &mut U,
        exchange: PolledExchange,
        buffer: &mut [u8],
    ) -> Poll<Result<Option<Flow>, ConnFault>>
        requires door { self.old.conn.door < length w.old.pass.fixed.0 }
        requires going { (bytes : List ℕ) × IsGoing (record self.old { stage = Stage.Exchanging exchange }) bytes }
        requires held { IsJoined exchange.stage (U.at up.old) exchange.to }
        requires any { 0 < length buffer.old }
        requires few { length buffer.old ≤ MOST_PIECE }
        ensures goes { OnGoing result ((p : Place) (h : History) (left written : Option (List ℕ)) → Follows p (record self.old { stage = Stage.Exchanging exchange }) h
            → GoesTo (U.refuses up.old up.new) p w.old w.old self.new h left left
            (outside written (U.exchanges up.old) (U.faults up.old)) (outside written (U.exchanges up.new) (U.faults up.new))) }
        ensures broke { OnFailed result ((p : Place) (h : History) (left written : Option (List ℕ)) → Follows p (record self.old { stage = Stage.Exchanging exchange }) h
            → GivesUp (U.refuses up.old up.new) p w.old w.old self.new h left left
            (outside written (U.exchanges up.old) (U.faults up.old)) (outside written (U.exchanges up.new) (U.faults up.new))) }
        ensures worker { w.new ≡ w.old }
        ensures going { OnGoing result ((bytes : List ℕ) → IsGoing (record self.old { stage = Stage.Exchanging exchange }) bytes → IsGoing self.new bytes) }
        ensures held { OnGoing result (IsHeld self.new.stage (U.at up.new)) }
        ensures inlet { self.new.conn.inlet ≡ self.old.conn.inlet }
        ensures done { IfDone result (λ flow. flow ≡ None) }
        ensures fewer { OnDone result ((bytes : List ℕ) → IsGoing (record self.old { stage = Stage.Exchanging exchange }) bytes → steps_left self.new < steps_left (record self.old { stage = Stage.Exchanging exchange })) }
        ensures cause { IfFailed result (λ fault. fault ≡ ConnFault.NoMemory) }
        ensures waits { OnPending result (HasWaited cx.new (U.source up.new) (U.waits up.old) (U.waits up.new)) }
        ensures ready { OnPending result (¬ HasNoMark (U.marks up.old)) }
        ensures up { UpstreamStays U.PollUpstream up.old up.new }
        ensures task { KeepsTask cx.old cx.new }
        ensures door { self.new.conn.door ≡ self.old.conn.door }
    {
        let mut exchange = exchange;
        match exchange.poll(up, cx, buffer) {
            Poll::Ready(Ok(response)) => self.answer(w, Ok(response)),
            Poll::Ready(Err(ExchangeFault::Backend(fault))) => self.answer(w, Err(fault)),
            Poll::Ready(Err(ExchangeFault::NoMemory)) => Poll::Ready(Err(ConnFault::NoMemory)),
            Poll::Pending => {
                self.stage = Stage::Exchanging(exchange);
                Poll::Pending
            }
        }
    }

    // Has the reply written for what the backend answered.
    fn answer(
        &mut self,
        w: &mut Worker,
        answer: Result<Response, BackendFault>,
    ) -> Poll<Result<Option<Flow>, ConnFault>>
        requires door { self.old.conn.door < length w.old.pass.fixed.0 }
        requires asking { IsAsking self.old.conn.stage }
        ensures replied { OnDone result ((p : Place) (bytes : List ℕ) (parts : List Part) (text : List ℕ) → StandsFor self.old.conn p bytes parts text
            → IsReplied p self.new.conn self.new.stage bytes (change_last (with_answer answer) parts) text) }
        ensures rows { OnFailed result (self.new.conn.rows ≡ self.old.conn.rows) }
        ensures worker { w.new ≡ w.old }
        ensures ready { result ≡ Poll.Pending → ⊥ }
        ensures writing { OnDone result ((text : List ℕ) × (self.new.stage ≡ Stage.Writing text 0)) }
        ensures settled { OnDone result (IsSettled self.new.conn.stage) }
        ensures held { OnDone result ((at : Option Address) → IsHeld self.new.stage at) }
        ensures inlet { self.new.conn.inlet ≡ self.old.conn.inlet }
        ensures done { IfDone result (λ flow. flow ≡ None) }
        ensures fewer { OnDone result ((bytes : List ℕ) → IsFed self.old.conn bytes → steps_left self.new < 2 * turns_left self.old.conn + 1) }
        ensures cause { IfFailed result (λ fault. fault ≡ ConnFault.NoMemory) }
        ensures door { self.new.conn.door ≡ self.old.conn.door }
    {
        self.conn.answer(answer);
        match self.conn.next(w) {
            Ok(turn) => Poll::Ready(Ok(self.begin(turn))),
            Err(fault) => Poll::Ready(Err(ConnFault::from(fault))),
        }
    }

    // Takes a piece that was read, of which an empty one is the end.
    fn take(&mut self, piece: &[u8]) -> Poll<Result<usize, ConnFault>>
        requires reading { self.old.stage ≡ Stage.Reading }
        requires going { (bytes : List ℕ) × IsGoing self.old bytes }
        ensures fed { OnDone result ((p : Place) (bytes : List ℕ) (parts : List Part) (text : List ℕ) → StandsFor self.old.conn p bytes parts text
            → StandsFor self.new.conn p (bytes ++ piece.now) parts text) }
        ensures err { OnFailed result ((p : Place) (bytes : List ℕ) (parts : List Part) (text : List ℕ) → StandsFor self.old.conn p bytes parts text
            → StandsFor self.new.conn p bytes parts text) }
        ensures rows { self.new.conn.rows ≡ self.old.conn.rows }
        ensures going { OnDone result ((bytes : List ℕ) → IsGoing self.old bytes → IsGoing self.new (bytes ++ piece.now)) }
        ensures stage { OnDone result (self.new.stage ≡ Stage.Turning) }
        ensures size { IfDone result (λ size. size ≡ length piece.now) }
        ensures over { OnDone result (is_over self.new.conn.inlet ≡ (length piece.now == 0)) }
        ensures ready { result ≡ Poll.Pending → ⊥ }
        ensures cause { IfFailed result (λ fault. fault ≡ ConnFault.NoMemory) }
        ensures door { self.new.conn.door ≡ self.old.conn.door }
    {
        match self.conn.feed(piece) {
            Ok(()) => {
                self.stage = Stage::Turning;
                Poll::Ready(Ok(piece.len()))
            }
            Err(_) => Poll::Ready(Err(ConnFault::NoMemory)),
        }
    }
}

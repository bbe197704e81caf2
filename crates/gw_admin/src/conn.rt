//! A connection: what its bytes ask, and what is replied.
ghost use Rattle.std.specs.Prelude.{◌≡◌, ◌+◌, ◌<◌, ◌≤◌, ◌∷◌, ◌++◌, ◌==◌, ◌⊎◌, [], ℕ, List, false, true, length, map, None, Some, IfOk, IfErr, OnOk, OnErr};
ghost use Rattle.gw_frames.specs.Inlets.{is_over, steps_left};
ghost use Rattle.gw_frames.specs.model.Requests.{an_ask, an_end, ended};
ghost use Rattle.gw_link.specs.Faults.{HasRisen};
ghost use Rattle.gw_link.specs.Pieces.{Keeps, Takes, TakesPart};
ghost use Rattle.gw_lists.specs.Lists.{BeginsWith};
ghost use Rattle.gw_replies.specs.model.Written.{own};
ghost use Rattle.gw_admin.specs.Answering.{IsReplied, TicksAtMostOnce, place_of};
ghost use Rattle.gw_admin.specs.Conns.{BrokeOff, IsBehind, IsReading, IsServing, Turned, outside};
ghost use Rattle.gw_admin.specs.Faults.{CountsAnswer, CountsNothing, IsCause};
ghost use Rattle.gw_admin.specs.model.Sessions.{Part, step_of};

use crate::answer::answer;
use crate::fault::AdminFault;
use gw_frames::{Ended, Inlet, Request, Step, end_behind};
use gw_hub::{Hub, HubName};
use gw_link::{Clock, Link, write_whole};
use gw_match::Tables;
use gw_replies::write_own;
use gw_snap::Pass;
use gw_text::{NoMemory, Text};
use std::alloc::Global;
use std::sync::Wait;

const CONTINUE: &[u8] = b"HTTP/1.1 100 Continue\r\n\r\n";

/// A client's connection.
#[derive(Drop)]
pub(crate) struct Conn {
    alloc: Global,
    inlet: Inlet,
    /// How many requests were answered.
    pub(crate) asks: usize,
}

/// How far a connection came.
#[derive(Clone, Copy, Debug, PartialEq, Eq)]
pub(crate) enum Flow {
    /// More bytes are needed.
    More,
    /// It ended.
    Ended(Ended),
}

impl Conn {
    /// A connection of which no byte came yet.
    pub(crate) fn new(alloc: Global) -> Conn
        ensures reading { IsReading result [] [] }
        ensures unfinished { is_over result.inlet ≡ false }
        ensures few { result.asks + steps_left result.inlet ≤ 2000 }
    {
        Conn {
            alloc,
            inlet: Inlet::new(alloc),
            asks: 0,
        }
    }

    /// Takes the next bytes, of which an empty piece is the end, and answers all requests that are whole.
    pub(crate) fn take<N: HubName, R: Wait + Drop, C: Clock, K: Link, W: Wait>(
        &mut self,
        rt: &W,
        hub: &Hub<N, R>,
        pass: &mut Pass<Tables>,
        clock: &mut C,
        piece: &[u8],
        link: &mut K,
    ) -> Result<Flow, AdminFault>
        requires serving { IsServing self.old }
        requires unfinished { is_over self.old.inlet ≡ false }
        requires book { pass.old.book ≡ N.book }
        requires fixed { pass.old.fixed ≡ (N.doors, N.controller) }
        ensures turned { IfOk result (λ flow. (bytes : List ℕ) (parts : List Part) → IsReading self.old bytes parts
            → Turned (place_of N.doors N.controller) self.new (length piece.now == 0) (bytes ++ piece.now) parts
            (outside pass.old.seen (C.moments clock.old) (K.written link.old)) (outside pass.new.seen (C.moments clock.new) (K.written link.new)) (Some flow)) }
        ensures broke { OnErr result ((bytes : List ℕ) (parts : List Part) → IsReading self.old bytes parts
            → BrokeOff (place_of N.doors N.controller) self.new (bytes ++ piece.now) parts
            (outside pass.old.seen (C.moments clock.old) (K.written link.old)) (outside pass.new.seen (C.moments clock.new) (K.written link.new))) }
        ensures serving { result ≡ Ok Flow.More → IsServing self.new }
        ensures over { OnOk result (is_over self.new.inlet ≡ (length piece.now == 0)) }
        ensures counts { OnOk result (CountsNothing pass.old pass.new) }
        ensures cause { IfErr result (λ fault. IsCause fault pass.old pass.new (K.faults link.old) (K.faults link.new)) }
        ensures unread { Keeps (K.left link.old) (K.left link.new) }
        ensures link_later { K.faults link.old ≤ K.faults link.new }
        ensures later { BeginsWith pass.old.seen pass.new.seen }
        ensures book { pass.new.book ≡ pass.old.book }
        ensures fixed { pass.new.fixed ≡ pass.old.fixed }
    {
        self.feed(piece)?;
        self.turns(rt, hub, pass, clock, link)
    }

    fn feed(&mut self, piece: &[u8]) -> Result<(), NoMemory>
        requires { is_over self.old.inlet ≡ false }
        ensures fed { OnOk result ((bytes : List ℕ) (parts : List Part) → IsReading self.old bytes parts → IsReading self.new (bytes ++ piece.now) parts) }
        ensures over { OnOk result (is_over self.new.inlet ≡ (length piece.now == 0)) }
        ensures err { OnErr result ((bytes : List ℕ) (parts : List Part) → IsReading self.old bytes parts → IsReading self.new bytes parts) }
        ensures left { OnOk result (steps_left self.new.inlet ≡ steps_left self.old.inlet) }
        ensures asks { self.new.asks ≡ self.old.asks }
    {
        if piece.is_empty() {
            self.inlet.finish();
            return Ok(());
        }
        self.inlet.feed(piece)
    }

    // Answers all requests that are whole.
    fn turns<N: HubName, R: Wait + Drop, C: Clock, K: Link, W: Wait>(
        &mut self,
        rt: &W,
        hub: &Hub<N, R>,
        pass: &mut Pass<Tables>,
        clock: &mut C,
        link: &mut K,
    ) -> Result<Flow, AdminFault>
        requires serving { IsServing self.old }
        requires book { pass.old.book ≡ N.book }
        requires fixed { pass.old.fixed ≡ (N.doors, N.controller) }
        ensures turned { IfOk result (λ flow. (bytes : List ℕ) (parts : List Part) → IsReading self.old bytes parts
            → Turned (place_of N.doors N.controller) self.new (is_over self.new.inlet) bytes parts
            (outside pass.old.seen (C.moments clock.old) (K.written link.old)) (outside pass.new.seen (C.moments clock.new) (K.written link.new)) (Some flow)) }
        ensures broke { OnErr result ((bytes : List ℕ) (parts : List Part) → IsReading self.old bytes parts
            → BrokeOff (place_of N.doors N.controller) self.new bytes parts
            (outside pass.old.seen (C.moments clock.old) (K.written link.old)) (outside pass.new.seen (C.moments clock.new) (K.written link.new))) }
        ensures serving { result ≡ Ok Flow.More → IsServing self.new }
        ensures over { is_over self.new.inlet ≡ is_over self.old.inlet }
        ensures counts { OnOk result (CountsNothing pass.old pass.new) }
        ensures cause { IfErr result (λ fault. IsCause fault pass.old pass.new (K.faults link.old) (K.faults link.new)) }
        ensures unread { Keeps (K.left link.old) (K.left link.new) }
        ensures link_later { K.faults link.old ≤ K.faults link.new }
        ensures later { BeginsWith pass.old.seen pass.new.seen }
        ensures book { pass.new.book ≡ pass.old.book }
        ensures fixed { pass.new.fixed ≡ pass.old.fixed }
    {
        'turns: loop {
            if let Some(flow) = self.turn(rt, hub, pass, clock, link)? {
                return Ok(flow);
            }
        }
    }

    // What the bytes give next, and what is written for that. None: there is more to do.
    fn turn<N: HubName, R: Wait + Drop, C: Clock, K: Link, W: Wait>(
        &mut self,
        rt: &W,
        hub: &Hub<N, R>,
        pass: &mut Pass<Tables>,
        clock: &mut C,
        link: &mut K,
    ) -> Result<Option<Flow>, AdminFault>
        requires serving { IsServing self.old }
        requires book { pass.old.book ≡ N.book }
        requires fixed { pass.old.fixed ≡ (N.doors, N.controller) }
        ensures turned { IfOk result (λ flow. (bytes : List ℕ) (parts : List Part) → IsReading self.old bytes parts
            → Turned (place_of N.doors N.controller) self.new (is_over self.new.inlet) bytes parts
            (outside pass.old.seen (C.moments clock.old) (K.written link.old)) (outside pass.new.seen (C.moments clock.new) (K.written link.new)) flow) }
        ensures broke { OnErr result ((bytes : List ℕ) (parts : List Part) → IsReading self.old bytes parts
            → BrokeOff (place_of N.doors N.controller) self.new bytes parts
            (outside pass.old.seen (C.moments clock.old) (K.written link.old)) (outside pass.new.seen (C.moments clock.new) (K.written link.new))) }
        ensures fewer { result ≡ Ok None → steps_left self.new.inlet < steps_left self.old.inlet }
        ensures few { OnOk result (self.new.asks + steps_left self.new.inlet ≤ 2000) }
        ensures over { is_over self.new.inlet ≡ is_over self.old.inlet }
        ensures counts { OnOk result (CountsNothing pass.old pass.new) }
        ensures cause { IfErr result (λ fault. IsCause fault pass.old pass.new (K.faults link.old) (K.faults link.new)) }
        ensures unread { Keeps (K.left link.old) (K.left link.new) }
        ensures link_later { K.faults link.old ≤ K.faults link.new }
        ensures later { BeginsWith pass.old.seen pass.new.seen }
        ensures book { pass.new.book ≡ pass.old.book }
        ensures fixed { pass.new.fixed ≡ pass.old.fixed }
    {
        match self.inlet.next()? {
            Step::Need => Ok(Some(Flow::More)),
            Step::Continue => {
                write(link, CONTINUE)?;
                Ok(None)
            }
            Step::Ask(request) => {
                self.reply(rt, hub, pass, clock, link, &request)?;
                Ok(None)
            }
            Step::Bad(code) => {
                refuse(self.alloc, link, code)?;
                Ok(Some(Flow::Ended(Ended::Refused(code))))
            }
            Step::End => Ok(Some(Flow::Ended(self.ended_or(Ended::Closed)))),
            Step::Truncated => Ok(Some(Flow::Ended(Ended::Truncated))),
        }
    }

    // The end that the bytes tell, or this one where they don't.
    fn ended_or(&self, other: Ended) -> Ended
        ensures { (bytes : List ℕ) (parts : List Part) → IsBehind self.now bytes parts an_end → ended (map step_of parts ++ an_end ∷ []) ≡ Some result }
    {
        self.inlet.ended().unwrap_or(other)
    }

    // Answers the request.
    fn reply<N: HubName, R: Wait + Drop, C: Clock, K: Link, W: Wait>(
        &mut self,
        rt: &W,
        hub: &Hub<N, R>,
        pass: &mut Pass<Tables>,
        clock: &mut C,
        link: &mut K,
        request: &Request,
    ) -> Result<(), AdminFault>
        requires few { self.old.asks < 2000 }
        requires book { pass.old.book ≡ N.book }
        requires fixed { pass.old.fixed ≡ (N.doors, N.controller) }
        ensures turned { OnOk result ((bytes : List ℕ) (parts : List Part) → IsBehind self.old bytes parts (an_ask request.now)
            → Turned (place_of N.doors N.controller) self.new (is_over self.new.inlet) bytes parts
            (outside pass.old.seen (C.moments clock.old) (K.written link.old)) (outside pass.new.seen (C.moments clock.new) (K.written link.new)) None) }
        ensures broke { OnErr result ((bytes : List ℕ) (parts : List Part) → IsBehind self.old bytes parts (an_ask request.now)
            → BrokeOff (place_of N.doors N.controller) self.new bytes parts
            (outside pass.old.seen (C.moments clock.old) (K.written link.old)) (outside pass.new.seen (C.moments clock.new) (K.written link.new))) }
        ensures inlet { self.new.inlet ≡ self.old.inlet }
        ensures asks { OnOk result (self.new.asks ≡ self.old.asks + 1) }
        ensures counts { OnOk result (CountsNothing pass.old pass.new) }
        ensures cause { IfErr result (λ fault. IsCause fault pass.old pass.new (K.faults link.old) (K.faults link.new)) }
        ensures unread { Keeps (K.left link.old) (K.left link.new) }
        ensures link_later { K.faults link.old ≤ K.faults link.new }
        ensures later { BeginsWith pass.old.seen pass.new.seen }
        ensures book { pass.new.book ≡ pass.old.book }
        ensures fixed { pass.new.fixed ≡ pass.old.fixed }
    {
        let number = self.asks + 1;
        let text = reply_text(rt, self.alloc, hub, pass, clock, request, number)?;
        self.asks = number;
        write(link, text.bytes())
    }
}

// The reply to the request of this number on its connection, as it is written.
fn reply_text<N: HubName, R: Wait + Drop, C: Clock, W: Wait>(
    rt: &W,
    alloc: Global,
    hub: &Hub<N, R>,
    pass: &mut Pass<Tables>,
    clock: &mut C,
    request: &Request,
    number: usize,
) -> Result<Text, AdminFault>
    requires book { pass.old.book ≡ N.book }
    requires fixed { pass.old.fixed ≡ (N.doors, N.controller) }
    ensures replied { IfOk result (λ text. IsReplied (place_of N.doors N.controller) number request.now text pass.old.seen pass.new.seen (C.moments clock.old) (C.moments clock.new)) }
    ensures asked { TicksAtMostOnce (C.moments clock.old) (C.moments clock.new) }
    ensures counts { CountsAnswer result pass.old pass.new }
    ensures later { BeginsWith pass.old.seen pass.new.seen }
    ensures book { pass.new.book ≡ pass.old.book }
    ensures fixed { pass.new.fixed ≡ pass.old.fixed }
{
    let reply = answer(rt, alloc, hub, pass, clock, request)?;
    let last = end_behind(number, request).is_some();
    Ok(reply.write(alloc, last)?)
}

// Writes the reply of a refusal, behind which the connection ends.
fn refuse<K: Link>(alloc: Global, link: &mut K, code: u16) -> Result<(), AdminFault>
    ensures ok { OnOk result (Takes (K.written link.old) (own code None None true) (K.written link.new)) }
    ensures err { OnErr result (TakesPart (K.written link.old) (own code None None true) (K.written link.new)) }
    ensures cause { IfErr result (λ fault. (fault ≡ AdminFault.NoMemory) ⊎ ((fault ≡ AdminFault.Write) × HasRisen (K.faults link.old) (K.faults link.new))) }
    ensures unread { Keeps (K.left link.old) (K.left link.new) }
    ensures later { K.faults link.old ≤ K.faults link.new }
{
    let text = write_own(alloc, code, None, None, true)?;
    write(link, text.bytes())
}

fn write<K: Link>(link: &mut K, text: &[u8]) -> Result<(), AdminFault>
    ensures ok { OnOk result (Takes (K.written link.old) text.now (K.written link.new)) }
    ensures err { OnErr result (TakesPart (K.written link.old) text.now (K.written link.new)) }
    ensures cause { IfErr result (λ fault. (fault ≡ AdminFault.Write) × HasRisen (K.faults link.old) (K.faults link.new)) }
    ensures unread { Keeps (K.left link.old) (K.left link.new) }
    ensures later { K.faults link.old ≤ K.faults link.new }
{
    match write_whole(link, text) {
        Ok(()) => Ok(()),
        Err(_) => Err(AdminFault::Write),
    }
}

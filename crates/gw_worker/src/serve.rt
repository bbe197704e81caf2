//! Connections over links: requests are served as they are read, and replies are written.
ghost use Rattle.std.specs.Prelude.{◌≡◌, ◌<◌, ◌≤◌, ℕ, List, length, take, IfOk, IfErr, OnOk, OnErr, ◌==◌, ◌++◌, ◌∷◌, [], false, None, Some};
ghost use Rattle.gw_link.specs.Faults.{HasRisen};
ghost use Rattle.gw_link.specs.Pieces.{Gives, IsAtEnd, Keeps, Takes, TakesPart};
ghost use Rattle.gw_snap.specs.Lists.{BeginsWith};
ghost use Rattle.gw_worker.specs.Conns.{IsServing, StandsFor, GoesOn, IsAsking, IsFed, IsSettled, IsUnfinished, turns_left, with_answer};
ghost use Rattle.gw_worker.specs.Faults.{CountsRefused};
ghost use Rattle.gw_worker.specs.Flows.{outside, BrokeOff, IsUnwritten, Meets, Replied, Served, TellsOne, TookTo};
ghost use Rattle.gw_worker.specs.Links.{HasBroken, HasServed, Ran, Stopped};
ghost use Rattle.gw_worker.specs.Stays.{LinkStays, PassStays, UpstreamStays};
ghost use Rattle.gw_worker.specs.Workers.{IsAt};
ghost use Rattle.gw_worker.specs.model.Sessions.{Part, Place};
ghost use Rattle.gw_frames.specs.Inlets.{is_over};
ghost use Rattle.gw_link.specs.Exchanges.{change_last};
ghost use Rattle.gw_message_laws.specs.declared.requests.TheConstants.{MOST_OPEN_BYTES};

use crate::conn::{Conn, Stage, Turn};
use crate::worker::Worker;
use gw_answers::ServedRow;
use gw_exchange::{ExchangeFault, exchange};
use gw_frames::Ended;
use gw_link::{Link, Upstream, write_whole};
use gw_replies::{BackendFault, Response};
use gw_snap::OpenFault;
use gw_text::{List, NoMemory, Socket, Text};
use std::alloc::Global;

/// The most bytes that one read is asked for.
const MOST_PIECE: usize = 65_536;

/// How many bytes a read is asked for where no body is read: the most that a head has.
const HEAD_PIECE: usize = 16_384;

/// A connection that was served to its end.
#[derive(Drop)]
pub struct Session {
    pub rows: List<ServedRow>,
    pub ended: Ended,
}

/// A connection that was given up, and the rows of the requests whose replies were made.
#[derive(Drop)]
pub struct Broken {
    pub rows: List<ServedRow>,
    pub fault: ConnFault,
}

/// How far a connection came.
#[derive(Clone, Copy, Debug, PartialEq, Eq)]
pub enum Flow {
    /// More bytes are needed.
    More,
    /// It ended.
    Ended(Ended),
}

/// Why a connection was given up.
#[derive(Clone, Copy, Debug, PartialEq, Eq)]
pub enum ConnFault {
    /// A read of the link failed.
    Read,
    /// A write of the link failed.
    Write,
    /// The pass had no place to read from.
    Place,
    NoMemory,
}

impl From<NoMemory> for ConnFault {
    ghost use Rattle.std.specs.Prelude.{◌≡◌};
    ghost use Rattle.gw_worker.specs.declared.serve.ConnFault.TheVariants.{NoMemory as OutOfMemory};

    ghost from_gives = { λ _ fault. fault ≡ OutOfMemory };

    fn from(_: NoMemory) -> Self {
        ConnFault::NoMemory
    }
}

impl From<OpenFault> for ConnFault {
    ghost use Rattle.std.specs.Prelude.{◌≡◌};
    ghost use Rattle.gw_worker.specs.Faults.{of_open};

    ghost from_gives = { λ refused fault. fault ≡ of_open refused };

    fn from(fault: OpenFault) -> Self {
        match fault {
            OpenFault::Place => ConnFault::Place,
            OpenFault::NoMemory => ConnFault::NoMemory,
        }
    }
}

/// Serves the connection of a link at the door of this number, to its end.
pub fn serve_proxy<K: Link, U: Upstream>(
    alloc: Global,
    w: &mut Worker,
    door: usize,
    link: &mut K,
    up: &mut U,
) -> Result<Session, Broken>
    requires { door < length w.old.pass.fixed.0 }
    ensures served { IfOk result (λ session. (p : Place) → IsAt w.old p → p.door ≡ door
        → HasServed (U.refuses up.old up.new) p w.old w.new session.rows session.ended (K.left link.old) (K.left link.new)
        (outside (K.written link.old) (U.exchanges up.old) (U.faults up.old)) (outside (K.written link.new) (U.exchanges up.new) (U.faults up.new))) }
    ensures broken { IfErr result (λ broken. (p : Place) → IsAt w.old p → p.door ≡ door
        → HasBroken (U.refuses up.old up.new) p w.old w.new broken.rows (K.left link.old) (K.left link.new)
        (outside (K.written link.old) (U.exchanges up.old) (U.faults up.old)) (outside (K.written link.new) (U.exchanges up.new) (U.faults up.new))) }

    // What a connection is given up by.
    ensures read { IfErr result (λ broken. broken.fault ≡ ConnFault.Read → HasRisen (K.faults link.old) (K.faults link.new)) }
    ensures write { IfErr result (λ broken. broken.fault ≡ ConnFault.Write → HasRisen (K.faults link.old) (K.faults link.new)) }

    // A reading that was refused is counted, and nothing else is.
    ensures ok { OnOk result (w.new.pass.refused ≡ w.old.pass.refused) }
    ensures refused { IfErr result (λ broken. CountsRefused broken.fault w.old.pass.refused w.new.pass.refused) }
    ensures ahead { w.new.pass.ahead ≡ w.old.pass.ahead }

    ensures link_later { K.faults link.old ≤ K.faults link.new }
    ensures up_later { U.faults up.old ≤ U.faults up.new }
    ensures becomes { U.becomes up.old up.new }
    ensures later { BeginsWith w.old.pass.seen w.new.pass.seen }
    ensures fixed { w.new.pass.fixed ≡ w.old.pass.fixed }
    ensures book { w.new.pass.book ≡ w.old.pass.book }
{
    let mut conn = Conn::new(alloc, door);
    match serve(&mut conn, w, link, up) {
        Ok(ended) => Ok(Session {
            rows: conn.rows(),
            ended,
        }),
        Err(fault) => Err(Broken {
            rows: conn.rows(),
            fault,
        }),
    }
}

// Reads and serves until the connection ends.
fn serve<K: Link, U: Upstream>(
    conn: &mut Conn,
    w: &mut Worker,
    link: &mut K,
    up: &mut U,
) -> Result<Ended, ConnFault>
    requires door { conn.old.door < length w.old.pass.fixed.0 }
    requires serving { IsServing conn.old }
    ensures ran { IfOk result (λ why. (p : Place) (bytes : List ℕ) (parts : List Part) (text : List ℕ) → IsAt w.old p → StandsFor conn.old p bytes parts text
        → Ran (U.refuses up.old up.new) p w.old w.new conn.new bytes parts text (K.left link.old) (K.left link.new)
        (outside (K.written link.old) (U.exchanges up.old) (U.faults up.old)) (outside (K.written link.new) (U.exchanges up.new) (U.faults up.new)) why) }
    ensures stopped { OnErr result ((p : Place) (bytes : List ℕ) (parts : List Part) (text : List ℕ) → IsAt w.old p → StandsFor conn.old p bytes parts text
        → Stopped (U.refuses up.old up.new) p w.old w.new conn.new bytes parts text (K.left link.old) (K.left link.new)
        (outside (K.written link.old) (U.exchanges up.old) (U.faults up.old)) (outside (K.written link.new) (U.exchanges up.new) (U.faults up.new))) }
    ensures read { result ≡ Err ConnFault.Read → HasRisen (K.faults link.old) (K.faults link.new) }
    ensures write { result ≡ Err ConnFault.Write → HasRisen (K.faults link.old) (K.faults link.new) }
    ensures ok { OnOk result (w.new.pass.refused ≡ w.old.pass.refused) }
    ensures refused { IfErr result (λ e. CountsRefused e w.old.pass.refused w.new.pass.refused) }
    ensures link_later { K.faults link.old ≤ K.faults link.new }
    ensures up { UpstreamStays U.Upstream up.old up.new }
    ensures pass { PassStays w.old w.new }
{
    let mut buffer = [0; MOST_PIECE];
    let mut taken = 0;
    'pieces: loop {
        let piece = conn.piece_of(&mut buffer);
        let size = match link.read(piece) {
            Ok(size) => size,
            Err(_) => return Err(ConnFault::Read),
        };
        taken += size;
        match conn.take(w, &piece[..size], link, up)? {
            Flow::More => {}
            Flow::Ended(why) => return Ok(why),
        }
    }
}

impl Conn {
    // The front of the buffer, of as many bytes as the next read is asked for. Of a body of an announced size these are no more than are
    // missing, so that they come without those of the next request, and are handed on without a copy.
    fn piece_of<'b>(&self, buffer: &'b mut [u8]) -> &'b mut [u8]
        requires { length buffer.old ≡ MOST_PIECE }
        ensures some { 0 < length result.now }
        ensures few { length result.now ≤ MOST_PIECE }
    {
        let size = match self.inlet.missing() {
            None => HEAD_PIECE,
            Some(0) => MOST_PIECE,
            Some(missing) => missing.min(MOST_PIECE),
        };
        &mut buffer[..size]
    }

    /// Takes the next bytes, of which an empty piece is the end, and serves all requests that are whole: sends them to backends, and
    /// writes the replies.
    pub fn take<K: Link, U: Upstream>(
        &mut self,
        w: &mut Worker,
        piece: &[u8],
        link: &mut K,
        up: &mut U,
    ) -> Result<Flow, ConnFault>
        requires door { self.old.door < length w.old.pass.fixed.0 }
        requires serving { IsServing self.old }
        ensures served { IfOk result (λ flow. (p : Place) (bytes : List ℕ) (parts : List Part) (text : List ℕ) → IsAt w.old p → StandsFor self.old p bytes parts text
            → Served (U.refuses up.old up.new) p w.old w.new self.new (bytes ++ piece.now) (length piece.now == 0) parts text
            (outside (K.written link.old) (U.exchanges up.old) (U.faults up.old)) (outside (K.written link.new) (U.exchanges up.new) (U.faults up.new)) flow) }
        ensures serving { result ≡ Ok Flow.More → IsServing self.new }
        ensures short { result ≡ Ok Flow.More → (bytes : List ℕ) → IsFed self.old bytes
            → IsFed self.new (bytes ++ piece.now) × (length (bytes ++ piece.now) ≤ MOST_OPEN_BYTES) }
        ensures over { OnOk result (is_over self.new.inlet ≡ (length piece.now == 0)) }
        ensures broke { OnErr result ((p : Place) (bytes : List ℕ) (parts : List Part) (text : List ℕ) → IsAt w.old p → StandsFor self.old p bytes parts text
            → BrokeOff (U.refuses up.old up.new) p w.old w.new self.new (bytes ++ piece.now) parts text
            (outside (K.written link.old) (U.exchanges up.old) (U.faults up.old)) (outside (K.written link.new) (U.exchanges up.new) (U.faults up.new))) }

        // What a call is given up by.
        ensures write { result ≡ Err ConnFault.Write → HasRisen (K.faults link.old) (K.faults link.new) }
        ensures read { result ≡ Err ConnFault.Read → ⊥ }

        // A reading that was refused is counted, and nothing else is.
        ensures ok { OnOk result (w.new.pass.refused ≡ w.old.pass.refused) }
        ensures refused { IfErr result (λ e. CountsRefused e w.old.pass.refused w.new.pass.refused) }
        ensures ahead { w.new.pass.ahead ≡ w.old.pass.ahead }

        ensures unread { Keeps (K.left link.old) (K.left link.new) }
        ensures link_later { K.faults link.old ≤ K.faults link.new }
        ensures up_later { U.faults up.old ≤ U.faults up.new }
        ensures becomes { U.becomes up.old up.new }
        ensures later { BeginsWith w.old.pass.seen w.new.pass.seen }
        ensures fixed { w.new.pass.fixed ≡ w.old.pass.fixed }
        ensures book { w.new.pass.book ≡ w.old.pass.book }
        ensures door { self.new.door ≡ self.old.door }
    {
        self.feed(piece)?;
        self.serve(w, link, up)
    }

    // Serves all requests that are whole.
    fn serve<K: Link, U: Upstream>(
        &mut self,
        w: &mut Worker,
        link: &mut K,
        up: &mut U,
    ) -> Result<Flow, ConnFault>
        requires door { self.old.door < length w.old.pass.fixed.0 }
        requires settled { IsSettled self.old.stage }
        requires fed { (bytes : List ℕ) × IsFed self.old bytes }
        ensures served { IfOk result (λ flow. (p : Place) (bytes : List ℕ) (parts : List Part) (text : List ℕ) → IsAt w.old p → StandsFor self.old p bytes parts text
            → Served (U.refuses up.old up.new) p w.old w.new self.new bytes (is_over self.new.inlet) parts text
            (outside (K.written link.old) (U.exchanges up.old) (U.faults up.old)) (outside (K.written link.new) (U.exchanges up.new) (U.faults up.new)) flow) }
        ensures broke { OnErr result ((p : Place) (bytes : List ℕ) (parts : List Part) (text : List ℕ) → IsAt w.old p → StandsFor self.old p bytes parts text
            → BrokeOff (U.refuses up.old up.new) p w.old w.new self.new bytes parts text
            (outside (K.written link.old) (U.exchanges up.old) (U.faults up.old)) (outside (K.written link.new) (U.exchanges up.new) (U.faults up.new))) }
        ensures more { result ≡ Ok Flow.More → self.new.stage ≡ Stage.Reading }
        ensures unfinished { result ≡ Ok Flow.More → (bytes : List ℕ) → IsFed self.old bytes → IsUnfinished self.new bytes }
        ensures inlet { GoesOn self.old.inlet self.new.inlet }
        ensures over { is_over self.new.inlet ≡ is_over self.old.inlet }
        ensures write { result ≡ Err ConnFault.Write → HasRisen (K.faults link.old) (K.faults link.new) }
        ensures read { result ≡ Err ConnFault.Read → ⊥ }
        ensures ok { OnOk result (w.new.pass.refused ≡ w.old.pass.refused) }
        ensures refused { IfErr result (λ e. CountsRefused e w.old.pass.refused w.new.pass.refused) }
        ensures link { LinkStays K.Link link.old link.new }
        ensures up { UpstreamStays U.Upstream up.old up.new }
        ensures pass { PassStays w.old w.new }
        ensures door { self.new.door ≡ self.old.door }
    {
        'turns: loop {
            if let Some(flow) = self.turn(w, link, up)? {
                return Ok(flow);
            }
        }
    }

    // One turn, with the exchange and the reply behind it. None: there is more to do.
    fn turn<K: Link, U: Upstream>(
        &mut self,
        w: &mut Worker,
        link: &mut K,
        up: &mut U,
    ) -> Result<Option<Flow>, ConnFault>
        requires door { self.old.door < length w.old.pass.fixed.0 }
        requires settled { IsSettled self.old.stage }
        ensures took { IfOk result (λ flow. (p : Place) (bytes : List ℕ) (parts : List Part) (text : List ℕ) → IsAt w.old p → StandsFor self.old p bytes parts text
            → TookTo (U.refuses up.old up.new) p w.old w.new self.new bytes (is_over self.new.inlet) parts text
            (outside (K.written link.old) (U.exchanges up.old) (U.faults up.old)) (outside (K.written link.new) (U.exchanges up.new) (U.faults up.new)) flow) }
        ensures broke { OnErr result ((p : Place) (bytes : List ℕ) (parts : List Part) (text : List ℕ) → IsAt w.old p → StandsFor self.old p bytes parts text
            → BrokeOff (U.refuses up.old up.new) p w.old w.new self.new bytes parts text
            (outside (K.written link.old) (U.exchanges up.old) (U.faults up.old)) (outside (K.written link.new) (U.exchanges up.new) (U.faults up.new))) }
        ensures settled { OnOk result (IsSettled self.new.stage) }
        ensures more { result ≡ Ok (Some Flow.More) → self.new.stage ≡ Stage.Reading }
        ensures unfinished { result ≡ Ok (Some Flow.More) → (bytes : List ℕ) → IsFed self.old bytes → IsUnfinished self.new bytes }
        ensures fewer { result ≡ Ok None → (bytes : List ℕ) → IsFed self.old bytes → turns_left self.new < turns_left self.old }
        ensures inlet { GoesOn self.old.inlet self.new.inlet }
        ensures over { is_over self.new.inlet ≡ is_over self.old.inlet }
        ensures write { result ≡ Err ConnFault.Write → HasRisen (K.faults link.old) (K.faults link.new) }
        ensures read { result ≡ Err ConnFault.Read → ⊥ }
        ensures ok { OnOk result (w.new.pass.refused ≡ w.old.pass.refused) }
        ensures refused { IfErr result (λ e. CountsRefused e w.old.pass.refused w.new.pass.refused) }
        ensures link { LinkStays K.Link link.old link.new }
        ensures up { UpstreamStays U.Upstream up.old up.new }
        ensures pass { PassStays w.old w.new }
        ensures door { self.new.door ≡ self.old.door }
    {
        match self.next(w)? {
            Turn::Need => Ok(Some(Flow::More)),
            Turn::Ended(why) => Ok(Some(Flow::Ended(why))),
            Turn::Write(text) => {
                write(link, &text)?;
                Ok(None)
            }
            Turn::Exchange(to, bytes, head) => {
                let answer = ask(self.alloc, up, to, &bytes, head)?;
                self.reply_with(w, link, answer)?;
                Ok(None)
            }
        }
    }

    // Writes the reply for what the backend answered.
    fn reply_with<K: Link>(
        &mut self,
        w: &mut Worker,
        link: &mut K,
        answer: Result<Response, BackendFault>,
    ) -> Result<(), ConnFault>
        requires door { self.old.door < length w.old.pass.fixed.0 }
        requires asking { IsAsking self.old.stage }
        ensures replied { OnOk result ((p : Place) (bytes : List ℕ) (parts : List Part) (text : List ℕ) → StandsFor self.old p bytes parts text
            → Replied p self.new bytes (change_last (with_answer answer) parts) text (K.written link.old) (K.written link.new)) }
        ensures broke { OnErr result ((p : Place) (bytes : List ℕ) (parts : List Part) (text : List ℕ) → StandsFor self.old p bytes parts text
            → IsUnwritten p self.old self.new bytes (change_last (with_answer answer) parts) text (K.written link.old) (K.written link.new)) }
        ensures worker { w.new ≡ w.old }
        ensures settled { OnOk result (IsSettled self.new.stage) }
        ensures fewer { OnOk result ((bytes : List ℕ) → IsFed self.old bytes → turns_left self.new < turns_left self.old) }
        ensures inlet { self.new.inlet ≡ self.old.inlet }
        ensures write { result ≡ Err ConnFault.Write → HasRisen (K.faults link.old) (K.faults link.new) }
        ensures read { result ≡ Err ConnFault.Read → ⊥ }
        ensures place { result ≡ Err ConnFault.Place → ⊥ }
        ensures link { LinkStays K.Link link.old link.new }
        ensures door { self.new.door ≡ self.old.door }
    {
        self.answer(answer);
        if let Turn::Write(text) = self.next(w)? {
            write(link, &text)?;
        }
        Ok(())
    }
}

fn write<K: Link>(link: &mut K, text: &Text) -> Result<(), ConnFault>
    ensures ok { OnOk result (Takes (K.written link.old) text.now (K.written link.new)) }
    ensures err { OnErr result (TakesPart (K.written link.old) text.now (K.written link.new)) }
    ensures cause { IfErr result (λ fault. (fault ≡ ConnFault.Write) × HasRisen (K.faults link.old) (K.faults link.new)) }
    ensures link { LinkStays K.Link link.old link.new }
{
    match write_whole(link, text.bytes()) {
        Ok(()) => Ok(()),
        Err(_) => Err(ConnFault::Write),
    }
}

// What the backend answers, unless memory was wanted.
fn ask<U: Upstream>(
    alloc: Global,
    up: &mut U,
    to: Socket,
    bytes: &Text,
    head: bool,
) -> Result<Result<Response, BackendFault>, NoMemory>
    ensures met { IfOk result (λ answer. Meets (U.refuses up.old up.new) to bytes.now head answer (outside None (U.exchanges up.old) (U.faults up.old)) (outside None (U.exchanges up.new) (U.faults up.new))) }
    ensures broke { OnErr result (TellsOne to bytes.now (U.exchanges up.old) (U.exchanges up.new)) }
    ensures up { UpstreamStays U.Upstream up.old up.new }
{
    match exchange(alloc, up, to, bytes.bytes(), head) {
        Ok(response) => Ok(Ok(response)),
        Err(ExchangeFault::Backend(fault)) => Ok(Err(fault)),
        Err(ExchangeFault::NoMemory) => Err(NoMemory),
    }
}

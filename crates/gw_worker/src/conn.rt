//! A client's connection: what it does next, whatever carries its bytes.
ghost use Rattle.std.specs.Prelude.{◌≡◌, ◌<◌, ◌∷◌, ◌++◌, [], ◌==◌, ℕ, List, false, length, None, Some, IfOk, IfErr, OnOk, OnErr, ◌+◌, map};
ghost use Rattle.gw_frames.specs.Inlets.{is_over, StandsFor as InletStandsFor};
ghost use Rattle.gw_frames.specs.model.Requests.{ended, an_ask, a_break, a_continue, a_refusal, an_end, Request as PlainRequest};
ghost use Rattle.gw_link.specs.Exchanges.{change_last};
ghost use Rattle.gw_snap.specs.Counts.{CountsPlace};
ghost use Rattle.gw_snap.specs.Lists.{BeginsWith};
ghost use Rattle.gw_worker.specs.Conns.{GoesOn, IsAnswered, IsAsking, IsFed, IsUnfinished, StandsFor, turns_left, with_answer, AreServed, StandsBehind};
ghost use Rattle.gw_worker.specs.Turns.{Continues, IsBehind, IsReply, IsReplying, IsStuck, IsWrite, LeavesFewer, IsActive};
ghost use Rattle.gw_worker.specs.Workers.{IsAt, IsLeftBy};
ghost use Rattle.gw_worker.specs.model.Sessions.{Part, Place, a_close, a_cut, a_refused, a_request, a_wait, asks_behind, Handled, is_last as is_last_of};
ghost use Rattle.gw_answers.specs.model.Messages.{is_head as is_head_of, reply_of};
ghost use Rattle.gw_answers.specs.model.ServedRows.{served_row};
ghost use Rattle.gw_replies.specs.model.Written.{own};
ghost use Rattle.gw_worker.specs.Stays.{PassStays};
ghost use Rattle.gw_worker.specs.Steps.{Came, IsReady};
ghost use Rattle.gw_answers.specs.model.ServedRows as plain;

use crate::worker::Worker;
use gw_answers::{
    Action, Chosen, Decision, Reply, ResponseEdits, ServedRow, fault_of, is_head, status_of,
    write_answer,
};
use gw_frames::{Ended, Inlet, Request, Step, end_behind};
use gw_replies::{BackendFault, Response, write_own};
use gw_snap::OpenFault;
use gw_text::{List, NoMemory, Socket, Text};
use std::alloc::Global;
use std::mem;

const CONTINUE: &[u8] = b"HTTP/1.1 100 Continue\r\n\r\n";

/// The rows of the requests that were served, in their order.
pub type Served = List<ServedRow>;

/// A client's connection at a door.
pub struct Conn {
    pub(crate) alloc: Global,
    /// The door's number.
    pub(crate) door: usize,
    pub(crate) inlet: Inlet,
    pub(crate) rows: Served,
    pub(crate) stage: Stage,
}

// Written out, so that crates above don't prove anew how its parts are dropped.
impl Drop for Conn {
    fn drop(self) {
        let Conn {
            alloc: _,
            door: _,
            inlet: _,
            rows: _,
            stage: _,
        } = self;
    }
}

/// What is known of a request for which a backend is asked.
#[derive(Drop)]
pub(crate) struct Asked {
    /// By how many changes it was decided.
    pub(crate) front: u64,
    pub(crate) chosen: Chosen,
    pub(crate) edits: ResponseEdits,
    /// Whether its method is HEAD.
    pub(crate) head: bool,
    /// Whether the connection ends behind it.
    pub(crate) last: bool,
}

/// What comes next.
#[derive(Drop)]
pub(crate) enum Stage {
    /// What the bytes give.
    Reading,
    /// The answer of the backend.
    Asking(Asked),
    /// The reply for what the backend answered.
    Answered(Asked, Result<Response, BackendFault>),
    /// The end, which is told again whenever it is asked for.
    Ended(Ended),
}

/// What a connection does next.
#[derive(Drop)]
pub enum Turn {
    /// Nothing until more bytes come.
    Need,
    /// These bytes are to be written to the client.
    Write(Text),
    /// These bytes are to be sent to the socket, and the response is to be answered; it answers HEAD where this is true.
    Exchange(Socket, Text, bool),
    /// The connection ended.
    Ended(Ended),
}

impl Conn {
    /// A connection at the door of this number, of which no byte came yet.
    pub fn new(alloc: Global, door: usize) -> Conn
        ensures stands { (p : Place) → p.door ≡ door → StandsFor result p [] [] [] }
        ensures reading { result.stage ≡ Stage.Reading }
        ensures unfinished { is_over result.inlet ≡ false }
        ensures rows { result.rows ≡ [] }
        ensures door { result.door ≡ door }
    {
        Conn {
            alloc,
            door,
            inlet: Inlet::new(alloc),
            rows: List::new(alloc),
            stage: Stage::Reading,
        }
    }

    /// Takes the next bytes; an empty piece is their end.
    pub fn feed(&mut self, piece: &[u8]) -> Result<(), NoMemory>
        requires { is_over self.old.inlet ≡ false }
        ensures fed { OnOk result ((p : Place) (bytes : List ℕ) (parts : List Part) (text : List ℕ) → StandsFor self.old p bytes parts text
            → StandsFor self.new p (bytes ++ piece.now) parts text) }
        ensures bytes { OnOk result ((bytes : List ℕ) → IsFed self.old bytes → IsFed self.new (bytes ++ piece.now)) }
        ensures over { OnOk result (is_over self.new.inlet ≡ (length piece.now == 0)) }
        ensures err { OnErr result ((p : Place) (bytes : List ℕ) (parts : List Part) (text : List ℕ) → StandsFor self.old p bytes parts text
            → StandsFor self.new p bytes parts text) }
        ensures stage { self.new.stage ≡ self.old.stage }
        ensures rows { self.new.rows ≡ self.old.rows }
        ensures door { self.new.door ≡ self.old.door }
    {
        if piece.is_empty() {
            self.inlet.finish();
            return Ok(());
        }
        self.inlet.feed(piece)
    }

    /// What is to be done next, by the worker. Where memory or a place is wanted, only the rows may be asked for from then on.
    pub fn next(&mut self, w: &mut Worker) -> Result<Turn, OpenFault>
        requires door { self.old.door < length w.old.pass.fixed.0 }
        requires answered { IsAnswered self.old.stage }
        ensures goes { IfOk result (λ turn. (p : Place) (bytes : List ℕ) (parts : List Part) (text : List ℕ) → IsAt w.old p
            → StandsFor self.old p bytes parts text → Continues p w.old w.new self.new bytes parts text turn) }
        ensures behind { IfOk result (λ turn. IsBehind turn self.new.stage) }
        ensures reply { IsReplying self.old.stage → IfOk result (λ turn. (p : Place) (bytes : List ℕ) (parts : List Part) (text : List ℕ)
            → StandsFor self.old p bytes parts text → IsReply p self.new bytes parts text turn) }
        ensures writes { IsReplying self.old.stage → IfOk result IsWrite }
        ensures kept { IsReplying self.old.stage → (w.new ≡ w.old) × (self.new.inlet ≡ self.old.inlet) }
        ensures place { IsReplying self.old.stage → result ≡ Err OpenFault.Place → ⊥ }
        ensures unfinished { result ≡ Ok Turn.Need → (bytes : List ℕ) → IsFed self.old bytes → IsUnfinished self.new bytes }
        ensures fewer { IfOk result (λ turn. (bytes : List ℕ) → IsFed self.old bytes → LeavesFewer turn (turns_left self.new) (turns_left self.old)) }
        ensures inlet { GoesOn self.old.inlet self.new.inlet }
        ensures over { is_over self.new.inlet ≡ is_over self.old.inlet }
        ensures err { OnErr result ((p : Place) (bytes : List ℕ) (parts : List Part) (text : List ℕ) → IsAt w.old p
            → StandsFor self.old p bytes parts text → IsStuck p w.old w.new self.new bytes parts) }
        ensures rows { OnErr result (self.new.rows ≡ self.old.rows) }
        ensures later { BeginsWith w.old.pass.seen w.new.pass.seen }
        ensures fixed { w.new.pass.fixed ≡ w.old.pass.fixed }
        ensures book { w.new.pass.book ≡ w.old.pass.book }

        // A reading that was refused is counted, and nothing else is.
        ensures ok { OnOk result (w.new.pass.refused ≡ w.old.pass.refused) }
        ensures refused { IfErr result (λ e. CountsPlace e w.old.pass.refused w.new.pass.refused) }
        ensures ahead { w.new.pass.ahead ≡ w.old.pass.ahead }

        ensures door { self.new.door ≡ self.old.door }
    {
        match mem::replace(&mut self.stage, Stage::Reading) {
            Stage::Reading => self.step(w),
            Stage::Answered(asked, answer) => Ok(self.reply(asked, answer)?),
            Stage::Ended(why) => Ok(self.end(why)),
            Stage::Asking(asked) => {
                self.stage = Stage::Asking(asked);
                Ok(Turn::Need)
            }
        }
    }

    /// What the backend answered to the exchange that was asked for.
    pub fn answer(&mut self, answer: Result<Response, BackendFault>)
        requires { IsAsking self.old.stage }
        ensures stands { (p : Place) (bytes : List ℕ) (parts : List Part) (text : List ℕ) → StandsFor self.old p bytes parts text
            → StandsFor self.new p bytes (change_last (with_answer answer) parts) text }
        ensures replying { IsReplying self.new.stage }
        ensures left { turns_left self.new ≡ turns_left self.old }
        ensures inlet { self.new.inlet ≡ self.old.inlet }
        ensures rows { self.new.rows ≡ self.old.rows }
        ensures door { self.new.door ≡ self.old.door }
    {
        if let Stage::Asking(asked) = mem::replace(&mut self.stage, Stage::Reading) {
            self.stage = Stage::Answered(asked, answer);
        }
    }

    /// The rows of the requests that were served.
    pub fn rows(self) -> Served
        ensures { result ≡ self.rows }
    {
        let Conn {
            alloc: _,
            door: _,
            inlet: _,
            rows,
            stage: _,
        } = self;
        rows
    }

    /// The rows so far.
    pub fn served(&self) -> &Served
        ensures { result.now ≡ self.now.rows }
    {
        &self.rows
    }

    // What the bytes give next.
    fn step(&mut self, w: &mut Worker) -> Result<Turn, OpenFault>
        requires door { self.old.door < length w.old.pass.fixed.0 }
        requires reading { self.old.stage ≡ Stage.Reading }
        ensures goes { IfOk result (λ turn. (p : Place) (bytes : List ℕ) (parts : List Part) (text : List ℕ) → IsAt w.old p
            → StandsFor self.old p bytes parts text → Continues p w.old w.new self.new bytes parts text turn) }
        ensures behind { IfOk result (λ turn. IsBehind turn self.new.stage) }
        ensures unfinished { result ≡ Ok Turn.Need → (bytes : List ℕ) → IsFed self.old bytes → IsUnfinished self.new bytes }
        ensures fewer { IfOk result (λ turn. (bytes : List ℕ) → IsFed self.old bytes → LeavesFewer turn (turns_left self.new) (turns_left self.old)) }
        ensures inlet { GoesOn self.old.inlet self.new.inlet }
        ensures over { is_over self.new.inlet ≡ is_over self.old.inlet }
        ensures err { OnErr result ((p : Place) (bytes : List ℕ) (parts : List Part) (text : List ℕ) → IsAt w.old p
            → StandsFor self.old p bytes parts text → IsStuck p w.old w.new self.new bytes parts) }
        ensures rows { OnErr result (self.new.rows ≡ self.old.rows) }
        ensures pass { PassStays w.old w.new }
        ensures ok { OnOk result (w.new.pass.refused ≡ w.old.pass.refused) }
        ensures refused { IfErr result (λ e. CountsPlace e w.old.pass.refused w.new.pass.refused) }
        ensures door { self.new.door ≡ self.old.door }
    {
        match self.inlet.next()? {
            Step::Need => Ok(Turn::Need),
            Step::Continue => Ok(self.announce()?),
            Step::Ask(request) => self.handle(w, &request),
            Step::Bad(code) => Ok(self.refuse(code)?),
            Step::End => Ok(self.end_by(Ended::Closed)),
            Step::Truncated => Ok(self.end_by(Ended::Truncated)),
        }
    }

    // The answer 100.
    fn announce(&mut self) -> Result<Turn, NoMemory>
        requires reading { self.old.stage ≡ Stage.Reading }
        ensures came { IfOk result (λ turn. (p : Place) (bytes : List ℕ) (parts : List Part) (text : List ℕ)
            → StandsBehind self.old p bytes parts a_continue text → Came p self.new bytes parts text a_wait turn) }
        ensures active { IfOk result IsActive }
        ensures behind { IfOk result (λ turn. IsBehind turn self.new.stage) }
        ensures same { self.new ≡ self.old }
    {
        Ok(Turn::Write(Text::from_bytes(self.alloc, CONTINUE)?))
    }

    // The reply of a refusal, behind which the connection ends.
    fn refuse(&mut self, code: u16) -> Result<Turn, NoMemory>
        ensures came { IfOk result (λ turn. (p : Place) (bytes : List ℕ) (parts : List Part) (text : List ℕ)
            → StandsBehind self.old p bytes parts (a_refusal code) text → Came p self.new bytes parts text (a_refused code) turn) }
        ensures behind { IfOk result (λ turn. IsBehind turn self.new.stage) }
        ensures after { OnOk result (self.new ≡ record self.old { stage = Stage.Ended (Ended.Refused code) }) }
        ensures err { OnErr result (self.new ≡ self.old) }
    {
        let text = write_own(self.alloc, code, None, None, true)?;
        self.stage = Stage::Ended(Ended::Refused(code));
        Ok(Turn::Write(text))
    }

    // The end that the bytes tell, or this one where they don't.
    fn end_by(&mut self, other: Ended) -> Turn
        ensures close { (p : Place) (bytes : List ℕ) (parts : List Part) (text : List ℕ)
            → StandsBehind self.old p bytes parts an_end text → Came p self.new bytes parts text a_close result }
        ensures cut { (p : Place) (bytes : List ℕ) (parts : List Part) (text : List ℕ)
            → StandsBehind self.old p bytes parts a_break text → Came p self.new bytes parts text a_cut result }
        ensures turn { (why : Ended) × (result ≡ Turn.Ended why) }
        ensures behind { IsBehind result self.new.stage }
        ensures inlet { self.new.inlet ≡ self.old.inlet }
        ensures rows { self.new.rows ≡ self.old.rows }
        ensures door { self.new.door ≡ self.old.door }
    {
        let why = self.inlet.ended().unwrap_or(other);
        self.end(why)
    }

    // Ends the connection.
    fn end(&mut self, why: Ended) -> Turn
        ensures turn { result ≡ Turn.Ended why }
        ensures after { self.new ≡ record self.old { stage = Stage.Ended why } }
    {
        self.stage = Stage::Ended(why);
        Turn::Ended(why)
    }

    // Replies to a request, or asks a backend, as the worker decides.
    fn handle(&mut self, w: &mut Worker, request: &Request) -> Result<Turn, OpenFault>
        requires door { self.old.door < length w.old.pass.fixed.0 }
        requires reading { self.old.stage ≡ Stage.Reading }
        ensures goes { IfOk result (λ turn. (p : Place) (bytes : List ℕ) (parts : List Part) (text : List ℕ) → IsAt w.old p
            → StandsBehind self.old p bytes parts (an_ask request.now) text → Continues p w.old w.new self.new bytes parts text turn) }
        ensures active { IfOk result IsActive }
        ensures behind { IfOk result (λ turn. IsBehind turn self.new.stage) }
        ensures inlet { self.new.inlet ≡ self.old.inlet }
        ensures err { OnErr result ((p : Place) → IsAt w.old p → p.door ≡ self.old.door → IsLeftBy p w.old w.new request.now) }
        ensures rows { OnErr result (self.new.rows ≡ self.old.rows) }
        ensures pass { PassStays w.old w.new }
        ensures ok { OnOk result (w.new.pass.refused ≡ w.old.pass.refused) }
        ensures refused { IfErr result (λ e. CountsPlace e w.old.pass.refused w.new.pass.refused) }
        ensures door { self.new.door ≡ self.old.door }
    {
        let (front, decision) = w.decision(self.alloc, self.door, request)?;
        let last = self.is_last(request);
        Ok(self.act(front, decision, is_head(request), last)?)
    }

    // Whether the connection ends behind the request, which is the next one.
    fn is_last(&self, request: &Request) -> bool
        ensures { (p : Place) (parts : List Part) (text : List ℕ) → AreServed p self.now.rows parts text
            → result ≡ is_last_of (asks_behind 0 parts + 1) request.now }
    {
        end_behind(self.rows.as_slice().len() + 1, request).is_some()
    }

    // Replies to the request that was decided, or asks a backend.
    fn act(
        &mut self,
        front: u64,
        decision: Decision,
        head: bool,
        last: bool,
    ) -> Result<Turn, NoMemory>
        requires reading { self.old.stage ≡ Stage.Reading }
        ensures came { IfOk result (λ turn. (p : Place) (bytes : List ℕ) (parts : List Part) (q : PlainRequest) (h : Handled) (text : List ℕ)
            → StandsBehind self.old p bytes parts (an_ask q) text → IsReady p parts q h front decision head last
            → Came p self.new bytes parts text (a_request q h) turn) }
        ensures active { IfOk result IsActive }
        ensures behind { IfOk result (λ turn. IsBehind turn self.new.stage) }
        ensures inlet { self.new.inlet ≡ self.old.inlet }
        ensures rows { OnErr result (self.new.rows ≡ self.old.rows) }
        ensures door { self.new.door ≡ self.old.door }
    {
        let Decision { chosen, action } = decision;
        match action {
            Action::Reply(reply) => self.reply_itself(front, chosen, reply, last),
            Action::Forward(forward) => {
                self.stage = Stage::Asking(Asked {
                    front,
                    chosen,
                    edits: forward.edits,
                    head,
                    last,
                });
                Ok(Turn::Exchange(forward.to, forward.bytes, head))
            }
        }
    }

    // The row and the reply of a request that goes to no backend.
    fn reply_itself(
        &mut self,
        front: u64,
        chosen: Chosen,
        reply: Reply,
        last: bool,
    ) -> Result<Turn, NoMemory>
        ensures text { IfOk result (λ turn. turn ≡ Turn.Write (own reply.code reply.location reply.fault last)) }
        ensures rows { OnOk result (self.new ≡ record self.old { rows = self.old.rows ++ served_row front chosen reply.code reply.fault ∷ [] }) }
        ensures err { OnErr result (self.new ≡ self.old) }
    {
        let location = reply.location.as_ref();
        let text = write_own(self.alloc, reply.code, location, reply.fault, last)?;
        self.rows
            .push(ServedRow::new(front, chosen, reply.code, reply.fault))?;
        Ok(Turn::Write(text))
    }

    // The row and the reply of a request for what the backend answered.
    fn reply(
        &mut self,
        asked: Asked,
        answer: Result<Response, BackendFault>,
    ) -> Result<Turn, NoMemory>
        ensures text { IfOk result (λ turn. turn ≡ Turn.Write (reply_of asked.edits answer asked.head asked.last)) }
        ensures rows { OnOk result (self.new ≡ record self.old {
          rows = self.old.rows ++ plain.served_row asked.front asked.chosen (plain.status_of answer) (plain.fault_of answer) ∷ [];
        }) }
        ensures err { OnErr result (self.new ≡ self.old) }
    {
        let (status, fault) = (status_of(&answer), fault_of(&answer));
        let text = write_answer(self.alloc, &asked.edits, answer, asked.head, asked.last)?;
        self.rows
            .push(ServedRow::new(asked.front, asked.chosen, status, fault))?;
        Ok(Turn::Write(text))
    }
}

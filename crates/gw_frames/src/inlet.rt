ghost use Rattle.std.specs.Prelude.{◌≡◌, ◌≢◌, ◌≤◌, take, ℕ, [], ◌∷◌, ◌++◌, true, false, List, Ok, None, OnOk, OnErr, IfOk, IfSome};
ghost use Rattle.gw_frames.specs.model.Requests.{a_head, Asks, end_behind, ended, Step as Plain};

use crate::ended::Ended;
use crate::fault::fault_code;
use crate::judgment::{Judgment, judge};
use crate::opening::Opening;
use crate::request::Request;
use crate::rules::MOST_BODY;
use crate::step::Step;
use gw_messages::body::{Limits, Progress, Reading};
use gw_messages::buffer::Buffer;
use gw_messages::section::{Found, are_empty_lines};
use gw_text::NoMemory;
use std::alloc::Global;
use std::mem;

/// The most requests of a connection.
const MOST_REQUESTS: usize = 1000;

/// The most bytes of a chunked body as it is sent.
const MOST_ENCODED: usize = 16777216;

/// The requests of a connection, out of its bytes in whatever pieces they come.
#[derive(Drop)]
pub struct Inlet {
    alloc: Global,
    buffer: Buffer,
    stage: Stage,
    /// How many requests were given.
    count: usize,
    /// Whether all bytes have come.
    over: bool,
}

/// What comes next.
#[derive(Drop)]
enum Stage {
    Head,
    /// The body of a request.
    Body(Opening, Reading),
    /// The end, since the last request was given.
    Closing(Ended),
    /// Nothing: the last step was given, and stays.
    Done(Ended),
}

impl Inlet {
    ghost use Rattle.gw_frames.specs.Inlets.{ended_by, fresh, given, given_some, Goes, is_over, IsAll, IsFewer, IsLast, IsReads, IsStill, last_step, missing_at, stage_behind, StandsFor, steps_left, with_step};
    ghost use Rattle.gw_frames.specs.declared.step.Step.{Step as Stepped};
    ghost use Rattle.gw_messages.specs.Readings.{Comes, IsProgress, Leads};
    ghost use Rattle.gw_messages.specs.Searches.{IsFound};
    ghost use Rattle.gw_messages.specs.model.Bodies.{part_body, whole_body};
    ghost use Rattle.gw_frames.specs.model.Requests.{IsJudged, opened, Opening as PlainOpening};
    ghost use Rattle.gw_messages.specs.model.Sections.{ends_head, IsCut, part_section};
    ghost use Rattle.gw_messages.specs.declared.body.Reading.{Reading as Read};

    /// No bytes.
    pub fn new(alloc: Global) -> Inlet
        ensures stands { StandsFor result [] [] }
        ensures open { is_over result ≡ false }
        ensures left { steps_left result ≡ 2000 }
    {
        Inlet {
            alloc,
            buffer: Buffer::new(alloc),
            stage: Stage::Head,
            count: 0,
            over: false,
        }
    }

    /// Takes the next bytes, or leaves all as it was.
    pub fn feed(&mut self, piece: &[u8]) -> Result<(), NoMemory>
        requires { is_over self.old ≡ false }
        ensures fed { OnOk result ((bytes : List ℕ) (steps : List Plain) → StandsFor self.old bytes steps → StandsFor self.new (bytes ++ piece.now) steps) }
        ensures err { OnErr result ((bytes : List ℕ) (steps : List Plain) → StandsFor self.old bytes steps → StandsFor self.new bytes steps) }
        ensures over { is_over self.new ≡ false }
        ensures left { steps_left self.new ≡ steps_left self.old }
    {
        self.buffer.feed(piece)
    }

    /// All bytes have come.
    pub fn finish(&mut self)
        ensures stands { (bytes : List ℕ) (steps : List Plain) → StandsFor self.old bytes steps → StandsFor self.new bytes steps }
        ensures over { is_over self.new ≡ true }
        ensures left { steps_left self.new ≡ steps_left self.old }
    {
        self.over = true;
    }

    /// The next step. After Bad, End and Truncated it stays. Before them at most 2,000 requests and answers 100 come.
    pub fn next(&mut self) -> Result<Step, NoMemory>
        ensures stands { IfOk result (λ step. (bytes : List ℕ) (steps : List Plain) → StandsFor self.old bytes steps
            → StandsFor self.new bytes (with_step steps step)) }
        ensures all { IfOk result (λ step. (bytes : List ℕ) (steps : List Plain) → StandsFor self.old bytes steps → IsAll step
            → Asks a_head 0 bytes (is_over self.new) (with_step steps step)) }
        ensures stays { IfOk result (λ step. (bytes : List ℕ) (steps : List Plain) → StandsFor self.old bytes steps → IsLast (ended steps) step) }
        ensures err { OnErr result ((bytes : List ℕ) (steps : List Plain) → StandsFor self.old bytes steps → StandsFor self.new bytes steps) }
        ensures over { is_over self.new ≡ is_over self.old }
        ensures fewer { IfOk result (λ step. (bytes : List ℕ) (steps : List Plain) → StandsFor self.old bytes steps
            → IsFewer step (steps_left self.new) (steps_left self.old)) }
        ensures no_more { OnErr result ((bytes : List ℕ) (steps : List Plain) → StandsFor self.old bytes steps → steps_left self.new ≤ steps_left self.old) }
    {
        if self.waits() {
            return Ok(Step::Need);
        }
        if let Some(step) = self.next_of_head()? {
            return Ok(step);
        }
        self.next_of_body()
    }

    /// How the connection ended, if its last step was given.
    pub fn ended(&self) -> Option<Ended>
        ensures { (bytes : List ℕ) (steps : List Plain) → StandsFor self.now bytes steps → result ≡ ended steps }
    {
        self.stage.ended()
    }

    /// How many bytes of the body that is read are known to be missing: 0 of a chunked one. None: no body is read.
    pub fn missing(&self) -> Option<usize>
        ensures { result ≡ missing_at self.now.stage self.now.buffer }
    {
        match &self.stage {
            Stage::Body(_, reading) => Some(reading.missing(&self.buffer)),
            Stage::Head => None,
            Stage::Closing(_) => None,
            Stage::Done(_) => None,
        }
    }

    // Whether a head or a body comes next that isn't whole, and more bytes may come. Asked first, it spares the large results of what follows.
    fn waits(&mut self) -> bool
        ensures open { result ≡ true → ended_by self.old.stage ≡ None }
        ensures need { result ≡ true → IsStill self.old Step.Need }
        ensures same { self.new ≡ self.old }
    {
        if self.over {
            return false;
        }
        match &self.stage {
            Stage::Head => matches!(self.buffer.find_head(), Found::Part),
            Stage::Body(_, reading) => reading.waits(&self.buffer),
            Stage::Closing(_) => false,
            Stage::Done(_) => false,
        }
    }

    // The step where a head comes next, if there is one before its body.
    fn next_of_head(&mut self) -> Result<Option<Step>, NoMemory>
        ensures goes { IfOk result (λ step. Goes self.old self.new (given_some step)) }
        ensures need { IfOk result (λ step. IfSome step (IsStill self.new)) }
        ensures err { OnErr result (Goes self.old self.new []) }
        ensures heads { IfOk result (λ step. IfSome step (λ s. self.old.stage ≡ Stage.Head)) }
        ensures passes { result ≡ Ok None → self.new.stage ≢ Stage.Head }
        ensures fresh { result ≡ Ok None → (step : Stepped) → fresh self.new.stage step ≡ fresh self.old.stage step }
        ensures ended { result ≡ Ok None → ended_by self.new.stage ≡ ended_by self.old.stage }
    {
        let Stage::Head = &self.stage else {
            return Ok(None);
        };
        match self.buffer.find_head() {
            Found::Long => Ok(Some(self.end(Ended::Refused(431)))),
            Found::Part => Ok(Some(self.after_no_head())),
            Found::Whole(length) => self.open(length),
        }
    }

    // Where a head isn't whole.
    fn after_no_head(&mut self) -> Step
        requires head { self.old.stage ≡ Stage.Head }
        requires part { IsCut ends_head 16384 self.old.buffer part_section }
        ensures goes { Goes self.old self.new (given result) }
        ensures need { IsStill self.new result }
    {
        if !self.over {
            return Step::Need;
        }
        if are_empty_lines(self.buffer.bytes()) {
            return self.end(Ended::Closed);
        }
        self.end(Ended::Truncated)
    }

    // Reads the head of so many bytes.
    fn open(&mut self, length: usize) -> Result<Option<Step>, NoMemory>
        requires head { self.old.stage ≡ Stage.Head }
        requires whole { IsFound ends_head self.old.buffer (Found.Whole length) }
        ensures goes { IfOk result (λ step. Goes self.old self.new (given_some step)) }
        ensures need { IfOk result (λ step. IfSome step (IsStill self.new)) }
        ensures err { OnErr result (Goes self.old self.new []) }
        ensures reads { result ≡ Ok None → IsReads self.new.stage }
    {
        match judge(self.alloc, self.buffer.front(length))? {
            Judgment::Refused(code) => Ok(Some(self.end(Ended::Refused(code)))),
            Judgment::Opened(opening) => Ok(self.open_body(length, opening)),
        }
    }

    // Goes on to the body of a request.
    fn open_body(&mut self, length: usize, opening: Opening) -> Option<Step>
        requires head { self.old.stage ≡ Stage.Head }
        requires whole { IsFound ends_head self.old.buffer (Found.Whole length) }
        requires judged { IsJudged (take length self.old.buffer) (opened opening) }
        ensures goes { Goes self.old self.new (given_some result) }
        ensures need { IfSome result (IsStill self.new) }
        ensures reads { IsReads self.new.stage }
    {
        let expects = opening.expects;
        let limits = Limits {
            content: MOST_BODY,
            encoded: MOST_ENCODED,
        };
        let reading = Reading::new(self.alloc, limits, opening.size);
        self.buffer.advance(length);
        reading.make_room(&mut self.buffer);
        self.stage = Stage::Body(opening, reading);
        if expects {
            return Some(Step::Continue);
        }
        None
    }

    // The step where no head comes next.
    fn next_of_body(&mut self) -> Result<Step, NoMemory>
        requires { self.old.stage ≢ Stage.Head }
        ensures goes { IfOk result (λ step. Goes self.old self.new (fresh self.old.stage step)) }
        ensures need { IfOk result (IsStill self.new) }
        ensures last { IfOk result (IsLast (ended_by self.old.stage)) }
        ensures err { OnErr result (Goes self.old self.new []) }
    {
        match &mut self.stage {
            Stage::Head => Ok(Step::Need),
            Stage::Closing(ended) => {
                let ended = *ended;
                Ok(self.end(ended))
            }
            Stage::Done(ended) => Ok(ended.step()),
            Stage::Body(_, reading) => {
                let progress = reading.read(self.alloc, &mut self.buffer)?;
                Ok(self.after_body(progress))
            }
        }
    }

    // The step where a body came to this.
    fn after_body(&mut self, progress: Progress) -> Step
        requires { IsReads self.old.stage }
        ensures goes { (o : PlainOpening) (r new : Read) (before : List ℕ) → self.old.stage ≡ Stage.Body o new → IsProgress r before new self.old.buffer progress
            → Goes (record self.old { stage = Stage.Body o r; buffer = before }) self.new (given result) }
        ensures need { (o : PlainOpening) (r new : Read) (before : List ℕ) → self.old.stage ≡ Stage.Body o new → IsProgress r before new self.old.buffer progress
            → IsStill self.new result }
    {
        match progress {
            Progress::Bad(fault) => self.end(Ended::Refused(fault_code(fault))),
            Progress::Part => self.after_no_body(),
            Progress::Whole(content) => self.ask(content),
        }
    }

    // Where a body isn't whole.
    fn after_no_body(&mut self) -> Step
        ensures goes { (o : PlainOpening) (r new : Read) (before : List ℕ) → self.old.stage ≡ Stage.Body o new → Leads r before new self.old.buffer → Comes new self.old.buffer part_body
            → Goes (record self.old { stage = Stage.Body o r; buffer = before }) self.new (given result) }
        ensures need { (o : PlainOpening) (new : Read) → self.old.stage ≡ Stage.Body o new → Comes new self.old.buffer part_body → IsStill self.new result }
    {
        if self.over {
            return self.end(Ended::Truncated);
        }
        Step::Need
    }

    // The request that the body makes whole.
    fn ask(&mut self, content: Vec<u8>) -> Step
        requires { IsReads self.old.stage }
        ensures goes { (o : PlainOpening) (r new : Read) (before : List ℕ) → self.old.stage ≡ Stage.Body o new
            → ((next : List ℕ) → Comes r (before ++ next) (whole_body content.items (self.old.buffer ++ next)))
            → Goes (record self.old { stage = Stage.Body o r; buffer = before }) self.new (given result) }
        ensures need { IsStill self.new result }
    {
        let number = self.count.saturating_add(1);
        let stage = self.stage_behind(number);
        self.count = number;
        match mem::replace(&mut self.stage, stage) {
            Stage::Body(opening, _) => Step::Ask(opening.whole(content)),
            Stage::Head => Step::Need,
            Stage::Closing(_) => Step::Need,
            Stage::Done(_) => Step::Need,
        }
    }

    // What comes behind the request of this number.
    fn stage_behind(&self, number: usize) -> Stage
        requires { IsReads self.now.stage }
        ensures { (o : PlainOpening) (r : Read) → self.now.stage ≡ Stage.Body o r → result ≡ stage_behind (end_behind number o.request) }
    {
        match &self.stage {
            Stage::Body(opening, _) => Stage::behind(end_behind(number, &opening.request)),
            Stage::Head => Stage::Head,
            Stage::Closing(_) => Stage::Head,
            Stage::Done(_) => Stage::Head,
        }
    }

    // Ends the connection, and says so.
    fn end(&mut self, ended: Ended) -> Step
        ensures after { self.new ≡ record self.old { stage = Stage.Done ended } }
        ensures step { given result ≡ last_step ended ∷ [] }
        ensures need { IsStill self.new result }
    {
        self.stage = Stage::Done(ended);
        ended.step()
    }
}

impl Stage {
    ghost use Rattle.gw_frames.specs.Inlets.{ended_by, stage_behind};

    // How the connection ended, if it did.
    fn ended(&self) -> Option<Ended>
        ensures { result ≡ ended_by self.now }
    {
        match self {
            Stage::Done(ended) => Some(*ended),
            Stage::Head => None,
            Stage::Body(_, _) => None,
            Stage::Closing(_) => None,
        }
    }

    // What comes behind a request, where the connection ends so, or goes on.
    fn behind(end: Option<Ended>) -> Stage
        ensures { result ≡ stage_behind end }
    {
        match end {
            Some(ended) => Stage::Closing(ended),
            None => Stage::Head,
        }
    }
}

/// Why the connection ends behind the request of this number, from 1 on, if it does.
pub fn end_behind(number: usize, request: &Request) -> Option<Ended>
    ensures { result ≡ end_behind number request.now }
{
    if request.close {
        return Some(Ended::Asked);
    }
    if number == MOST_REQUESTS {
        return Some(Ended::Enough);
    }
    None
}

impl Ended {
    ghost use Rattle.gw_frames.specs.Inlets.{given, last_step};

    // The last step.
    fn step(self) -> Step
        ensures { given result ≡ last_step self ∷ [] }
    {
        match self {
            Ended::Refused(code) => Step::Bad(code),
            Ended::Truncated => Step::Truncated,
            Ended::Closed | Ended::Asked | Ended::Enough => Step::End,
        }
    }
}

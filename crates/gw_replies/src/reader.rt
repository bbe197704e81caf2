ghost use Rattle.std.specs.Prelude.{◌≡◌, ◌≢◌, ◌<◌, ◌≤◌, ◌*◌, ◌++◌, ◌+◌, ℕ, [], true, false, take, drop, length, Bool, List, Option, Ok, None, Some, OnOk, OnErr, IfOk, IfSome};
ghost use Rattle.gw_replies.specs.model.Responses.{a_response, fault_of, Outcome, unfinished};

use crate::extent::{Extent, extent_of};
use crate::fault::BackendFault;
use crate::head::{Head, read_head};
use crate::kind::{Kind, kind_of};
use crate::length::MOST_BODY;
use crate::response::Response;
use crate::step::ReplyStep;
use gw_messages::body::{Limits, Progress, Reading};
use gw_messages::buffer::Buffer;
use gw_messages::fault::BodyFault;
use gw_messages::section::Found;
use gw_text::NoMemory;
use std::alloc::Global;
use std::mem;

/// The most bytes of a response as it is sent.
const MOST_BYTES: usize = 67108864;

/// The response out of the bytes of a backend, in whatever pieces they come.
#[derive(Drop)]
pub struct ReplyReader {
    alloc: Global,
    buffer: Buffer,
    /// Whether the response answers HEAD.
    to_head: bool,
    /// How many interim responses came, and of how many bytes.
    interims: usize,
    taken: usize,
    stage: Stage,
    /// Whether all bytes have come.
    over: bool,
    ghost few: { (interims ≤ 16) × (taken ≤ interims * 16384) },
}

/// What comes next.
#[derive(Drop)]
enum Stage {
    Head,
    /// The body of a response, whose end is told by its chunks or its size.
    Body(Box<Response>, Reading),
    /// The body of a response, which ends with the bytes.
    ToEnd(Box<Response>),
    /// Nothing: the response was given.
    Done,
    /// Nothing: this was given, and stays.
    Failed(BackendFault),
}

impl ReplyReader {
    ghost use Rattle.gw_replies.specs.Replies.{after, Answers, follows, Goes, IsOpen, IsReads, IsStep, seen, StandsFor, Still, with_body};
    ghost use Rattle.std.specs.Prelude.{Box};
    ghost use Rattle.std.specs.declared.alloc.Global.{Global as InMemory};
    ghost use Rattle.gw_replies.specs.model.Responses.{Head as PlainHead, IsHead, is_misframed, Response as PlainResponse, response_of};
    ghost use Rattle.gw_messages.specs.Readings.{Comes, IsProgress, Leads};
    ghost use Rattle.gw_messages.specs.Searches.{IsFound};
    ghost use Rattle.gw_messages.specs.model.Bodies.{part_body, whole_body};
    ghost use Rattle.gw_messages.specs.model.Sections.{ends_head};
    ghost use Rattle.gw_messages.specs.declared.body.Reading.{Reading as Read};
    ghost use Rattle.gw_replies.specs.Kinds.{IsKind};

    /// No bytes. The response answers HEAD where `head` is true.
    pub fn new(alloc: Global, head: bool) -> ReplyReader
        ensures stands { StandsFor head result [] None }
        ensures open { result.over ≡ false }
    {
        ReplyReader {
            alloc,
            buffer: Buffer::new(alloc),
            to_head: head,
            interims: 0,
            taken: 0,
            stage: Stage::Head,
            over: false,
        }
    }

    /// Takes the next bytes, or leaves all as it was.
    pub fn feed(&mut self, piece: &[u8]) -> Result<(), NoMemory>
        requires { self.old.over ≡ false }
        ensures fed { OnOk result ((to_head : Bool) (bytes : List ℕ) (given : Option Outcome) → StandsFor to_head self.old bytes given
            → StandsFor to_head self.new (bytes ++ piece.now) given) }
        ensures err { OnErr result ((to_head : Bool) (bytes : List ℕ) (given : Option Outcome) → StandsFor to_head self.old bytes given
            → StandsFor to_head self.new bytes given) }
        ensures over { self.new.over ≡ false }
    {
        self.buffer.feed(piece)
    }

    /// All bytes have come.
    pub fn finish(&mut self)
        ensures stands { (to_head : Bool) (bytes : List ℕ) (given : Option Outcome) → StandsFor to_head self.old bytes given
            → StandsFor to_head self.new bytes given }
        ensures over { self.new.over ≡ true }
    {
        self.over = true;
    }

    /// What the bytes come to. After a response was given no more is; a fault is given again.
    pub fn next(&mut self) -> Result<ReplyStep, NoMemory>
        ensures stands { IfOk result (λ step. (to_head : Bool) (bytes : List ℕ) (given : Option Outcome) → StandsFor to_head self.old bytes given
            → StandsFor to_head self.new bytes (after given step)) }
        ensures answers { IfOk result (λ step. (to_head : Bool) (bytes : List ℕ) (given : Option Outcome) → StandsFor to_head self.old bytes given
            → Answers to_head bytes self.old.over given step) }
        ensures err { OnErr result ((to_head : Bool) (bytes : List ℕ) (given : Option Outcome) → StandsFor to_head self.old bytes given
            → StandsFor to_head self.new bytes given) }
        ensures over { self.new.over ≡ self.old.over }
    {
        if self.waits() {
            return Ok(ReplyStep::Need);
        }
        match &self.stage {
            Stage::Done => Ok(ReplyStep::Need),
            Stage::Failed(fault) => Ok(ReplyStep::Fault(*fault)),
            Stage::Head => self.next_open(),
            Stage::Body(_, _) => self.next_open(),
            Stage::ToEnd(_) => self.next_open(),
        }
    }

    // Whether a head or a body comes next that isn't whole, and more bytes may come. Asked first, it spares the large results of what follows.
    fn waits(&mut self) -> bool
        ensures need { result ≡ true → IsStep self.old self.old ReplyStep.Need }
        ensures open { result ≡ true → IsOpen self.old.stage }
        ensures same { self.new ≡ self.old }
    {
        let over = self.over;
        if over {
            return false;
        }
        match &self.stage {
            Stage::Head => matches!(self.buffer.find_head(), Found::Part),
            Stage::Body(_, reading) => reading.waits(&self.buffer),
            Stage::ToEnd(_) => false,
            Stage::Done => false,
            Stage::Failed(_) => false,
        }
    }

    // The step where nothing was given.
    fn next_open(&mut self) -> Result<ReplyStep, NoMemory>
        requires { IsOpen self.old.stage }
        ensures step { IfOk result (IsStep self.old self.new) }
        ensures err { OnErr result (Goes self.old self.new) }
    {
        'heads: while let Stage::Head = &self.stage {
            if let Some(step) = self.next_of_head()? {
                return Ok(step);
            }
        }
        self.next_of_body()
    }

    // The step where a head comes next, or none where another head or a body comes behind it.
    fn next_of_head(&mut self) -> Result<Option<ReplyStep>, NoMemory>
        requires { self.old.stage ≡ Stage.Head }
        ensures step { IfOk result (λ step. IfSome step (IsStep self.old self.new)) }
        ensures goes { result ≡ Ok None → Goes self.old self.new }
        ensures smaller { result ≡ Ok None → length self.new.buffer < length self.old.buffer }
        ensures err { OnErr result (Goes self.old self.new) }
    {
        match self.buffer.find_head() {
            Found::Long => Ok(Some(self.fail(BackendFault::Head))),
            Found::Part => Ok(Some(self.unfinished())),
            Found::Whole(size) => self.open(size),
        }
    }

    // Reads the head of so many bytes.
    fn open(&mut self, size: usize) -> Result<Option<ReplyStep>, NoMemory>
        requires head { self.old.stage ≡ Stage.Head }
        requires whole { IsFound ends_head self.old.buffer (Found.Whole size) }
        ensures step { IfOk result (λ step. IfSome step (IsStep self.old self.new)) }
        ensures goes { result ≡ Ok None → Goes self.old self.new }
        ensures smaller { result ≡ Ok None → length self.new.buffer < length self.old.buffer }
        ensures err { OnErr result (Goes self.old self.new) }
    {
        match read_head(self.alloc, self.buffer.front(size))? {
            None => Ok(Some(self.fail(BackendFault::Head))),
            Some(head) => self.take_head(size, head),
        }
    }

    // Takes the head of so many bytes.
    fn take_head(&mut self, size: usize, head: Head) -> Result<Option<ReplyStep>, NoMemory>
        requires head { self.old.stage ≡ Stage.Head }
        requires whole { IsFound ends_head self.old.buffer (Found.Whole size) }
        requires reads { IsHead (take size self.old.buffer) (Some head) }
        ensures step { IfOk result (λ step. IfSome step (IsStep self.old self.new)) }
        ensures goes { result ≡ Ok None → Goes self.old self.new }
        ensures smaller { result ≡ Ok None → length self.new.buffer < length self.old.buffer }
        ensures err { OnErr result (Goes self.old self.new) }
    {
        match kind_of(&head, self.to_head, self.interims) {
            Kind::Refused => Ok(Some(self.fail(BackendFault::Head))),
            Kind::Misframed => Ok(Some(self.fail(BackendFault::Body))),
            Kind::Bodiless => {
                let response = head.opened(self.alloc)?;
                Ok(Some(self.give(response)))
            }
            Kind::Interim => {
                self.pass(size);
                Ok(None)
            }
            Kind::Bodied => {
                self.open_body(size, head)?;
                Ok(None)
            }
        }
    }

    // Drops an interim response of so many bytes.
    fn pass(&mut self, size: usize)
        requires few { self.old.interims < 16 }
        requires size { (size ≤ length self.old.buffer) × (size ≤ 16384) }
        ensures buffer { self.new.buffer ≡ drop size self.old.buffer }
        ensures interims { self.new.interims ≡ self.old.interims + 1 }
        ensures taken { self.new.taken ≡ self.old.taken + size }
        ensures stage { self.new.stage ≡ self.old.stage }
        ensures to_head { self.new.to_head ≡ self.old.to_head }
        ensures over { self.new.over ≡ self.old.over }
    {
        self.buffer.advance(size);
        self.interims += 1;
        self.taken += size;
    }

    // Goes on to the body of a response whose head has so many bytes.
    fn open_body(&mut self, size: usize, head: Head) -> Result<(), NoMemory>
        requires head { self.old.stage ≡ Stage.Head }
        requires whole { IsFound ends_head self.old.buffer (Found.Whole size) }
        requires reads { IsHead (take size self.old.buffer) (Some head) }
        requires kind { IsKind self.old.to_head self.old.interims head Kind.Bodied }
        ensures goes { OnOk result (Goes self.old self.new) }
        ensures buffer { OnOk result (self.new.buffer ≡ drop size self.old.buffer) }
        ensures err { OnErr result (self.new ≡ self.old) }
    {
        let stage = Stage::of(self.alloc, head, self.taken + size)?;
        self.buffer.advance(size);
        stage.make_room(&mut self.buffer);
        self.stage = stage;
        Ok(())
    }

    // The step where a body comes next.
    fn next_of_body(&mut self) -> Result<ReplyStep, NoMemory>
        requires open { IsOpen self.old.stage }
        requires body { self.old.stage ≢ Stage.Head }
        ensures step { IfOk result (IsStep self.old self.new) }
        ensures err { OnErr result (Goes self.old self.new) }
    {
        match &mut self.stage {
            Stage::Head => Ok(ReplyStep::Need),
            Stage::Done => Ok(ReplyStep::Need),
            Stage::Failed(fault) => Ok(ReplyStep::Fault(*fault)),
            Stage::ToEnd(_) => self.read_to_end(),
            Stage::Body(_, reading) => {
                let progress = reading.read(self.alloc, &mut self.buffer)?;
                Ok(self.after_body(progress))
            }
        }
    }

    // The step where a body came to this.
    fn after_body(&mut self, progress: Progress) -> ReplyStep
        ensures { (o : Box PlainResponse InMemory) (r new : Read) (before : List ℕ) → self.old.stage ≡ Stage.Body o new → IsProgress r before new self.old.buffer progress
            → IsStep (record self.old { stage = Stage.Body o r; buffer = before }) self.new result }
    {
        match progress {
            Progress::Bad(fault) => self.fail(fault_of(fault)),
            Progress::Part => self.unfinished(),
            Progress::Whole(content) => self.finish_body(content),
        }
    }

    // The step where a body ends with the bytes.
    fn read_to_end(&mut self) -> Result<ReplyStep, NoMemory>
        requires { (o : Box PlainResponse InMemory) × (self.old.stage ≡ Stage.ToEnd o) }
        ensures step { IfOk result (IsStep self.old self.new) }
        ensures err { OnErr result (Goes self.old self.new) }
    {
        if self.buffer.bytes().len() > MOST_BODY {
            return Ok(self.fail(BackendFault::TooBig));
        }
        if !self.over {
            return Ok(ReplyStep::Need);
        }
        let content = Vec::from_slice(self.alloc, self.buffer.bytes())?;
        Ok(self.finish_body(content))
    }

    // Gives the response that the body makes whole.
    fn finish_body(&mut self, content: Vec<u8>) -> ReplyStep
        ensures after { self.new ≡ record self.old { stage = Stage.Done } }
        ensures body { (o : Box PlainResponse InMemory) (r : Read) → self.old.stage ≡ Stage.Body o r → seen result ≡ a_response (with_body o.value content.items) }
        ensures to_end { (o : Box PlainResponse InMemory) → self.old.stage ≡ Stage.ToEnd o → seen result ≡ a_response (with_body o.value content.items) }
    {
        match mem::replace(&mut self.stage, Stage::Done) {
            Stage::Body(response, _) => ReplyStep::Done(Response::with_body(response, content)),
            Stage::ToEnd(response) => ReplyStep::Done(Response::with_body(response, content)),
            Stage::Head => ReplyStep::Need,
            Stage::Done => ReplyStep::Need,
            Stage::Failed(_) => ReplyStep::Need,
        }
    }

    fn give(&mut self, response: Box<Response>) -> ReplyStep
        ensures after { self.new ≡ record self.old { stage = Stage.Done } }
        ensures step { result ≡ ReplyStep.Done response }
    {
        self.stage = Stage::Done;
        ReplyStep::Done(response)
    }

    fn fail(&mut self, fault: BackendFault) -> ReplyStep
        ensures after { self.new ≡ record self.old { stage = Stage.Failed fault } }
        ensures step { result ≡ ReplyStep.Fault fault }
    {
        self.stage = Stage::Failed(fault);
        ReplyStep::Fault(fault)
    }

    // The step where the response isn't whole.
    fn unfinished(&mut self) -> ReplyStep
        ensures { IsOpen self.old.stage → ((over : Bool) → Still self.old [] over (unfinished over)) → IsStep self.old self.new result }
    {
        if self.over {
            return self.fail(BackendFault::Cut);
        }
        ReplyStep::Need
    }
}

impl Stage {
    ghost use Rattle.gw_replies.specs.Replies.{IsReads, StillAt};
    ghost use Rattle.gw_replies.specs.model.Responses.{extent_of, is_misframed, IsBodyOf, outcome_of};
    ghost use Rattle.gw_messages.specs.model.Bodies.{Body as BodyOf};

    // What comes behind a head, where so many bytes came.
    fn of(alloc: Global, head: Head, before: usize) -> Result<Stage, NoMemory>
        requires { is_misframed head.fields ≡ false }
        ensures reads { IfOk result IsReads }
        ensures still { IfOk result (λ stage. (to_head : Bool) (count taken : ℕ) (bytes : List ℕ) (over : Bool) (outcome : Outcome) → StillAt stage to_head count taken bytes over outcome
            → (body : BodyOf) × IsBodyOf (extent_of head.fields) before bytes over body × (outcome ≡ outcome_of head body over)) }
    {
        let limits = Limits {
            content: MOST_BODY,
            encoded: MOST_BYTES.saturating_sub(before),
        };
        let extent = extent_of(head.fields.as_slice());
        let response = head.opened(alloc)?;
        match extent {
            Extent::Chunks => Ok(Stage::Body(response, Reading::new(alloc, limits, None))),
            Extent::Size(size) => Ok(Stage::Body(
                response,
                Reading::new(alloc, limits, Some(size)),
            )),
            Extent::End => Ok(Stage::ToEnd(response)),
        }
    }

    // Makes room for a body that was announced.
    fn make_room(&self, buffer: &mut Buffer)
        ensures { buffer.new ≡ buffer.old }
    {
        if let Stage::Body(_, reading) = self {
            reading.make_room(buffer);
        }
    }
}

fn fault_of(fault: BodyFault) -> BackendFault
    ensures { result ≡ fault_of fault }
{
    match fault {
        BodyFault::Malformed => BackendFault::Body,
        BodyFault::LongTrailers => BackendFault::Body,
        BodyFault::TooBig => BackendFault::TooBig,
    }
}

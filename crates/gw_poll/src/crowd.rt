ghost use Rattle.std.specs.Prelude.{◌≡◌, ◌==◌, ◌<◌, ◌≤◌, ◌↔◌, ◌+◌, ℕ, List as Items, [], ◌∷◌, ◌++◌, false, None, length, map, drop, slice_index_or, vec_len, vec_capacity, All, IsPermutation, OnOk, OnErr, IfOk, IfErr, IfSome};
ghost use Rattle.std.specs.List.{list_any};
ghost use Rattle.futures.specs.Task.{Keeps as KeepsTask};
ghost use Rattle.gw_polling.specs.Rings.{is_among};
ghost use Rattle.gw_snap.specs.Lists.{BeginsWith};
ghost use Rattle.gw_poll.specs.Courses.{CanGoOn};
ghost use Rattle.gw_worker.specs.model.Workers.{Worker as PlainWorker};
ghost use Rattle.gw_poll.specs.Members.{Member as PlainMember};
ghost use Rattle.gw_poll.specs.Crowds.{AdmitsOne, CanTurn, HasTurned, IsFull, IsOpenAt, IsTurning, PollsOne, numbers_of};

use crate::conn_future::ConnFuture;
use futures::task::{Context, Poll};
use gw_frames::Ended;
use gw_polling::{Numbers, PollLink, PollUpstream};
use gw_text::NoMemory;
use gw_worker::{ConnFault, Served, Worker};
use std::alloc::Global;
use std::marker::Model;

/// The most connections that a crowd has open.
pub const MOST_OPEN: usize = 256;

/// An open connection and its number. It stands behind a handle, so that a poll doesn't move it.
#[derive(Drop)]
pub(crate) struct Member<K, U> {
    number: u64,
    conn: Box<ConnFuture<K, U>>,
}

impl<K, U> Model for Member<K, U> {
    ghost use Rattle.gw_poll.specs.Members.{Member as Plain};

    ghost Value = { Plain K U };

    ghost view = { λ m. record { number = m.number; conn = m.conn.value } };
}

/// A connection that has ended or was given up, with what it came to.
#[derive(Drop)]
pub struct Parted<K, U> {
    pub number: u64,
    pub rows: Served,
    pub link: K,
    pub up: U,
    pub result: Result<Ended, ConnFault>,
}

/// The connections that ended in a turn.
pub type Gone<K, U> = Vec<Parted<K, U>>;

/// Why a connection wasn't admitted.
#[derive(Clone, Copy, Debug, PartialEq, Eq)]
pub enum Cause {
    /// As many are open as a crowd may have.
    Full,
    NoMemory,
}

/// A connection that wasn't admitted.
#[derive(Drop)]
pub struct Refused<K, U> {
    pub link: K,
    pub up: U,
    pub cause: Cause,
}

/// The connections of one worker, each with a number. Those that are worth it are polled, one after another.
#[derive(Drop)]
pub struct Crowd<K, U> {
    alloc: Global,
    pub(crate) worker: Worker,
    pub(crate) door: usize,
    pub(crate) members: Vec<Member<K, U>>,
}

impl<K: PollLink, U: PollUpstream> Crowd<K, U> {
    /// No connections, at the door of this number.
    pub fn new(alloc: Global, worker: Worker, door: usize) -> Crowd<K, U>
        requires { door < length worker.pass.fixed.0 }
        ensures members { result.members.items ≡ [] }
        ensures worker { result.worker ≡ worker }
        ensures door { result.door ≡ door }
        ensures can_turn { CanTurn U.PollUpstream result }
    {
        Crowd {
            alloc,
            worker,
            door,
            members: Vec::new(alloc),
        }
    }

    /// How many are open.
    pub fn open(&self) -> usize
        ensures { result ≡ length self.now.members.items }
    {
        self.members.len()
    }

    /// Takes a connection with a number that no open one has. One that is refused is handed back.
    pub fn admit(&mut self, number: u64, link: K, up: U) -> Result<(), Refused<K, U>>
        requires can_turn { CanTurn U.PollUpstream self.old }
        requires fresh { is_among number (numbers_of self.old) ≡ false }
        ensures ok { OnOk result (AdmitsOne self.old self.new number link up) }
        ensures full { IfErr result (λ refused. (refused.cause ≡ Cause.Full) ↔ IsFull self.old) }
        ensures back { IfErr result (λ refused. (refused.link ≡ link) × (refused.up ≡ up)) }
        ensures err { OnErr result (self.new.members.items ≡ self.old.members.items) }
        ensures worker { self.new.worker ≡ self.old.worker }
        ensures door { self.new.door ≡ self.old.door }
        ensures can_turn { CanTurn U.PollUpstream self.new }
    {
        if self.members.len() == MOST_OPEN {
            let cause = Cause::Full;
            return Err(Refused { link, up, cause });
        }
        if self.members.reserve(1).is_err() {
            let cause = Cause::NoMemory;
            return Err(Refused { link, up, cause });
        }
        match Box::new(self.alloc, ConnFuture::new(self.alloc, self.door, link, up)) {
            Ok(conn) => {
                self.members.push_reserved(Member { number, conn });
                Ok(())
            }
            Err(failed) => {
                let (_, link, up) = failed.value.into_parts();
                Err(Refused {
                    link,
                    up,
                    cause: Cause::NoMemory,
                })
            }
        }
    }

    /// Polls each open connection that is named, in the order of the list, and each once. A number that isn't open is passed over. Where
    /// memory is wanted nothing is polled. Each connection is open still, or is given back.
    pub fn turn(&mut self, ready: &Numbers, cx: &mut Context<'_>) -> Result<Gone<K, U>, NoMemory>
        requires can_turn { CanTurn U.PollUpstream self.old }
        ensures turned { IfOk result (λ gone. HasTurned K.PollLink U.PollUpstream cx.new self.old self.new ready.now gone.items) }
        ensures parted { IfOk result (λ gone. IsPermutation (numbers_of self.old) (numbers_of self.new ++ map (λ parted. parted.number) gone.items)) }
        ensures err { OnErr result (self.new ≡ self.old) }
        ensures can_turn { CanTurn U.PollUpstream self.new }
        ensures later { BeginsWith self.old.worker.pass.seen self.new.worker.pass.seen }
        ensures task { KeepsTask cx.old cx.new }
    {
        let most = self.members.len();
        let mut waiting = Vec::with_capacity(self.alloc, most)?;
        let mut gone = Vec::with_capacity(self.alloc, most)?;
        'named: for number in ready.as_slice() {
            self.poll_named(*number, cx, &mut waiting, &mut gone);
        }
        self.members.append(&mut waiting).unwrap();
        Ok(gone)
    }

    // Polls the connection with this number, where it is open and wasn't polled yet.
    fn poll_named(
        &mut self,
        number: u64,
        cx: &mut Context<'_>,
        waiting: &mut Vec<Member<K, U>>,
        gone: &mut Vec<Parted<K, U>>,
    )
        requires door { self.old.door < length self.old.worker.pass.fixed.0 }
        requires open_at { All (IsOpenAt U.PollUpstream self.old.door) self.old.members.items }
        requires waiting_room { vec_len waiting.old + length self.old.members.items ≤ vec_capacity waiting.old }
        requires gone_room { vec_len gone.old + length self.old.members.items ≤ vec_capacity gone.old }
        ensures turns { (first : PlainWorker) (before : Items (PlainMember K U)) (named : Items ℕ) (done : ℕ) → drop done named ≡ number ∷ drop (done + 1) named
            → IsTurning K.PollLink U.PollUpstream cx.old self.old.door first self.old.worker before self.old.members.items waiting.old.items gone.old.items named done
            → IsTurning K.PollLink U.PollUpstream cx.new self.old.door first self.new.worker before self.new.members.items waiting.new.items gone.new.items named (done + 1) }
        ensures waiting_room { vec_capacity waiting.new ≡ vec_capacity waiting.old }
        ensures gone_room { vec_capacity gone.new ≡ vec_capacity gone.old }
        ensures room { vec_capacity self.new.members ≡ vec_capacity self.old.members }
        ensures fixed { self.new.worker.pass.fixed ≡ self.old.worker.pass.fixed }
        ensures door { self.new.door ≡ self.old.door }
        ensures later { BeginsWith self.old.worker.pass.seen self.new.worker.pass.seen }
        ensures task { KeepsTask cx.old cx.new }
    {
        let Some(at) = place_of(&self.members, number) else {
            return;
        };
        let member = self.members.swap_remove(at);
        poll_one(&mut self.worker, member, cx, waiting, gone);
    }
}

// Polls a connection, and puts it to the waiting ones, or to the ended ones with what it came to. There is room for it.
fn poll_one<K: PollLink, U: PollUpstream>(
    w: &mut Worker,
    member: Member<K, U>,
    cx: &mut Context<'_>,
    waiting: &mut Vec<Member<K, U>>,
    gone: &mut Vec<Parted<K, U>>,
)
    requires door { member.conn.course.conn.door < length w.old.pass.fixed.0 }
    requires going { CanGoOn member.conn.course (U.at member.conn.up) }
    requires waiting_room { vec_len waiting.old < vec_capacity waiting.old }
    requires gone_room { vec_len gone.old < vec_capacity gone.old }
    ensures polls { PollsOne K.PollLink U.PollUpstream cx.new w.old w.new member waiting.old.items waiting.new.items gone.old.items gone.new.items }
    ensures waiting_room { vec_capacity waiting.new ≡ vec_capacity waiting.old }
    ensures gone_room { vec_capacity gone.new ≡ vec_capacity gone.old }
    ensures fixed { w.new.pass.fixed ≡ w.old.pass.fixed }
    ensures later { BeginsWith w.old.pass.seen w.new.pass.seen }
    ensures task { KeepsTask cx.old cx.new }
{
    let Member { number, mut conn } = member;
    match conn.poll(w, cx) {
        Poll::Pending => waiting.push_reserved(Member { number, conn }),
        Poll::Ready(result) => {
            let (rows, link, up) = Box::into_inner(conn).into_parts();
            gone.push_reserved(Parted {
                number,
                rows,
                link,
                up,
                result,
            });
        }
    }
}

// The place of the member with this number.
fn place_of<K, U>(members: &[Member<K, U>], number: u64) -> Option<usize>
    ensures found { IfSome result (λ at. (at < length members.now) × ((other : PlainMember K U) → (slice_index_or members.now at other).number ≡ number)) }
    ensures none { result ≡ None → list_any (λ member. member.number == number) members.now ≡ false }
{
    'members: for (at, member) in members.iter().enumerate() {
        if member.number == number {
            return Some(at);
        }
    }
    None
}

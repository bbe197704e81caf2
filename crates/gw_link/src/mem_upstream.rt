ghost use Rattle.std.specs.Prelude.{◌≡◌, ℕ, ◌+◌, ◌^◌, ◌<◌, ◌≤◌, List, [], ◌∷◌, ◌++◌, true, Some, None, length, take, drop, min, vec_len, IfOk, IfSome, OnOk, OnErr, IsErr, IsTrue, is_ok, is_some, false, Bool, if◌then◌else◌, option_copied, unwrap_or};
ghost use Rattle.gw_text.specs.model.Addresses.{Socket as Address};
ghost use Rattle.gw_link.specs.Exchanges.{change_last, receiving};
ghost use Rattle.gw_link.specs.Memory.{first_call};
ghost use Rattle.gw_link.specs.Upstreams.{UpstreamState, same_call, fails_after, fails_at, own_answer, answer_after, answer_at, is_failing_to, next_piece, after_connect, after_send, after_receive, after_close, Becomes, Refuses};
ghost use Rattle.gw_link.specs.UpstreamLaws.{becomes_self as becomes_itself, becomes_then as becomes_more, refuses_later as refused_behind, refuses_still as refused_before};

use crate::exchange::{Exchange, receive_in_last, send_in_last};
use crate::failed::Failed;
use crate::order::{Order, UpstreamCall};
use crate::plan::Plan;
use crate::upstream::Upstream;
use gw_text::{NoMemory, Socket};
use std::alloc::Global;
use std::marker::Model;

/// An upstream whose backends answer from memory, the same at each connection. A socket for which there is no answer gives a
/// response with its own text.
#[derive(Drop)]
pub struct MemUpstream {
    alloc: Global,
    orders: Vec<Order>,
    exchanges: Vec<Exchange>,
    at: Option<Socket>,
    got: usize,
    most: usize,
    starved: u64,
    plan: Plan,
}

impl Model for MemUpstream {
    ghost Value = { UpstreamState };

    ghost view = { λ u. record {
      orders = u.orders.items;
      exchanges = u.exchanges.items;
      at = u.at;
      got = u.got;
      most = u.most;
      starved = u.starved;
      calls = u.plan;
    } };

    ghost invariant = { λ u. (0 < u.most) × (is_some u.at ≡ true → 0 < vec_len u.exchanges) };
}

impl MemUpstream {
    /// `fails`: the numbers of the calls that fail, from 0; `close` is no such call.
    pub fn new(alloc: Global, fails: Vec<u64>) -> Self
        ensures { result ≡ record {
          orders = [];
          exchanges = [];
          at = None;
          got = 0;
          most = usize.MAX;
          starved = 0;
          calls = first_call fails.items;
        } }
    {
        MemUpstream {
            alloc,
            orders: Vec::new(alloc),
            exchanges: Vec::new(alloc),
            at: None,
            got: 0,
            most: usize::MAX,
            starved: 0,
            plan: Plan::new(fails),
        }
    }

    /// The same upstream, one `send` of which takes and one `receive` of which gives at most `most` bytes.
    pub fn at_most(self, most: usize) -> Self
        requires { 0 < most }
        ensures { result ≡ record self { most = most } }
    {
        let mut upstream = self;
        upstream.most = most;
        upstream
    }

    /// From now on a backend does so.
    pub fn order(&mut self, order: Order) -> Result<(), NoMemory>
        ensures ok { OnOk result (self.new ≡ record self.old { orders = self.old.orders ++ order ∷ [] }) }
        ensures err { OnErr result (self.new ≡ self.old) }
    {
        self.orders.push(order)?;
        Ok(())
    }

    /// The exchanges so far, one for each connection that was opened.
    pub fn exchanges(&self) -> &[Exchange]
        ensures { result.now ≡ self.now.exchanges }
    {
        self.exchanges.as_slice()
    }

    /// How many calls have failed, for want of memory or not.
    pub fn faults(&self) -> u64
        ensures { result ≡ self.now.calls.faults }
    {
        self.plan.faults()
    }

    /// How many calls have failed for want of memory.
    pub fn starved(&self) -> u64
        ensures { result ≡ self.now.starved }
    {
        self.starved
    }

    // Whether the next call fails by its number, or is one that fails at this socket.
    fn is_failing(&self, call: UpstreamCall, to: Option<Socket>) -> bool
        ensures { result ≡ is_failing_to call to self.now }
    {
        match to {
            Some(to) => self.plan.fails() || fails_at(&self.orders, call, to),
            None => self.plan.fails(),
        }
    }

    // Puts the next piece of the answer into the buffer, and says of how many bytes it is.
    fn copy_next(&self, buf: &mut [u8]) -> Result<usize, NoMemory>
        ensures size { IfOk result (λ n. n ≡ length (next_piece (length buf.old) self.now)) }
        ensures bytes { IfOk result (λ n. take n buf.new ≡ next_piece (length buf.old) self.now) }
        ensures rest { IfOk result (λ n. drop n buf.new ≡ drop n buf.old) }
        ensures counted { IfOk result (λ n. self.now.got + n < 2 ^ 64) }
    {
        let got = self.got;
        let Some(to) = self.at else {
            return Ok(0);
        };
        match answer_in(&self.orders, to) {
            Some(answer) => Ok(copy_piece(answer, got, self.most, buf)),
            None => {
                let answer = own_answer(self.alloc, to)?;
                Ok(copy_piece(&answer, got, self.most, buf))
            }
        }
    }

    // Gives the next piece of the answer, and keeps it.
    fn give_next(&mut self, buf: &mut [u8]) -> Result<usize, NoMemory>
        requires { is_some self.old.at ≡ true }
        ensures size { IfOk result (λ n. n ≡ length (next_piece (length buf.old) self.old)) }
        ensures bytes { IfOk result (λ n. take n buf.new ≡ next_piece (length buf.old) self.old) }
        ensures rest { IfOk result (λ n. drop n buf.new ≡ drop n buf.old) }
        ensures after { OnOk result (self.new ≡ record self.old {
          exchanges = change_last (receiving (next_piece (length buf.old) self.old)) self.old.exchanges;
          got = self.old.got + length (next_piece (length buf.old) self.old);
        }) }
        ensures err { OnErr result (self.new ≡ self.old) }
    {
        let size = self.copy_next(buf)?;
        receive_in_last(&mut self.exchanges, &buf[..size])?;
        self.got += size;
        Ok(size)
    }
}

impl Upstream for MemUpstream {
    ghost exchanges = { λ u. Some u.exchanges };

    ghost at = { λ u. u.at };

    ghost faults = { λ u. u.calls.faults };

    ghost becomes = { Becomes };

    ghost refuses = { Refuses };

    fn connect(&mut self, to: Socket) -> Result<(), Failed>
        ensures listed { IsTrue (is_failing_to UpstreamCall.Connect (Some to) self.old) → IsErr result }
        ensures after { self.new ≡ after_connect to (is_ok result) self.old }
        ensures refused { OnErr result (Refuses self.old self.new UpstreamCall.Connect to) }
        ensures goes { Becomes self.old self.new }
    {
        self.at = None;
        if self.is_failing(UpstreamCall::Connect, Some(to)) {
            self.plan.fail();
            return Err(Failed);
        }
        let exchange = Exchange {
            to,
            sent: Vec::new(self.alloc),
            given: Vec::new(self.alloc),
            ended: false,
        };
        match self.exchanges.push(exchange) {
            Ok(()) => {
                self.at = Some(to);
                self.got = 0;
                self.plan.pass();
                Ok(())
            }
            Err(_) => {
                self.starved = self.starved.saturating_add(1);
                self.plan.fail();
                Err(Failed)
            }
        }
    }

    fn send(&mut self, piece: &[u8]) -> Result<usize, Failed>
        requires connected { is_some self.old.at ≡ true }
        requires any { 0 < length piece.now }
        ensures listed { IsTrue (is_failing_to UpstreamCall.Send self.old.at self.old) → IsErr result }
        ensures size { IfOk result (λ n. n ≡ min (length piece.now) self.old.most) }
        ensures some { IfOk result (λ n. 0 < n) }
        ensures after { self.new ≡ after_send piece.now (is_ok result) self.old }
        ensures refused { OnErr result (IfSome self.old.at (λ to. Refuses self.old self.new UpstreamCall.Send to)) }
        ensures goes { Becomes self.old self.new }
    {
        if self.is_failing(UpstreamCall::Send, self.at) {
            self.plan.fail();
            return Err(Failed);
        }
        let taken = piece.len().min(self.most);
        match send_in_last(&mut self.exchanges, &piece[..taken]) {
            Ok(()) => {
                self.plan.pass();
                Ok(taken)
            }
            Err(_) => {
                self.starved = self.starved.saturating_add(1);
                self.plan.fail();
                Err(Failed)
            }
        }
    }

    fn receive(&mut self, buf: &mut [u8]) -> Result<usize, Failed>
        requires connected { is_some self.old.at ≡ true }
        requires any { 0 < length buf.old }
        ensures listed { IsTrue (is_failing_to UpstreamCall.Receive self.old.at self.old) → IsErr result }
        ensures size { IfOk result (λ n. n ≡ length (next_piece (length buf.old) self.old)) }
        ensures within { IfOk result (λ n. n ≤ length buf.new) }
        ensures bytes { IfOk result (λ n. take n buf.new ≡ next_piece (length buf.old) self.old) }
        ensures rest { IfOk result (λ n. drop n buf.new ≡ drop n buf.old) }
        ensures after { self.new ≡ after_receive (length buf.old) (is_ok result) self.old }
        ensures refused { OnErr result (IfSome self.old.at (λ to. Refuses self.old self.new UpstreamCall.Receive to)) }
        ensures goes { Becomes self.old self.new }
    {
        if self.is_failing(UpstreamCall::Receive, self.at) {
            self.plan.fail();
            return Err(Failed);
        }
        match self.give_next(buf) {
            Ok(size) => {
                self.plan.pass();
                Ok(size)
            }
            Err(_) => {
                self.starved = self.starved.saturating_add(1);
                self.plan.fail();
                Err(Failed)
            }
        }
    }

    fn close(&mut self)
        ensures after { self.new ≡ after_close self.old }
        ensures goes { Becomes self.old self.new }
    {
        self.at = None;
    }

    ghost becomes_self = { becomes_itself };

    ghost becomes_then = { becomes_more };

    ghost refuses_later = { refused_behind };

    ghost refuses_still = { refused_before };
}

fn same_call(a: UpstreamCall, b: UpstreamCall) -> bool
    ensures { result ≡ same_call a b }
{
    match (a, b) {
        (UpstreamCall::Connect, UpstreamCall::Connect) => true,
        (UpstreamCall::Send, UpstreamCall::Send) => true,
        (UpstreamCall::Receive, UpstreamCall::Receive) => true,
        _ => false,
    }
}

// Whether a call fails at a socket after an order.
fn fails_after(call: UpstreamCall, to: Socket, fails: bool, order: &Order) -> bool
    ensures { result ≡ fails_after call to fails order.now }
{
    match order {
        Order::Answers(at, _) => fails && !at.same_socket(&to),
        Order::Fails(at, other) => fails || (at.same_socket(&to) && same_call(*other, call)),
    }
}

// Whether a call fails at a socket after all these orders.
fn fails_at(orders: &[Order], call: UpstreamCall, to: Socket) -> bool
    ensures { result ≡ fails_at call to orders.now }
{
    orders
        .iter()
        .fold(false, |fails, order| fails_after(call, to, fails, order))
}

// What a socket without an answer gives.
fn own_answer(alloc: Global, to: Socket) -> Result<Vec<u8>, NoMemory>
    ensures { IfOk result (λ answer. answer.items ≡ own_answer to) }
{
    let text = to.print(alloc)?;
    let size = text.bytes().len();
    let head = format!(in alloc; "HTTP/1.1 200 OK\r\ncontent-length: {size}\r\n\r\n")?;
    let mut answer = head.into_bytes();
    answer.extend_from_slice(text.bytes())?;
    Ok(answer)
}

// What a socket gives after an order, where it was given these bytes, or its own text.
fn answer_after<'a>(to: Socket, answer: Option<&'a [u8]>, order: &'a Order) -> Option<&'a [u8]>
    ensures { (own : List ℕ) → unwrap_or (option_copied result) own ≡ answer_after to (unwrap_or (option_copied answer.entry) own) order.now }
{
    match order {
        Order::Answers(at, bytes) => {
            if at.same_socket(&to) {
                return Some(bytes.as_slice());
            }
            answer
        }
        Order::Fails(_, _) => answer,
    }
}

// What a socket gives after all these orders, where there is an answer for it.
fn answer_in(orders: &[Order], to: Socket) -> Option<&[u8]>
    ensures { unwrap_or (option_copied result) (own_answer to) ≡ answer_at to orders.now }
{
    let mut answer = None;
    'orders: for order in orders {
        answer = answer_after(to, answer, order);
    }
    answer
}

// Puts the next piece behind so many bytes into the buffer, whose other bytes stay.
fn copy_piece(bytes: &[u8], at: usize, most: usize, buf: &mut [u8]) -> usize
    ensures size { result ≡ length (take (min (length buf.old) most) (drop at bytes.now)) }
    ensures bytes { take result buf.new ≡ take (min (length buf.old) most) (drop at bytes.now) }
    ensures rest { drop result buf.new ≡ drop result buf.old }
    ensures counted { at + result < 2 ^ 64 }
{
    let left = &bytes[at.min(bytes.len())..];
    let size = buf.len().min(most).min(left.len());
    buf[..size].copy_from_slice(&left[..size]);
    size
}

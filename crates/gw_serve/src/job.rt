//! Jobs: those that serve the connections of an acceptor, one after another, and those whose connections are polled.
ghost use Rattle.std.specs.Prelude.{◌≡◌, ◌<◌, [], false, length, IfSome};

use crate::polled::PolledJob;
use gw_admin::admin_next;
use gw_edge::{Acceptor, Next, Work};
use gw_hub::{Hub, HubName};
use gw_link::{Clock, Upstream};
use gw_match::Tables;
use gw_polling::{PollLink, PollUpstream, Ring};
use gw_snap::Pass;
use gw_worker::{Worker, serve_next};
use std::alloc::Global;
use std::sync::{Arc, Wait};

/// Serves the connections of the admin endpoint.
#[derive(Drop)]
pub struct AdminJob<A: Acceptor, C: Clock + Drop, N: HubName, R: Wait + Drop> {
    pub alloc: Global,
    pub hub: Arc<Hub<N, R>>,
    pub pass: Pass<Tables>,
    pub clock: C,
    pub accept: A,
    /// After how many accepts it ends, failed ones included. None: it doesn't end.
    pub conns: Option<u32>,
    ghost book: { pass.book ≡ N.book },
    ghost fixed: { pass.fixed ≡ (N.doors, N.controller) },
}

/// Serves the connections at the door of a number.
#[derive(Drop)]
pub struct ProxyJob<A: Acceptor, U: Upstream> {
    pub alloc: Global,
    pub worker: Worker,
    pub door: usize,
    pub accept: A,
    pub up: U,
    /// After how many accepts it ends, failed ones included. None: it doesn't end.
    pub conns: Option<u32>,
    ghost is_there: { door < length worker.pass.fixed.0 },
}

/// A job of `serve`.
#[derive(Drop)]
pub enum Job<
    A: Acceptor,
    U: Upstream,
    K: PollLink,
    V: PollUpstream,
    G: Ring<Link = K, Up = V>,
    C: Clock + Drop,
    N: HubName,
    R: Wait + Drop,
> {
    Admin(AdminJob<A, C, N, R>),
    Proxy(ProxyJob<A, U>),
    Polled(PolledJob<K, V, G>),
}

// Who takes connections in turn.
trait Serving {
    // Serves the next connection. False: none is left. A connection that broke, or that couldn't be had, is no reason to stop.
    fn next<W: Wait>(&mut self, rt: &W) -> bool;
}

impl<A: Acceptor, C: Clock + Drop, N: HubName, R: Wait + Drop> Serving for AdminJob<A, C, N, R> {
    fn next<W: Wait>(&mut self, rt: &W) -> bool
        ensures { result ≡ false → IfSome (A.coming self.old.accept) (λ links. links ≡ []) }
    {
        let next = admin_next(
            rt,
            self.alloc,
            &self.hub,
            &mut self.pass,
            &mut self.clock,
            &mut self.accept,
        );
        !matches!(next, Next::Done)
    }
}

impl<A: Acceptor, U: Upstream> Serving for ProxyJob<A, U> {
    fn next<W: Wait>(&mut self, _rt: &W) -> bool
        ensures { result ≡ false → IfSome (A.coming self.old.accept) (λ links. links ≡ []) }
    {
        let next = serve_next(
            self.alloc,
            &mut self.worker,
            self.door,
            &mut self.accept,
            &mut self.up,
        );
        !matches!(next, Next::Done)
    }
}

// Serves so many connections, or fewer where none is left.
fn serve_some<S: Serving, W: Wait>(rt: &W, job: &mut S, most: u32) {
    'connections: for _ in 0..most {
        if !job.next(rt) {
            return;
        }
    }
}

// Serves connections without an end.
fn serve_all<S: Serving, W: Wait>(rt: &W, job: &mut S) {
    'connections: for _ in rt.forever() {
        job.next(rt);
    }
}

fn serve_each<S: Serving, W: Wait>(rt: &W, job: &mut S, conns: Option<u32>) {
    match conns {
        Some(most) => serve_some(rt, job, most),
        None => serve_all(rt, job),
    }
}

impl<
    A: Acceptor,
    U: Upstream,
    K: PollLink,
    V: PollUpstream,
    G: Ring<Link = K, Up = V>,
    C: Clock + Drop,
    N: HubName,
    R: Wait + Drop,
> Work for Job<A, U, K, V, G, C, N, R> {
    fn work<W: Wait>(self, rt: &W) {
        match self {
            Job::Admin(mut job) => {
                let conns = job.conns;
                serve_each(rt, &mut job, conns);
            }
            Job::Proxy(mut job) => {
                let conns = job.conns;
                serve_each(rt, &mut job, conns);
            }
            Job::Polled(job) => job.serve(rt),
        }
    }
}

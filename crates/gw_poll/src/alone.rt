ghost use Rattle.std.specs.Prelude.{◌≡◌, ◌<◌, length, Some, IsSomeAnd};
ghost use Rattle.gw_worker.specs.Flows.{outside};
ghost use Rattle.gw_poll.specs.Alones.{ComesTo, IsServed};
ghost use Rattle.gw_poll.specs.Courses.{CanGoOn};

use crate::conn_future::ConnFuture;
use futures::Future;
use futures::task::{Context, Poll};
use gw_frames::Ended;
use gw_polling::{PollLink, PollUpstream};
use gw_worker::{ConnFault, Worker};

/// A connection that was served by a worker of its own, and what it came to.
#[derive(Drop)]
pub struct Finished<K, U> {
    pub worker: Worker,
    pub conn: ConnFuture<K, U>,
    pub result: Result<Ended, ConnFault>,
}

/// A connection that has its worker for itself: a future that gives both back once the connection has ended or is given up.
#[derive(Drop)]
pub struct Alone<K, U> {
    // None: it has given them back.
    both: Option<(Worker, ConnFuture<K, U>)>,
}

impl<K: PollLink, U: PollUpstream> Alone<K, U> {
    /// The connection, whose door is one of the worker's tables, with this worker.
    pub fn new(worker: Worker, conn: ConnFuture<K, U>) -> Alone<K, U>
        ensures { result.both ≡ Some (worker, conn) }
    {
        Alone {
            both: Some((worker, conn)),
        }
    }
}

impl<K: PollLink, U: PollUpstream> Future for Alone<K, U> {
    type Output = Finished<K, U>;

    ghost can_poll = { λ a. IsSomeAnd a.both (λ both. (both.1.course.conn.door < length both.0.pass.fixed.0) × CanGoOn both.1.course (U.at both.1.up)) };

    ghost gives = { λ a x. IsSomeAnd a.both (λ both. U.becomes both.1.up x.conn.up × ComesTo (U.refuses both.1.up x.conn.up) both.0 x.worker both.1.course x.conn.course (K.left both.1.link) (K.left x.conn.link)
        (outside (K.written both.1.link) (U.exchanges both.1.up) (U.faults both.1.up)) (outside (K.written x.conn.link) (U.exchanges x.conn.up) (U.faults x.conn.up)) x.result) };

    fn poll(&mut self, cx: &mut Context<'_>) -> Poll<Finished<K, U>> {
        let Some((worker, conn)) = self.both.take() else {
            unreachable!()
        };
        let (mut worker, mut conn) = (worker, conn);
        match conn.poll(&mut worker, cx) {
            Poll::Ready(result) => Poll::Ready(Finished {
                worker,
                conn,
                result,
            }),
            Poll::Pending => {
                self.both = Some((worker, conn));
                Poll::Pending
            }
        }
    }
}

use mio::net::TcpStream;
use mio::{Interest, Registry, Token};
use std::io;
use std::io::ErrorKind;
use std::rt::Clock;
use std::sync::Arc;
use std::time::{Duration, Instant};

/// For what a ring waits at a socket, and how long already. A socket is registered when a call first finds it not ready, so that one whose
/// calls are all ready costs no call for that; what became ready before is reported all the same.
#[derive(Drop)]
pub(crate) struct Watch<R: Clock + Drop> {
    rt: R,
    registry: Arc<Registry>,
    token: Token,
    interests: Option<Interest>,
    // When a call found it not ready, and none has found it ready since.
    since: Option<Instant>,
}

impl<R: Clock + Drop> Watch<R> {
    /// That of a socket that isn't registered.
    pub(crate) fn new(rt: R, registry: Arc<Registry>, token: Token) -> Self {
        Watch {
            rt,
            registry,
            token,
            interests: None,
            since: None,
        }
    }

    /// From now on the ring hears of the socket when it becomes ready so.
    pub(crate) fn hear(&mut self, stream: &mut TcpStream, wanted: Interest) -> io::Result<()> {
        let Some(interests) = self.interests else {
            self.registry.register(stream, self.token, wanted)?;
            self.interests = Some(wanted);
            return Ok(());
        };
        let both = interests | wanted;
        if both != interests {
            self.registry.reregister(stream, self.token, both)?;
            self.interests = Some(both);
        }
        Ok(())
    }

    // How long the socket hasn't been ready.
    fn silence(&mut self) -> io::Result<Duration> {
        let now = Instant::now(&self.rt)?;
        match self.since {
            Some(since) => Ok(now.duration_since(since)),
            None => {
                self.since = Some(now);
                Ok(Duration::from_secs(0))
            }
        }
    }

    /// A call found the socket not ready: the ring hears of it when it is. An error where it hasn't been for so many seconds.
    pub(crate) fn wait(
        &mut self,
        stream: &mut TcpStream,
        wanted: Interest,
        most: u64,
    ) -> io::Result<()> {
        if self.silence()? > Duration::from_secs(most) {
            return Err(io::Error::from(ErrorKind::TimedOut));
        }
        self.hear(stream, wanted)
    }

    /// A call found the socket ready.
    pub(crate) fn found_ready(&mut self) {
        self.since = None;
    }

    /// Whether the ring hears of the socket when there is something to read.
    pub(crate) fn hears_reads(&self) -> bool {
        match self.interests {
            Some(interests) => interests.is_readable(),
            None => false,
        }
    }

    /// Another socket is watched from now on, which isn't registered.
    pub(crate) fn renew(&mut self) {
        self.interests = None;
        self.since = None;
    }
}

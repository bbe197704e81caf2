ghost use Rattle.std.specs.Prelude.{◌≡◌, ℤ, None, pos};

use gw_link::Clock;
use gw_text::Second;
use std::marker::Model;
use std::time::{SystemTime, UNIX_EPOCH};

/// The system's clock, in whole seconds. Where it can't be read it gives its last moment again, at first 0. Contracts see its last
/// moment.
#[derive(Drop)]
pub struct WallClock<R: std::rt::Clock + Drop> {
    rt: R,
    last: Second,
}

impl<R: std::rt::Clock + Drop> Model for WallClock<R> {
    ghost use Rattle.std.specs.Prelude.{ℤ};

    ghost Value = { ℤ };

    ghost view = { λ c. c.last };
}

impl<R: std::rt::Clock + Drop> WallClock<R> {
    /// A clock that has not been read yet.
    pub fn new(rt: R) -> Self
        ensures { result ≡ pos 0 }
    {
        WallClock {
            rt,
            last: Second(0),
        }
    }
}

impl<R: std::rt::Clock + Drop> Clock for WallClock<R> {
    ghost moments = { λ _. None };

    fn now(&mut self) -> Second
        ensures last { self.new ≡ result }
    {
        if let Some(seconds) = seconds_now(&self.rt) {
            self.last = Second(seconds);
        }
        self.last
    }
}

fn seconds_now(rt: &impl std::rt::Clock) -> Option<i64> {
    let now = SystemTime::now(rt).ok()?;
    let since = now.duration_since(UNIX_EPOCH).ok()?;
    i64::try_from(since.as_secs()).ok()
}

ghost use Rattle.std.specs.Prelude.{◌≡◌, ◌≤◌, pos, drop, Some, vec_len};
ghost use Rattle.gw_link.specs.Memory.{ClockState, next_moment, after_now};

use crate::clock::Clock;
use gw_text::Second;
use std::marker::Model;

/// A clock that gives moments from memory, each once and in turn. When they are used up it gives
/// the last one again, or `Second(0)` where there was none.
#[derive(Drop)]
pub struct MemClock {
    moments: Vec<Second>,
    at: usize,
    last: Second,
}

impl Model for MemClock {
    ghost Value = { ClockState };

    ghost view = { λ c. record { left = drop c.at c.moments.items; last = c.last } };

    ghost invariant = { λ c. c.at ≤ vec_len c.moments };
}

impl MemClock {
    /// Gives these moments in turn, and the last one again once they are used up; 0 where there is none.
    pub fn new(moments: Vec<Second>) -> Self
        ensures { result ≡ record { left = moments.items; last = pos 0 } }
    {
        MemClock {
            moments,
            at: 0,
            last: Second(0),
        }
    }

    /// The moments to come.
    pub fn left(&self) -> &[Second]
        ensures { result.now ≡ self.now.left }
    {
        &self.moments[self.at..]
    }
}

impl Clock for MemClock {
    ghost moments = { λ c. Some c.left };

    fn now(&mut self) -> Second
        ensures moment { result ≡ next_moment self.old }
        ensures after { self.new ≡ after_now self.old }
    {
        if self.at < self.moments.len() {
            self.last = self.moments[self.at];
            self.at += 1;
        }
        self.last
    }
}

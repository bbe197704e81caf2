ghost use Rattle.std.specs.Prelude.{ℤ, List, Option};
ghost use Rattle.gw_link.specs.Moments.{Ticks};

use gw_text::Second;

/// What the time is. It has no fault.
pub trait Clock {
    // The moments to come, which needn't rise. None: it doesn't tell.
    ghost moments: { Self → Option (List ℤ) };

    fn now(&mut self) -> Second
        ensures { Ticks (moments self.old) result (moments self.new) };
}

//! Handles, of which there may be many on the same.
ghost use Rattle.std.specs.Prelude.{◌≡◌, IfOk};

use gw_text::NoMemory;

/// A handle on something that isn't copied where many hold it.
pub(crate) trait Handle {
    /// One handle more on the same.
    fn one_more(&self) -> Result<Self, NoMemory>
        ensures { IfOk result (λ handle. handle ≡ self.now) };
}

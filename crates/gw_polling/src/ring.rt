ghost use Rattle.std.specs.Prelude.{◌≡◌, ℕ, ◌≤◌, false, List, [], ◌++◌, Option, IfSome};
ghost use Rattle.std.specs.Option.{option_to_list};
ghost use Rattle.futures.specs.Task.{Keeps as KeepsTask};
ghost use Rattle.gw_link.specs.Faults.{HasRisen};
ghost use Rattle.gw_link.specs.Pieces.{Keeps};
ghost use Rattle.gw_polling.specs.Rings.{is_among, without, new_number, Comes};

use crate::poll_link::PollLink;
use crate::poll_upstream::PollUpstream;
use crate::woken::{RingFault, Woken};
use futures::task::Context;
use std::alloc::Global;
use std::sync::Wait;

/// Where the connections of one worker come from, each with a number that is given once, and where the worker waits until some of
/// them are worth a poll. Of readiness nothing is promised.
pub trait Ring: Drop {
    type Link: PollLink;

    type Up: PollUpstream;

    // How many connections are to come. None: it doesn't tell.
    ghost coming: { Self → Option ℕ };

    // The numbers of the connections that are open, and all numbers that it gave, also where it doesn't tell what comes.
    ghost open_numbers: { Self → List ℕ };

    ghost given_numbers: { Self → List ℕ };

    // How many calls have failed; at the last u64 it stays.
    ghost faults: { Self → ℕ };

    /// Waits for a connection, or until some that are open are worth a poll. A ring whose numbers have run out fails.
    fn wait<R: Wait>(
        &mut self,
        rt: &R,
        alloc: Global,
        cx: &mut Context<'_>,
    ) -> Result<Woken<Self::Link, Self::Up>, RingFault>
        ensures opens { open_numbers self.new ≡ open_numbers self.old ++ option_to_list (new_number result) }
        ensures gives { given_numbers self.new ≡ given_numbers self.old ++ option_to_list (new_number result) }
        ensures once { IfSome (new_number result) (λ number. is_among number (given_numbers self.old) ≡ false) }
        ensures comes { Comes (coming self.old) (new_number result) (coming self.new) }
        ensures done { result ≡ Ok Woken.Done → (open_numbers self.new ≡ []) × IfSome (coming self.new) (λ left. left ≡ 0) }
        ensures failed { result ≡ Err RingFault.Failed → HasRisen (faults self.old) (faults self.new) }
        ensures later { faults self.old ≤ faults self.new }
        ensures task { KeepsTask cx.old cx.new };

    /// Takes the connection of this number back, and takes no memory. A number that isn't open closes nothing.
    fn close(&mut self, number: u64, link: Self::Link, up: Self::Up)
        ensures closes { open_numbers self.new ≡ without number (open_numbers self.old) }
        ensures unopened { is_among number (open_numbers self.old) ≡ false → self.new ≡ self.old }
        ensures given { given_numbers self.new ≡ given_numbers self.old }
        ensures comes { Keeps (coming self.old) (coming self.new) }
        ensures later { faults self.old ≤ faults self.new };
}

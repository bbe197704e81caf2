ghost use Rattle.std.specs.Prelude.{ℕ, List};
ghost use Rattle.gw_snap.specs.Lists.{Book};
ghost use Rattle.gw_text.specs.model.Doors.{Door};

use std::marker::Brand;

/// An opening: of all calls of `Controller::open`, the one whose controller a hub holds.
pub trait HubName {
    // Which opening it is.
    ghost book: { Book };

    // Its doors.
    ghost doors: { List Door };

    // Its controller's name.
    ghost controller: { List ℕ };
}

impl HubName for Brand {
    ghost use Rattle.std.specs.Prelude.{[]};

    ghost book = { record { number = 0; log_name = 0; cells_name = 0 } };

    ghost doors = { [] };

    ghost controller = { [] };
}

ghost use Rattle.std.specs.Prelude.{◌≡◌, ◌<◌, List, false, length, IsSome};
ghost use Rattle.gw_answers.specs.declared.books.Books.{Books};
ghost use Rattle.gw_answers.specs.model.Decisions.{picked_backend, picked_endpoint};
ghost use Rattle.gw_decide.specs.model.Verdicts.{sends_nothing};
ghost use Rattle.gw_row_laws.specs.Drawing.{ReadyHaveSockets};
ghost use Rattle.gw_row_laws.specs.Tabled.{OfEachDoor};
ghost use Rattle.gw_rows.specs.model.Rows.{Row};
ghost use Rattle.gw_text.specs.model.Addresses.{Socket};
ghost use Rattle.gw_text.specs.model.Plans.{Backend};

/// A backend that is ready has a socket, in each row.
#[tactic(auto, using(crate::proofs::Ready::ready_backends))]
pub fn ready_backends_have_sockets()
    ensures { OfEachDoor ReadyHaveSockets }
{}

/// Where a weight of the rule is above 0, a backend is drawn, whatever was drawn before.
pub fn a_weight_is_drawn()
    ensures { (row : Row) (books : Books) → sends_nothing row.plan ≡ false → IsSome (picked_backend row books) }
{}

/// Where there is a socket, an endpoint is drawn, whatever was drawn before.
pub fn a_socket_is_drawn()
    ensures { (b : Backend) (sockets : List Socket) (books : Books) → 0 < length sockets → IsSome (picked_endpoint b sockets books) }
{}

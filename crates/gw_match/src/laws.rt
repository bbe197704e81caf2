//! The law of the rows of a door: they are such as its table is made of.
ghost use Rattle.std.specs.Prelude.{ℕ, List};
ghost use Rattle.gw_match.specs.model.Listed.{AreRowsOfDoor};
ghost use Rattle.gw_rows.specs.model.DoorRows.{rows_of};
ghost use Rattle.gw_text.specs.model.Doors.{Door};
ghost use Rattle.gw_text.specs.model.Stored.{IsInKeyOrder};
ghost use Rattle.gw_text.specs.model.World.{World, route_key};

/// The rows of a door are such as a table is made of at once.
#[tactic(auto, using(crate::proofs::DoorRows::rows_of_door))]
pub fn rows_of_a_door_stand_listener_by_listener()
    ensures { (doors : List Door) (controller : List ℕ) (w : World) (door : Door) → IsInKeyOrder route_key w.routes → AreRowsOfDoor (rows_of doors controller w door) }
{}

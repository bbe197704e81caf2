ghost use Rattle.std.specs.Prelude.{◌≡◌, ◌≤◌, ℕ, ℤ, List, Bool, Some, length};
ghost use Rattle.gw_replay.specs.Outputs.{IsReplay, IsReplayAt};
ghost use Rattle.gw_store.specs.Lines.{lines_of};
ghost use Rattle.gw_text.specs.model.Doors.{Door};

/// A script has one text only, for so many workers and the moments of its events, and either a line of it is refused or none is.
pub fn one_text()
    ensures { (doors : List Door) (controller : List ℕ) (workers : ℕ) (input : List ℕ) (moments : List ℤ) (text other : List ℕ) (refused other_refused : Bool)
        → IsReplayAt doors controller workers input moments text refused → IsReplayAt doors controller workers input moments other other_refused
        → (text ≡ other) × (refused ≡ other_refused) }
{}

/// The same for the moments that one clock tells, where it tells one for each line, or more.
pub fn one_text_of_a_clock()
    ensures { (doors : List Door) (controller : List ℕ) (workers : ℕ) (input : List ℕ) (told : List ℤ) (text other : List ℕ) (refused other_refused : Bool)
        → length (lines_of input) ≤ length told
        → IsReplay doors controller workers input (Some told) text refused → IsReplay doors controller workers input (Some told) other other_refused
        → (text ≡ other) × (refused ≡ other_refused) }
{}

ghost use Rattle.std.specs.Prelude.{ℕ, ℤ, List};
ghost use Rattle.gw_snap.specs.Lists.{BeginsWith};
ghost use Rattle.gw_replay.specs.Replays.{Runs, Site, State};
ghost use Rattle.gw_replay.specs.Schedules.{Goes, IsSound, Rises, Schedule, Step, beginning, schedule_of};

/// Before the first step of a schedule nothing is published that wasn't taken, and nothing seen that isn't published.
pub fn a_schedule_begins_soundly()
    ensures { (workers : ℕ) → IsSound (beginning workers) }
{}

/// Over every list of steps of a schedule that stays so, the list of changes only grows, and neither the number of those that are published
/// nor what a worker has seen falls.
pub fn a_schedule_rises()
    ensures { (site : Site) (steps : List Step) (m m' : Schedule) → IsSound m → Goes site steps m m' → Rises m m' × IsSound m' }
{}

/// What lines of a script do is what some steps of a schedule do, in which every worker learns of each publication, and reads before each
/// of its requests, which gets the verdict over what the worker has seen.
pub fn a_script_is_a_schedule()
    ensures { (site : Site) (line : ℕ) (lines : List (List ℕ)) (moments : List ℤ) (s s' : State) (text : List ℕ)
        → BeginsWith s.published s.changes → Runs site line lines moments s s' text
        → (steps : List Step) × Goes site steps (schedule_of s) (schedule_of s') }
{}

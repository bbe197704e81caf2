ghost use Rattle.std.specs.Prelude.{◌≡◌, ◌<◌, replicate, Some};
ghost use Rattle.gw_text.specs.model.Picks.{after_pick};
ghost use Rattle.gw_weight.specs.Equal.{ArePickedInTurn, picked_before};

use std::marker::Model;

/// Weights of 1, as `Shares` counts them: all before the turn were picked since the numbers were last 0.
#[derive(Drop)]
pub struct Turns {
    count: usize,
    turn: usize,
}

impl Model for Turns {
    ghost use Rattle.std.specs.Prelude.{◌≤◌, ◌-◌, replicate};
    ghost use Rattle.gw_text.specs.model.Picks.{Shares as Plain};
    ghost use Rattle.gw_weight.specs.Equal.{picked_before};

    ghost Value = { Plain };

    ghost view = { λ t. record { weights = replicate t.count 1; drawn = picked_before t.count t.turn } };

    ghost invariant = { λ t. t.turn ≤ t.count - 1 };
}

impl Turns {
    ghost use Rattle.gw_text.specs.model.Picks.{pick, zeros};
    ghost use Rattle.gw_weight.specs.Fair.{IsFairPick};

    /// So many weights, of which none was picked yet.
    pub fn new(count: usize) -> Self
        ensures { result ≡ record { weights = replicate count 1; drawn = zeros (replicate count 1) } }
    {
        Turns { count, turn: 0 }
    }

    /// The next pick, or none where there are no weights.
    pub fn next(&mut self) -> Option<usize>
        ensures pick { result ≡ pick self.old.weights self.old.drawn }
        ensures after { self.new ≡ record self.old { drawn = after_pick self.old.weights self.old.drawn result } }
        ensures fair { IsFairPick self.old.weights self.old.drawn (after_pick self.old.weights self.old.drawn result) result }
    {
        if self.count == 0 {
            return None;
        }
        let picked = self.turn;
        self.turn = turn_after(self.count, picked);
        Some(picked)
    }
}

// The turn behind this one; behind the last it is the first again.
fn turn_after(count: usize, turn: usize) -> usize
    requires { turn < count }
    ensures within { result < count }
    ensures drawn { after_pick (replicate count 1) (picked_before count turn) (Some turn) ≡ picked_before count result }
{
    let next = turn + 1;
    if next == count { 0 } else { next }
}

/// The law of equal weights: each is picked in its turn, and behind the last the first again.
#[tactic(auto, using(crate::proofs::Equal::picked_in_turn))]
pub fn are_picked_in_turn()
    ensures { ArePickedInTurn }
{}

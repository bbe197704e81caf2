ghost use Rattle.std.specs.Prelude.{◌≡◌, ℕ, ◌*◌, ◌^◌, ◌<◌, ◌≤◌, length, sum, replicate, slice_index, IfOk};

use gw_text::NoMemory;
use std::alloc::Global;
use std::marker::Model;

/// Weights, and how often each was picked since the numbers were last 0.
#[derive(Drop)]
pub struct Shares {
    weights: Vec<u32>,
    drawn: Vec<u32>,
    total: u128,
    picks: u128,
}

impl Model for Shares {
    ghost use Rattle.gw_text.specs.model.Picks.{Shares as Plain};
    ghost use Rattle.gw_weight.specs.Inside.{IsSharesOf};

    ghost Value = { Plain };

    ghost view = { λ s. record { weights = s.weights.items; drawn = s.drawn.items } };

    ghost invariant = { λ s. IsSharesOf s.weights.items s.drawn.items s.total s.picks };
}

impl Shares {
    ghost use Rattle.gw_text.specs.model.Picks.{after_pick, claim, pick, zeros};
    ghost use Rattle.gw_weight.specs.Fair.{IsFairPick};

    /// Shares of which none was picked yet.
    pub fn new(alloc: Global, weights: &[u32]) -> Result<Self, NoMemory>
        requires { length weights.now * sum weights.now < 2 ^ 126 }
        ensures { IfOk result (λ shares. shares ≡ record { weights = weights.now; drawn = zeros weights.now }) }
    {
        let total = sum_of(weights);
        let drawn = vec![in alloc; 0; weights.len()]?;
        let weights = weights.to_vec(alloc)?;
        Ok(Shares {
            weights,
            drawn,
            total,
            picks: 0,
        })
    }

    /// The next pick, or none where the weights' sum is 0.
    pub fn next(&mut self) -> Option<usize>
        ensures pick { result ≡ pick self.old.weights self.old.drawn }
        ensures after { self.new ≡ record self.old { drawn = after_pick self.old.weights self.old.drawn result } }
        ensures fair { IsFairPick self.old.weights self.old.drawn (after_pick self.old.weights self.old.drawn result) result }
    {
        if self.total == 0 {
            return None;
        }
        let picked = self.leader();
        self.count(picked);
        Some(picked)
    }

    // The least index with the greatest claim.
    fn leader(&self) -> usize
        requires { 0 < sum self.now.weights }
        ensures { pick self.now.weights self.now.drawn ≡ Some result }
    {
        let mut leader = 0;
        for i in 1..self.weights.len() {
            if self.claim(i) > self.claim(leader) {
                leader = i;
            }
        }
        leader
    }

    fn claim(&self, i: usize) -> i128
        requires some { 0 < sum self.now.weights }
        requires within { i < length self.now.weights }
        ensures { result ≡ claim self.now.weights (sum self.now.drawn) (slice_index self.now.drawn) i }
    {
        let share = (self.picks + 1) * u128::from(self.weights[i]);
        let had = u128::from(self.drawn[i]) * self.total;
        share as i128 - had as i128
    }

    fn count(&mut self, i: usize)
        requires { pick self.old.weights self.old.drawn ≡ Some i }
        ensures { self.new ≡ record self.old { drawn = after_pick self.old.weights self.old.drawn (Some i) } }
    {
        prove!(self.drawn[i] < self.weights[i]);
        self.drawn[i] += 1;
        self.picks += 1;
        if self.picks == self.total {
            return_to_zero(self.drawn.as_mut_slice());
            self.picks = 0;
        }
    }
}

fn return_to_zero(numbers: &mut [u32])
    ensures { numbers.new ≡ replicate (length numbers.old) 0 }
{
    for number in numbers.iter_mut() {
        *number = 0;
    }
}

/// The sum of the weights.
pub fn sum_of(weights: &[u32]) -> u128
    ensures value { result ≡ sum weights.now }
    ensures small { result ≤ length weights.now * u32.MAX }
{
    let mut total = 0;
    for weight in weights {
        total += u128::from(*weight);
    }
    total
}

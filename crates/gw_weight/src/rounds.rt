ghost use Rattle.std.specs.Prelude.{ℕ, ◌≡◌, ◌*◌, ◌^◌, ◌<◌, List, length, sum, vec_len, IfOk};
ghost use Rattle.gw_text.specs.model.Picks.{AreFair, ArePicks};

use crate::Shares;
use gw_text::NoMemory;
use std::alloc::Global;

/// The first `count` picks by these weights.
pub fn first_picks(alloc: Global, weights: &[u32], count: usize) -> Result<Vec<usize>, NoMemory>
    requires some { 0 < sum weights.now }
    requires small { length weights.now * sum weights.now < 2 ^ 126 }
    ensures picks { IfOk result (λ picks. ArePicks weights.now picks.items) }
    ensures count { IfOk result (λ picks. vec_len picks ≡ count) }

    // Fairness: after any k picks, each had its share of k, and less than one pick more.
    ensures fair { (picks : List ℕ) → ArePicks weights.now picks → AreFair weights.now picks }
{
    let mut shares = Shares::new(alloc, weights)?;
    let mut picks = Vec::new(alloc);
    for turn in 0..count {
        match shares.next() {
            Some(picked) => picks.push(picked)?,
            None => unreachable!(),
        }
    }
    Ok(picks)
}

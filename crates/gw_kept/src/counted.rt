//! How many Routes are attached to the listeners of a Gateway.
ghost use Rattle.std.specs.Prelude.{◌≡◌, ◌<◌, ◌++◌, ℕ, List, IfOk, IfSome, OnOk, length, get_or, option_copied, option_to_list};
ghost use Rattle.gw_kept.specs.Counts.{AreCounts, number_at};
ghost use Rattle.gw_eval.specs.Kept.{KeptRoute as Plain};
ghost use Rattle.gw_text.specs.model.World.{gateway_at};

use crate::counts::Counts;
use gw_eval::KeptRoute;
use gw_store::World;
use gw_text::{Key, NoMemory};
use std::alloc::Global;

fn take_out(alloc: Global, counts: &mut Counts, former: Option<&KeptRoute>) -> Result<(), NoMemory>
    ensures { (others : List Plain) → AreCounts (option_to_list (option_copied former.entry) ++ others) counts.old → OnOk result (AreCounts others counts.new) }
{
    match former {
        Some(former) => counts.take_out(alloc, former),
        None => Ok(()),
    }
}

fn add(alloc: Global, counts: &mut Counts, kept: Option<&KeptRoute>) -> Result<(), NoMemory>
    ensures { (others : List Plain) → AreCounts others counts.old → OnOk result (AreCounts (option_to_list (option_copied kept.entry) ++ others) counts.new) }
{
    match kept {
        Some(kept) => counts.add(alloc, kept),
        None => Ok(()),
    }
}

/// The counts with this Route in place of another one, or with one more, or one less.
pub(crate) fn changed_counts(
    alloc: Global,
    counts: &Counts,
    former: Option<&KeptRoute>,
    kept: Option<&KeptRoute>,
) -> Result<Counts, NoMemory>
    ensures { (others : List Plain) → AreCounts (option_to_list (option_copied former.entry) ++ others) counts.now
        → IfOk result (λ changed. AreCounts (option_to_list (option_copied kept.entry) ++ others) changed) }
{
    let mut changed = counts.share(alloc)?;
    take_out(alloc, &mut changed, former)?;
    add(alloc, &mut changed, kept)?;
    Ok(changed)
}

// The numbers of so many listeners.
fn numbers(
    alloc: Global,
    counts: &Counts,
    gateway: &Key,
    count: usize,
) -> Result<Vec<u64>, NoMemory>
    ensures length { IfOk result (λ numbers. length numbers.items ≡ count) }
    ensures numbers { IfOk result (λ numbers. (place : ℕ) → place < count → get_or numbers.items place 0 ≡ number_at counts.now gateway.now place) }
{
    let mut numbers = Vec::with_capacity(alloc, count)?;
    'places: for place in 0..count {
        numbers.push(counts.number(gateway, place))?;
    }
    Ok(numbers)
}

/// The numbers of the listeners of the Gateway of this key; where there is no such Gateway, none.
pub(crate) fn numbers_of(
    alloc: Global,
    counts: &Counts,
    world: &World,
    key: &Key,
) -> Result<Vec<u64>, NoMemory>
    ensures length { IfOk result (λ numbers. IfSome (gateway_at world.now.world key.now) (λ s. length numbers.items ≡ length s.object.listeners)) }
    ensures numbers { IfOk result (λ numbers. (place : ℕ) → place < length numbers.items → get_or numbers.items place 0 ≡ number_at counts.now key.now place) }
{
    let count = match world.gateway(key) {
        Some(gateway) => gateway.listeners.len(),
        None => 0,
    };
    numbers(alloc, counts, key, count)
}

//! The numbers of all Gateways.
ghost use Rattle.std.specs.Prelude.{◌≡◌, ◌∷◌, [], ℕ, List, IfOk, OnOk, OnErr, if◌then◌else◌};
ghost use Rattle.gw_kept.specs.Changes as rules;
ghost use Rattle.gw_eval.specs.Kept.{KeptRoute as Plain, is_at, is_kept_at};
ghost use Rattle.gw_text.specs.model.Names.{Key as PlainKey};

use crate::change::Change;
use crate::listener_numbers::{change_places, number_in};
use crate::maps::{Namespaces, numbers_at, put_at};
use gw_eval::{AttachedAt, KeptRoute};
use gw_shared::SharedMap;
use gw_text::{Key, NoMemory};
use std::alloc::Global;

/// How many Routes are attached to each listener of each Gateway. Copies share the numbers in which they don't differ: a Route that is
/// added or taken out costs the numbers of the Gateways to which it is attached, and the groups of buckets in which these stand.
#[derive(Drop)]
pub struct Counts {
    pub(crate) namespaces: Namespaces,
}

impl Counts {
    ghost use Rattle.gw_kept.specs.Counts.{AreCounts, number_at};

    /// Those of no Routes.
    pub fn new(alloc: Global) -> Self
        ensures { AreCounts [] result }
    {
        Counts {
            namespaces: SharedMap::new(alloc),
        }
    }

    /// A copy, which shares all numbers.
    pub fn share(&self, alloc: Global) -> Result<Self, NoMemory>
        ensures { IfOk result (λ copy. copy ≡ self.now) }
    {
        Ok(Counts {
            namespaces: self.namespaces.share(alloc)?,
        })
    }

    /// How many are attached to the listener at this place of the Gateway of this key.
    pub fn number(&self, gateway: &Key, place: usize) -> u64
        ensures { result ≡ number_at self.now gateway.now place }
    {
        number_in(numbers_at(&self.namespaces, gateway), place)
    }

    // Changes the numbers of the listeners to which an entry attaches its Route. What they become is made of what they were before the
    // first entry of the Route, which counts once at a listener.
    fn change_at(
        &mut self,
        alloc: Global,
        before: &Counts,
        at: &AttachedAt,
        change: Change,
    ) -> Result<(), NoMemory>
        ensures { OnOk result ((key : PlainKey) (place : ℕ) → number_at self.new key place
            ≡ (if is_at key place at.now then rules.changed change (number_at before.now key place) else number_at self.old key place)) }
    {
        let before = numbers_at(&before.namespaces, &at.gateway);
        let mut numbers = numbers_at(&self.namespaces, &at.gateway).to_vec(alloc)?;
        change_places(&mut numbers, before, at.listeners.as_slice(), change)?;
        put_at(alloc, &mut self.namespaces, &at.gateway, numbers)
    }

    // The counts with a Route more, or with one less.
    fn changed(&self, alloc: Global, route: &KeptRoute, change: Change) -> Result<Self, NoMemory>
        ensures { IfOk result (λ counts. (key : PlainKey) (place : ℕ) → number_at counts key place
            ≡ (if is_kept_at key place route.now then rules.changed change (number_at self.now key place) else number_at self.now key place)) }
    {
        let mut counts = self.share(alloc)?;
        'entries: for at in route.attached.as_slice() {
            counts.change_at(alloc, self, at, change)?;
        }
        Ok(counts)
    }

    /// Adds a Route. A number that would be too large wants memory.
    pub fn add(&mut self, alloc: Global, route: &KeptRoute) -> Result<(), NoMemory>
        ensures added { (routes : List Plain) → AreCounts routes self.old → OnOk result (AreCounts (route.now ∷ routes) self.new) }
        ensures kept { OnErr result (self.new ≡ self.old) }
    {
        *self = self.changed(alloc, route, Change::Added)?;
        Ok(())
    }

    /// Takes out a Route that was added. Numbers that are 0 again take no place.
    pub fn take_out(&mut self, alloc: Global, route: &KeptRoute) -> Result<(), NoMemory>
        ensures out { (rest : List Plain) → AreCounts (route.now ∷ rest) self.old → OnOk result (AreCounts rest self.new) }
        ensures kept { OnErr result (self.new ≡ self.old) }
    {
        *self = self.changed(alloc, route, Change::TakenOut)?;
        Ok(())
    }
}

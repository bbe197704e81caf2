ghost use Rattle.std.specs.Prelude.{◌≡◌, ℕ, ◌*◌, ◌^◌, ◌<◌, List, [], ◌⊎◌, map, length, sum, IsOk, IfOk, OnOk, OnErr, IsTrue};
ghost use Rattle.std.specs.Prelude.{slice_get, IfSome, nat_lt, if◌then◌else◌};
ghost use Rattle.indexmap.specs.IndexMap.{index_map_len, set_value_at, values};
ghost use Rattle.gw_text.specs.model.Picks.{after_pick, pick, with_numbers, zeros};
ghost use Rattle.gw_weight.specs.Books.{choice_of, entry_of, HasRoomFor, IsBookOf};
ghost use Rattle.gw_weight.specs.Fair.{IsFairPick};
ghost use Rattle.gw_weight.specs.declared.choice.Choice.{Choice};

use crate::Shares;
use crate::choice::{Choice, ask, copy_of, empty_choice};
use gw_text::{Key, NoMemory};
use indexmap::IndexMap;
use std::alloc::Global;
use std::hash::Hash;
use std::marker::Model;

const MOST_CHOICES: usize = 4096;

/// The numbers of picks by what they are for: a name, a number and weights.
#[derive(Drop)]
pub struct Book {
    alloc: Global,
    shares: IndexMap<Choice, Shares>,
    // The choice that was asked for last, kept so that a known one is looked up without memory.
    asked: Choice,
}

impl Model for Book {
    ghost use Rattle.std.specs.Prelude.{List, map, ℕ};
    ghost use Rattle.gw_text.specs.model.Picks.{Choice as Plain};
    ghost use Rattle.gw_weight.specs.Books.{choice_of, entry_of, HasRoomFor, IsBookOf};

    ghost Value = { List (Plain × List ℕ) };

    ghost view = { λ b. map (entry_of choice_of) b.shares.entries };

    ghost invariant = { λ b. IsBookOf choice_of (HasRoomFor b.asked) b.shares.entries };
}

impl Book {
    ghost use Rattle.gw_text.specs.model.Picks.{after_draw, drawn_from, holds, numbers_of};

    /// A book without numbers.
    pub fn new(alloc: Global) -> Self
        ensures { result ≡ [] }
    {
        Book {
            alloc,
            shares: IndexMap::new(alloc),
            asked: empty_choice(alloc),
        }
    }

    /// The next pick of a choice, or none where its weights' sum is 0.
    pub fn draw(
        &mut self,
        name: &Key,
        number: u64,
        weights: &[u32],
    ) -> Result<Option<usize>, NoMemory>
        requires { length weights.now * sum weights.now < 2 ^ 126 }
        ensures pick { IfOk result (λ picked. picked ≡ drawn_from (record { name = name.now; number = number; weights = weights.now }) self.old) }
        ensures after { OnOk result (self.new ≡ after_draw (record { name = name.now; number = number; weights = weights.now }) self.old) }

        // Fair as one of `Shares`, by the numbers that the book keeps of the choice.
        ensures fair { IfOk result (λ picked. IsFairPick weights.now
            (numbers_of (record { name = name.now; number = number; weights = weights.now }) self.old)
            (numbers_of (record { name = name.now; number = number; weights = weights.now }) self.new) picked) }
        ensures known { IsTrue (holds (record { name = name.now; number = number; weights = weights.now }) self.old) → IsOk result }
        ensures err { OnErr result ((self.new ≡ self.old) ⊎ (self.new ≡ [])) }
    {
        ask(&mut self.asked, name, number, weights)?;
        if let Some(place) = self.shares.get_index_of(&self.asked) {
            return Ok(draw_at(&mut self.shares, place));
        }
        make_room(&mut self.shares);
        draw_new(self.alloc, &mut self.shares, &self.asked)
    }
}

fn draw_at(shares: &mut IndexMap<Choice, Shares>, place: usize) -> Option<usize>
    requires { place < index_map_len shares.old }
    ensures { IfSome (slice_get (values shares.old) place) (λ s. (result ≡ pick s.weights s.drawn)
        × (shares.new.entries ≡ set_value_at shares.old.entries place (record s { drawn = after_pick s.weights s.drawn result }))
        × IsFairPick s.weights s.drawn (after_pick s.weights s.drawn result) result) }
{
    shares[place].next()
}

/// A map of as many choices as a book may hold is emptied, so that a new one has room.
pub fn make_room<C: Eq + Hash + Drop, S: Drop>(choices: &mut IndexMap<C, S>)
    ensures { choices.new.entries ≡ (if nat_lt (length choices.old.entries) 4096 then choices.old.entries else []) }
{
    if choices.len() >= MOST_CHOICES {
        choices.clear();
    }
}

// The first pick of a choice that isn't in the map.
fn draw_new(
    alloc: Global,
    shares: &mut IndexMap<Choice, Shares>,
    choice: &Choice,
) -> Result<Option<usize>, NoMemory>
    requires { length choice.now.weights.items * sum choice.now.weights.items < 2 ^ 126 }
    ensures pick { IfOk result (λ picked. picked ≡ pick choice.now.weights.items (zeros choice.now.weights.items)) }
    ensures after { OnOk result (map (entry_of choice_of) shares.new.entries ≡ with_numbers (choice_of choice.now)
        (after_pick choice.now.weights.items (zeros choice.now.weights.items) (pick choice.now.weights.items (zeros choice.now.weights.items)))
        (map (entry_of choice_of) shares.old.entries)) }
    ensures fair { IfOk result (λ picked. IsFairPick choice.now.weights.items (zeros choice.now.weights.items)
        (after_pick choice.now.weights.items (zeros choice.now.weights.items) picked) picked) }
    ensures kept { (asked : Choice) → IsBookOf choice_of (HasRoomFor asked) shares.old.entries → HasRoomFor asked (choice_of choice.now)
        → OnOk result (IsBookOf choice_of (HasRoomFor asked) shares.new.entries) }
    ensures err { OnErr result (shares.new.entries ≡ shares.old.entries) }
{
    let mut counted = Shares::new(alloc, choice.weights.as_slice())?;
    let picked = counted.next();
    let key = copy_of(alloc, choice)?;
    shares.insert(key, counted)?;
    Ok(picked)
}

ghost use Rattle.std.specs.Prelude.{◌≡◌, ◌<◌, [], ◌⊎◌, map, replicate, IsOk, IfOk, OnOk, OnErr, IsTrue};
ghost use Rattle.std.specs.Prelude.{slice_get, IfSome};
ghost use Rattle.indexmap.specs.IndexMap.{index_map_len, set_value_at, values};
ghost use Rattle.gw_text.specs.model.Picks.{after_pick, pick, with_numbers, zeros};
ghost use Rattle.gw_weight.specs.Books.{equal_choice_of, entry_of, HasRoomForKey, IsBookOf};
ghost use Rattle.gw_weight.specs.Fair.{IsFairPick};
ghost use Rattle.gw_weight.specs.declared.equal_choice.EqualChoice.{EqualChoice};

use crate::book::make_room;
use crate::equal_choice::{EqualChoice, ask, copy_of, empty_choice};
use crate::turns::Turns;
use gw_text::{Key, NoMemory};
use indexmap::IndexMap;
use std::alloc::Global;
use std::marker::Model;

/// A `Book` of choices whose weights are all 1. What it keeps of a choice, and what a pick costs, doesn't grow with their number.
#[derive(Drop)]
pub struct EqualBook {
    alloc: Global,
    turns: IndexMap<EqualChoice, Turns>,
    // The choice that was asked for last, kept so that a known one is looked up without memory.
    asked: EqualChoice,
}

impl Model for EqualBook {
    ghost use Rattle.std.specs.Prelude.{List, map, ℕ};
    ghost use Rattle.gw_text.specs.model.Picks.{Choice as Plain};
    ghost use Rattle.gw_weight.specs.Books.{equal_choice_of, entry_of, HasRoomForKey, IsBookOf};

    ghost Value = { List (Plain × List ℕ) };

    ghost view = { λ b. map (entry_of equal_choice_of) b.turns.entries };

    ghost invariant = { λ b. IsBookOf equal_choice_of (HasRoomForKey b.asked) b.turns.entries };
}

impl EqualBook {
    ghost use Rattle.gw_text.specs.model.Picks.{after_draw, drawn_from, holds, numbers_of};

    /// A book without numbers.
    pub fn new(alloc: Global) -> Self
        ensures { result ≡ [] }
    {
        EqualBook {
            alloc,
            turns: IndexMap::new(alloc),
            asked: empty_choice(alloc),
        }
    }

    /// The next pick of a choice of so many weights of 1, or none where it has none.
    pub fn draw(&mut self, name: &Key, number: u64, count: usize) -> Result<Option<usize>, NoMemory>
        ensures pick { IfOk result (λ picked. picked ≡ drawn_from (record { name = name.now; number = number; weights = replicate count 1 }) self.old) }
        ensures after { OnOk result (self.new ≡ after_draw (record { name = name.now; number = number; weights = replicate count 1 }) self.old) }

        // Fair as one of `Turns`, by the numbers that the book keeps of the choice.
        ensures fair { IfOk result (λ picked. IsFairPick (replicate count 1)
            (numbers_of (record { name = name.now; number = number; weights = replicate count 1 }) self.old)
            (numbers_of (record { name = name.now; number = number; weights = replicate count 1 }) self.new) picked) }
        ensures known { IsTrue (holds (record { name = name.now; number = number; weights = replicate count 1 }) self.old) → IsOk result }
        ensures err { OnErr result ((self.new ≡ self.old) ⊎ (self.new ≡ [])) }
    {
        ask(&mut self.asked, name, number, count)?;
        if let Some(place) = self.turns.get_index_of(&self.asked) {
            return Ok(draw_at(&mut self.turns, place));
        }
        make_room(&mut self.turns);
        draw_new(self.alloc, &mut self.turns, &self.asked)
    }
}

fn draw_at(turns: &mut IndexMap<EqualChoice, Turns>, place: usize) -> Option<usize>
    requires { place < index_map_len turns.old }
    ensures { IfSome (slice_get (values turns.old) place) (λ s. (result ≡ pick s.weights s.drawn)
        × (turns.new.entries ≡ set_value_at turns.old.entries place (record s { drawn = after_pick s.weights s.drawn result }))
        × IsFairPick s.weights s.drawn (after_pick s.weights s.drawn result) result) }
{
    turns[place].next()
}

// The first pick of a choice that isn't in the map.
fn draw_new(
    alloc: Global,
    turns: &mut IndexMap<EqualChoice, Turns>,
    choice: &EqualChoice,
) -> Result<Option<usize>, NoMemory>
    ensures pick { IfOk result (λ picked. picked ≡ pick (replicate choice.now.count 1) (zeros (replicate choice.now.count 1))) }
    ensures after { OnOk result (map (entry_of equal_choice_of) turns.new.entries ≡ with_numbers (equal_choice_of choice.now)
        (after_pick (replicate choice.now.count 1) (zeros (replicate choice.now.count 1)) (pick (replicate choice.now.count 1) (zeros (replicate choice.now.count 1))))
        (map (entry_of equal_choice_of) turns.old.entries)) }
    ensures fair { IfOk result (λ picked. IsFairPick (replicate choice.now.count 1) (zeros (replicate choice.now.count 1))
        (after_pick (replicate choice.now.count 1) (zeros (replicate choice.now.count 1)) picked) picked) }
    ensures kept { (asked : EqualChoice) → IsBookOf equal_choice_of (HasRoomForKey asked) turns.old.entries → HasRoomForKey asked (equal_choice_of choice.now)
        → OnOk result (IsBookOf equal_choice_of (HasRoomForKey asked) turns.new.entries) }
    ensures err { OnErr result (turns.new.entries ≡ turns.old.entries) }
{
    let mut counted = Turns::new(choice.count);
    let picked = counted.next();
    let key = copy_of(alloc, choice)?;
    turns.insert(key, counted)?;
    Ok(picked)
}

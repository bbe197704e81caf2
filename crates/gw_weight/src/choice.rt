ghost use Rattle.std.specs.Prelude.{◌≡◌, ◌≤◌, [], length, IsOk, IfOk, OnOk, vec_capacity};
ghost use Rattle.gw_weight.specs.Books.{choice_of, HasRoomFor};

use gw_text::{Key, NoMemory};
use std::alloc::Global;

/// What a book keeps numbers for, as its map stores it.
#[derive(Drop, PartialEq, Eq, Hash)]
pub struct Choice {
    pub namespace: Vec<u8>,
    pub name: Vec<u8>,
    pub number: u64,
    pub weights: Vec<u32>,
}

/// A choice of nothing, which is refilled for each draw.
pub fn empty_choice(alloc: Global) -> Choice
    ensures { (result.namespace.items ≡ []) × (result.name.items ≡ []) × (result.weights.items ≡ []) }
{
    Choice {
        namespace: Vec::new(alloc),
        name: Vec::new(alloc),
        number: 0,
        weights: Vec::new(alloc),
    }
}

/// Takes memory only where a part is longer than it was before.
pub fn ask(choice: &mut Choice, name: &Key, number: u64, weights: &[u32]) -> Result<(), NoMemory>
    ensures ok { OnOk result (choice_of choice.new ≡ record { name = name.now; number = number; weights = weights.now }) }
    ensures namespace { vec_capacity choice.old.namespace ≤ vec_capacity choice.new.namespace }
    ensures name { vec_capacity choice.old.name ≤ vec_capacity choice.new.name }
    ensures weights { vec_capacity choice.old.weights ≤ vec_capacity choice.new.weights }
    ensures succeeds { HasRoomFor choice.old (record { name = name.now; number = number; weights = weights.now }) → IsOk result }
{
    refill(&mut choice.namespace, name.namespace.bytes())?;
    refill(&mut choice.name, name.name.bytes())?;
    refill(&mut choice.weights, weights)?;
    choice.number = number;
    Ok(())
}

/// The same choice once more.
pub fn copy_of(alloc: Global, choice: &Choice) -> Result<Choice, NoMemory>
    ensures { IfOk result (λ copy. choice_of copy ≡ choice_of choice.now) }
{
    Ok(Choice {
        namespace: choice.namespace.as_slice().to_vec(alloc)?,
        name: choice.name.as_slice().to_vec(alloc)?,
        number: choice.number,
        weights: choice.weights.as_slice().to_vec(alloc)?,
    })
}

/// Puts these in place of what the list holds.
pub fn refill<T: Copy + Drop>(list: &mut Vec<T>, items: &[T]) -> Result<(), NoMemory>
    ensures ok { OnOk result (list.new.items ≡ items.now) }
    ensures room { vec_capacity list.old ≤ vec_capacity list.new }
    ensures succeeds { length items.now ≤ vec_capacity list.old → IsOk result }
{
    list.clear();
    list.extend_from_slice(items)
}

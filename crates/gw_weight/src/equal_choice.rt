ghost use Rattle.std.specs.Prelude.{◌≡◌, ◌≤◌, [], replicate, IsOk, IfOk, OnOk, vec_capacity};
ghost use Rattle.gw_weight.specs.Books.{equal_choice_of, HasRoomForKey};

use crate::choice::refill;
use gw_text::{Key, NoMemory};
use std::alloc::Global;

/// What a book of equal weights keeps a turn for, as its map stores it.
#[derive(Drop, PartialEq, Eq, Hash)]
pub struct EqualChoice {
    pub namespace: Vec<u8>,
    pub name: Vec<u8>,
    pub number: u64,
    pub count: usize,
}

/// A choice of nothing, which is refilled for each draw.
pub fn empty_choice(alloc: Global) -> EqualChoice
    ensures { (result.namespace.items ≡ []) × (result.name.items ≡ []) }
{
    EqualChoice {
        namespace: Vec::new(alloc),
        name: Vec::new(alloc),
        number: 0,
        count: 0,
    }
}

/// Takes memory only where a part is longer than it was before.
pub fn ask(choice: &mut EqualChoice, name: &Key, number: u64, count: usize) -> Result<(), NoMemory>
    ensures ok { OnOk result (equal_choice_of choice.new ≡ record { name = name.now; number = number; weights = replicate count 1 }) }
    ensures namespace { vec_capacity choice.old.namespace ≤ vec_capacity choice.new.namespace }
    ensures name { vec_capacity choice.old.name ≤ vec_capacity choice.new.name }
    ensures succeeds { HasRoomForKey choice.old (record { name = name.now; number = number; weights = replicate count 1 }) → IsOk result }
{
    refill(&mut choice.namespace, name.namespace.bytes())?;
    refill(&mut choice.name, name.name.bytes())?;
    choice.number = number;
    choice.count = count;
    Ok(())
}

/// The same choice once more.
pub fn copy_of(alloc: Global, choice: &EqualChoice) -> Result<EqualChoice, NoMemory>
    ensures { IfOk result (λ copy. equal_choice_of copy ≡ equal_choice_of choice.now) }
{
    Ok(EqualChoice {
        namespace: choice.namespace.as_slice().to_vec(alloc)?,
        name: choice.name.as_slice().to_vec(alloc)?,
        number: choice.number,
        count: choice.count,
    })
}

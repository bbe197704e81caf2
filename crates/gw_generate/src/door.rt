//! The door of a script.
ghost use Rattle.std.specs.Prelude.{◌≡◌, [], ◌∷◌, IfOk};
ghost use Rattle.gw_generate.specs.Doors as model;

use gw_text::{Door, Doors, NoMemory};
use std::alloc::Global;

/// The one door that a script's connections come to.
pub fn script_doors(alloc: Global) -> Result<Doors, NoMemory>
    ensures { IfOk result (λ doors. doors ≡ model.script_door ∷ []) }
{
    let mut doors = Vec::new(alloc);
    doors.push(script_door(alloc)?)?;
    match Doors::new(alloc, doors) {
        Ok(doors) => Ok(doors),
        // One door breaks no rule of doors.
        Err(_) => Err(NoMemory),
    }
}

fn script_door(alloc: Global) -> Result<Door, NoMemory>
    ensures { IfOk result (λ door. door ≡ model.script_door) }
{
    match Door::parse(alloc, "default/g:80=127.0.0.1:18080") {
        Ok(door) => Ok(door),
        // The text is that of a door.
        Err(_) => Err(NoMemory),
    }
}

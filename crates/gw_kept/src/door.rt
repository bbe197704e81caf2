//! A door, the tables of its served listeners, and what becomes of these where one Route changes.
ghost use Rattle.std.specs.Prelude.{◌≡◌, [], All, IfOk, IfSome, map, option_copied, option_to_list};
ghost use Rattle.gw_kept.specs.Held as held;

use crate::listener::changed_table;
use crate::place::Place;
use gw_eval::KeptRoute;
use gw_match::ListenerTable;
use gw_shared::Shared;
use gw_text::{Door, NoMemory};
use std::alloc::Global;
use std::marker::Model;

/// A door with a table for each of its served listeners.
#[derive(Drop)]
pub(crate) struct HeldDoor {
    pub(crate) door: Shared<Door>,
    pub(crate) tables: Vec<Shared<ListenerTable>>,
}

impl Model for HeldDoor {
    ghost use Rattle.gw_kept.specs.Held.{DoorTables};

    ghost Value = { DoorTables };

    ghost view = { λ d. record { door = d.door; tables = d.tables.items } };
}

impl HeldDoor {
    /// One without listeners.
    pub(crate) fn new(alloc: Global, door: &Door) -> Result<Self, NoMemory>
        ensures { IfOk result (λ d. d ≡ held.door_alone door.now) }
    {
        Ok(HeldDoor {
            door: Shared::new(alloc, door.copy(alloc)?)?,
            tables: Vec::new(alloc),
        })
    }

    /// A copy, which shares all tables.
    pub(crate) fn share(&self, alloc: Global) -> Result<Self, NoMemory>
        ensures { IfOk result (λ copy. copy ≡ self.now) }
    {
        Ok(HeldDoor {
            door: self.door.share()?,
            tables: shared_tables(alloc, self.tables.as_slice())?,
        })
    }

    /// The door with the rows of a Route at the place of each table, or with none there.
    pub(crate) fn changed(
        self,
        alloc: Global,
        place: Place,
        kept: Option<&KeptRoute>,
    ) -> Result<Self, NoMemory>
        requires plans { IfSome (option_copied kept) held.HasItsPlans }
        requires tables { All (held.Takes place self.door (option_to_list (option_copied kept))) self.tables }
        ensures { IfOk result (λ changed. changed ≡ held.door_with place (option_to_list (option_copied kept.entry)) self) }
    {
        let HeldDoor { door, tables } = self;
        let tables = changed_tables(alloc, &door, tables, place, kept)?;
        Ok(HeldDoor { door, tables })
    }
}

/// A handle on each of these.
pub(crate) fn shared_tables(
    alloc: Global,
    tables: &[Shared<ListenerTable>],
) -> Result<Vec<Shared<ListenerTable>>, NoMemory>
    ensures { IfOk result (λ shared. shared.items ≡ tables.now) }
{
    let mut shared = Vec::with_capacity(alloc, tables.len())?;
    'tables: for table in tables {
        shared.push(table.share()?)?;
    }
    Ok(shared)
}

fn changed_tables(
    alloc: Global,
    door: &Door,
    tables: Vec<Shared<ListenerTable>>,
    place: Place,
    kept: Option<&KeptRoute>,
) -> Result<Vec<Shared<ListenerTable>>, NoMemory>
    requires plans { IfSome (option_copied kept) held.HasItsPlans }
    requires tables { All (held.Takes place door.now (option_to_list (option_copied kept))) tables.items }
    ensures { IfOk result (λ changed. changed.items ≡ map (held.table_with place door.now (option_to_list (option_copied kept.entry))) tables.items) }
{
    let mut changed = Vec::with_capacity(alloc, tables.len())?;
    'tables: for table in tables {
        changed.push(changed_table(alloc, door, table, place, kept)?)?;
    }
    Ok(changed)
}

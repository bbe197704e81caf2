//! The tables of a door whose served listeners may have changed.
ghost use Rattle.std.specs.Prelude.{◌≡◌, true, All, Contains, IfOk, IfSome, map, option_copied};
ghost use Rattle.gw_kept.specs.Held as held;
ghost use Rattle.gw_rows.specs.model.Rows.{ServedListener as PlainListener};

use crate::door::HeldDoor;
use crate::listener::table_of;
use gw_cells::is_same_host;
use gw_eval::{KeptRoute, served_listeners};
use gw_match::ListenerTable;
use gw_rows::ServedListener;
use gw_shared::{Shared, SharedList};
use gw_store::World;
use gw_text::{Door, Doors, NoMemory, Text};
use std::alloc::Global;

fn is_same(a: &ServedListener, b: &ServedListener) -> bool
    ensures { result ≡ true → a.now ≡ b.now }
{
    a.number == b.number
        && a.port == b.port
        && a.name == b.name
        && is_same_host(&a.hostname, &b.hostname)
}

// The table of this listener among those of before.
fn former_table<'t>(
    tables: &'t [Shared<ListenerTable>],
    listener: &ServedListener,
) -> Option<&'t Shared<ListenerTable>>
    ensures { IfSome (option_copied result) (λ t. Contains tables.now t × (t.listener ≡ listener.now)) }
{
    'tables: for table in tables {
        if is_same(table.listener(), listener) {
            return Some(table);
        }
    }
    None
}

// The table of a listener: that of before where there is one, since it has the same Routes.
fn served_table(
    alloc: Global,
    former: &HeldDoor,
    listener: ServedListener,
    kept: &SharedList<KeptRoute>,
) -> Result<Shared<ListenerTable>, NoMemory>
    requires plans { All held.HasItsPlans kept.now }
    requires rows { held.HasRows former.now.door kept.now listener }
    requires tables { All (held.IsOf former.now.door kept.now) former.now.tables }
    ensures { IfOk result (λ table. table ≡ held.listed_with former.now.door kept.now listener) }
{
    match former_table(former.tables.as_slice(), &listener) {
        Some(table) => table.share(),
        None => table_of(alloc, &former.door, listener, kept),
    }
}

fn served_tables(
    alloc: Global,
    former: &HeldDoor,
    listeners: Vec<ServedListener>,
    kept: &SharedList<KeptRoute>,
) -> Result<Vec<Shared<ListenerTable>>, NoMemory>
    requires plans { All held.HasItsPlans kept.now }
    requires rows { (l : PlainListener) → held.HasRows former.now.door kept.now l }
    requires tables { All (held.IsOf former.now.door kept.now) former.now.tables }
    ensures { IfOk result (λ tables. tables.items ≡ map (held.listed_with former.now.door kept.now) listeners.items) }
{
    let mut tables = Vec::with_capacity(alloc, listeners.len())?;
    'listeners: for listener in listeners {
        tables.push(served_table(alloc, former, listener, kept)?)?;
    }
    Ok(tables)
}

/// The door with the listeners that are served there in this world. Listeners that were served before keep their tables.
pub(crate) fn served_anew(
    alloc: Global,
    world: &World,
    doors: &Doors,
    controller: &Text,
    former: &HeldDoor,
    kept: &SharedList<KeptRoute>,
) -> Result<HeldDoor, NoMemory>
    requires plans { All held.HasItsPlans kept.now }
    requires rows { (l : PlainListener) → held.HasRows former.now.door kept.now l }
    requires tables { All (held.IsOf former.now.door kept.now) former.now.tables }
    ensures { IfOk result (λ d. d ≡ held.door_at doors.now controller.now world.now.world kept.now former.now.door) }
{
    let listeners = served_listeners(alloc, controller, doors, world, &former.door)?;
    Ok(HeldDoor {
        door: former.door.share()?,
        tables: served_tables(alloc, former, listeners, kept)?,
    })
}

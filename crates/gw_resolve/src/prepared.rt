ghost use Rattle.std.specs.Prelude.{◌≡◌, false, IfOk};
ghost use Rattle.std.specs.Arc.{arc_value};
ghost use Rattle.gw_match.specs.model.Telling.{change_of};
ghost use Rattle.gw_text.specs.model.World.{is_full};
ghost use Rattle.gw_resolve.specs.Cores.{tables_at, world_with};

use crate::resolver::Core;
use gw_deps::IndexPatch;
use gw_kept::KeptRoutes;
use gw_match::Tables;
use gw_status::Statuses;
use gw_store::{Entry, Event};
use gw_text::{NoMemory, Second};
use std::alloc::Global;
use std::marker::Model;
use std::snapshot::Snapshot;
use std::sync::Arc;

/// A change that was evaluated on a core and isn't done yet.
#[derive(Drop)]
pub struct Prepared {
    pub(crate) event: Event,
    pub(crate) at: Second,
    pub(crate) kept: KeptRoutes,
    pub(crate) statuses: Statuses,
    pub(crate) tables: Arc<Tables>,
    pub(crate) patch: IndexPatch,
    pub(crate) core: Snapshot<Core>,
}

impl Model for Prepared {
    ghost use Rattle.std.specs.Arc.{arc_value};
    ghost use Rattle.gw_resolve.specs.Cores.{IsPrepared, Preparation};
    ghost use Rattle.gw_store.specs.SeenEvents.{seen_event};

    ghost Value = { Preparation };

    ghost view = { λ p. record { core = p.core.value; change = record { event = seen_event p.event; at = p.at } } };

    ghost invariant = { λ p. IsPrepared (record { core = p.core.value; change = record { event = seen_event p.event; at = p.at } }) p.kept p.statuses (arc_value p.tables) p.patch };
}

impl Prepared {
    /// The tables after the change.
    pub fn tables(&self) -> Result<Arc<Tables>, NoMemory>
        ensures { IfOk result (λ tables. arc_value tables ≡ tables_at self.now.core.doors self.now.core.controller (world_with self.now)) }
    {
        self.tables.clone()
    }

    /// The change as an entry of a list of changes. An object is shared with it, not copied.
    pub fn entry(&self, alloc: Global) -> Result<Entry, NoMemory>
        ensures entry { IfOk result (λ entry. change_of entry ≡ self.now.change) }
        ensures fits { is_full self.now.core.store.world self.now.change.event ≡ false }
    {
        Ok(Entry {
            event: self.event.share(alloc)?,
            at: self.at,
        })
    }
}

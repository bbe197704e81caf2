//! The edges of a world, and how they change with it.
ghost use Rattle.std.specs.Prelude.{◌≡◌, ℤ, IfOk, OnOk};
ghost use Rattle.gw_store.specs.SeenEvents.{seen_event};
ghost use Rattle.gw_text.specs.model.World as worlds;
ghost use Rattle.gw_deps.specs.Indexes.{HasRoom, IsIndexOf, lists_of};

use crate::edge::Edge;
use crate::exchange::{Exchanges, exchanges_by};
use crate::sorted::Sorted;
use gw_store::{Event, World};
use gw_text::NoMemory;
use std::alloc::Global;
use std::marker::Model;
use std::snapshot::Snapshot;

/// The edges of a world: from each class to the Gateways that name it; and to the Routes, from the Gateways, the namespace and the
/// Services that they name, and from the other namespaces whose grants they need.
#[derive(Drop)]
pub struct Index {
    pub(crate) by_class: Sorted<Edge>,
    pub(crate) by_gateway: Sorted<Edge>,
    pub(crate) by_namespace: Sorted<Edge>,
    pub(crate) by_service: Sorted<Edge>,
    pub(crate) by_grant: Sorted<Edge>,
}

impl Model for Index {
    ghost use Rattle.gw_deps.specs.Indexes.{Index as Plain};

    ghost Value = { Plain };

    ghost view = { λ i. record {
      by_class = i.by_class;
      by_gateway = i.by_gateway;
      by_namespace = i.by_namespace;
      by_service = i.by_service;
      by_grant = i.by_grant;
    } };
}

/// What an event changes of an index, with all memory that it takes.
#[derive(Drop)]
pub struct IndexPatch {
    exchanges: Exchanges,
    index: Snapshot<Index>,
    world: Snapshot<World>,
    event: Snapshot<Event>,
}

impl Model for IndexPatch {
    ghost use Rattle.gw_store.specs.SeenEvents.{seen_event};
    ghost use Rattle.gw_deps.specs.Indexes.{IsPatch, Patch};

    ghost Value = { Patch };

    ghost view = { λ p. record { index = p.index.value; world = p.world.value.world; event = seen_event p.event.value } };

    ghost invariant = { λ p. IsPatch (record { index = p.index.value; world = p.world.value.world; event = seen_event p.event.value }) p.exchanges };
}

impl Index {
    /// No edges.
    pub fn new(alloc: Global) -> Self
        ensures { IsIndexOf worlds.nothing result }
    {
        Index {
            by_class: Sorted::new(alloc),
            by_gateway: Sorted::new(alloc),
            by_namespace: Sorted::new(alloc),
            by_service: Sorted::new(alloc),
            by_grant: Sorted::new(alloc),
        }
    }

    // Makes room for the edges that come.
    fn reserve(&mut self, exchanges: &Exchanges) -> Result<(), NoMemory>
        ensures lists { lists_of self.new ≡ lists_of self.old }
        ensures ok { OnOk result (HasRoom self.new exchanges.now) }
    {
        self.by_class.reserve(exchanges.by_class.next.len())?;
        self.by_gateway.reserve(exchanges.by_gateway.next.len())?;
        self.by_namespace
            .reserve(exchanges.by_namespace.next.len())?;
        self.by_service.reserve(exchanges.by_service.next.len())?;
        self.by_grant.reserve(exchanges.by_grant.next.len())
    }

    /// What the event changes of the index of this world, which stays as it is and gets the room for it.
    pub fn prepare(
        &mut self,
        alloc: Global,
        world: &World,
        event: &Event,
    ) -> Result<IndexPatch, NoMemory>
        requires { IsIndexOf world.now.world self.old }
        ensures lists { lists_of self.new ≡ lists_of self.old }
        ensures index { IsIndexOf world.now.world self.new }
        ensures patch { IfOk result (λ p. p ≡ record { index = self.new; world = world.now.world; event = seen_event event.now }) }
    {
        let exchanges = exchanges_by(alloc, world, event)?;
        self.reserve(&exchanges)?;
        Ok(IndexPatch {
            exchanges,
            index: Snapshot::of(self),
            world: Snapshot::of(world),
            event: Snapshot::of(event),
        })
    }

    /// The index of the world after the event for which the patch was prepared. Takes no memory.
    pub fn apply(&mut self, patch: IndexPatch)
        requires { patch.index ≡ self.old }
        ensures { (at : ℤ) → IsIndexOf (worlds.apply patch.world (record { event = patch.event; at = at })) self.new }
    {
        let IndexPatch {
            exchanges,
            index: _,
            world: _,
            event: _,
        } = patch;
        let Exchanges {
            by_class,
            by_gateway,
            by_namespace,
            by_service,
            by_grant,
        } = exchanges;
        by_class.apply(&mut self.by_class);
        by_gateway.apply(&mut self.by_gateway);
        by_namespace.apply(&mut self.by_namespace);
        by_service.apply(&mut self.by_service);
        by_grant.apply(&mut self.by_grant);
    }
}

ghost use Rattle.std.specs.Prelude.{◌≡◌, ◌↔◌, ◌<◌, Some, false, nat_le, IsOk, IfOk, IfSome, IfErr, OnOk, filter, length, map, option_copied, option_map};
ghost use Rattle.gw_text.specs.model.Names.{cluster_key};
ghost use Rattle.gw_text.specs.model.References.{is_slice_of};
ghost use Rattle.gw_text.specs.model.Stored.{stored_at, objects_of, IsInKeyOrder};
ghost use Rattle.gw_text.specs.model.World as worlds;
ghost use Rattle.gw_store.specs.SeenEvents.{seen_object, seen_event};
ghost use Rattle.gw_store.specs.Stores.{least};
ghost use Rattle.gw_store.specs.Table.{IsPlaceOf, at_place};
ghost use Rattle.gw_store.specs.Trials.{IsLeft, put_by, restored};

use crate::event::{Event, Object};
use crate::slices::{DisplacedSlice, Slices};
use crate::table::{Displaced, Table};
use gw_json::Refusal;
use gw_objects::{EndpointSlice, Gateway, GatewayClass, Namespace, ReferenceGrant, Service};
use gw_route::HttpRoute;
use gw_text::{Key, Kind, NoMemory, Second, Stored, Text};
use std::alloc::Global;
use std::marker::Model;
use std::snapshot::Snapshot;

/// The most objects that are held.
pub const MOST_OBJECTS: usize = 65_536;

/// The most HTTPRoutes of them.
pub const MOST_ROUTES: usize = 16_384;

/// The objects that are held, kind by kind, and the number of the changes that led here.
pub struct World {
    classes: Table<GatewayClass>,
    gateways: Table<Gateway>,
    routes: Table<HttpRoute>,
    grants: Table<ReferenceGrant>,
    namespaces: Table<Namespace>,
    services: Table<Service>,
    slices: Slices,
    changes: u64,
}

// Written out, so that crates above don't prove anew how each object is dropped.
impl Drop for World {
    fn drop(self) {
        let World {
            classes: _,
            gateways: _,
            routes: _,
            grants: _,
            namespaces: _,
            services: _,
            slices: _,
            changes: _,
        } = self;
    }
}

impl Model for World {
    ghost use Rattle.gw_store.specs.Stores.{Store};

    ghost Value = { Store };

    ghost view = { λ w. record {
      world = record {
        classes = w.classes.stored;
        gateways = w.gateways.stored;
        routes = w.routes.stored;
        grants = w.grants.stored;
        namespaces = w.namespaces.stored;
        services = w.services.stored;
        slices = w.slices.stored;
        changes = w.changes;
      };
      rooms = record {
        classes = w.classes.spare;
        gateways = w.gateways.spare;
        routes = w.routes.spare;
        grants = w.grants.spare;
        namespaces = w.namespaces.spare;
        services = w.services.spare;
        slices = w.slices.spare;
        by_service = w.slices.index.spares;
      };
      by_service = w.slices.index.slices;
    } };
}

/// What undoes a change of the objects of one kind.
#[derive(Drop)]
enum Undo {
    GatewayClass(Displaced<GatewayClass>),
    Gateway(Displaced<Gateway>),
    HttpRoute(Displaced<HttpRoute>),
    ReferenceGrant(Displaced<ReferenceGrant>),
    Namespace(Displaced<Namespace>),
    Service(Displaced<Service>),
    EndpointSlice(DisplacedSlice),
}

/// A change of a world that may be undone.
#[derive(Drop)]
pub struct Trial {
    undo: Undo,
    /// The kind and key that it removed, if it is a removal.
    removed: Option<(Kind, Key)>,
    event: Snapshot<Event>,
    before: Snapshot<World>,
    after: Snapshot<World>,
}

impl Model for Trial {
    ghost use Rattle.gw_store.specs.SeenEvents.{seen_event};
    ghost use Rattle.gw_store.specs.Stores.{Tried};
    ghost use Rattle.gw_store.specs.Trials.{IsTrial};

    ghost Value = { Tried };

    ghost view = { λ t. record { before = t.before.value; after = t.after.value; event = seen_event t.event.value } };

    ghost invariant = { λ t. IsTrial t.undo t.removed (seen_event t.event.value) t.before.value t.after.value };
}

impl World {
    /// Holds nothing.
    pub fn new(alloc: Global) -> Self
        ensures { result.world ≡ worlds.nothing }
    {
        World {
            classes: Table::new(alloc),
            gateways: Table::new(alloc),
            routes: Table::new(alloc),
            grants: Table::new(alloc),
            namespaces: Table::new(alloc),
            services: Table::new(alloc),
            slices: Slices::new(alloc),
            changes: 0,
        }
    }

    /// Whether there is room for the change: it is `Full` where it would hold one object too many, and where its
    /// number would no longer be one of 64 bits.
    #[tactic(auto, unfolding(gw_text::specs::model::World::is_full))]
    pub fn check(&self, event: &Event) -> Result<(), Refusal>
        ensures ok { IsOk result ↔ (worlds.is_full self.now.world (seen_event event.now) ≡ false) }
        ensures full { IfErr result (λ e. e ≡ Refusal.Full) }
    {
        if self.is_one_too_many(event) || self.changes == u64::MAX {
            return Err(Refusal::Full);
        }
        Ok(())
    }

    fn is_one_too_many(&self, event: &Event) -> bool
        ensures { result ≡ worlds.is_one_too_many self.now.world (seen_event event.now) }
    {
        match event {
            Event::Put(object) => {
                // Whether there is room is known without a look-up.
                let kind = object.kind();
                self.has_no_room(kind) && !self.holds(kind, object.key())
            }
            Event::Remove(_, _) => false,
        }
    }

    fn has_no_room(&self, kind: Kind) -> bool
        ensures { result ≡ worlds.has_no_room self.now.world kind }
    {
        self.has_most_objects()
            || (matches!(kind, Kind::HttpRoute) && MOST_ROUTES <= self.routes.len())
    }

    /// Whether an object of this kind and key is held.
    pub fn holds(&self, kind: Kind, key: &Key) -> bool
        ensures { result ≡ worlds.is_held self.now.world kind key.now }
    {
        match kind {
            Kind::GatewayClass => self.classes.holds(key),
            Kind::Gateway => self.gateways.holds(key),
            Kind::HttpRoute => self.routes.holds(key),
            Kind::ReferenceGrant => self.grants.holds(key),
            Kind::Namespace => self.namespaces.holds(key),
            Kind::Service => self.services.holds(key),
            Kind::EndpointSlice => self.slices.holds(key),
        }
    }

    // Whether at least as many objects are held as can be.
    fn has_most_objects(&self) -> bool
        ensures { result ≡ nat_le worlds.most_objects (worlds.object_count self.now.world) }
    {
        let objects = self
            .classes
            .len()
            .saturating_add(self.gateways.len())
            .saturating_add(self.routes.len())
            .saturating_add(self.grants.len())
            .saturating_add(self.namespaces.len())
            .saturating_add(self.services.len())
            .saturating_add(self.slices.len());
        MOST_OBJECTS <= objects
    }

    /// Makes room for one object more of each kind.
    pub fn reserve(&mut self) -> Result<(), NoMemory>
        ensures world { self.new.world ≡ self.old.world }
        ensures by_service { self.new.by_service ≡ self.old.by_service }
        ensures ok { OnOk result (0 < least self.new.rooms) }
    {
        self.classes.reserve()?;
        self.gateways.reserve()?;
        self.routes.reserve()?;
        self.grants.reserve()?;
        self.namespaces.reserve()?;
        self.services.reserve()?;
        self.slices.reserve()
    }

    /// Does what the event says.
    pub fn put(&mut self, event: Event, at: Second)
        requires room { 0 < least self.old.rooms }
        requires check { worlds.is_full self.old.world (seen_event event) ≡ false }
        ensures { self.new.world ≡ worlds.apply self.old.world (record { event = seen_event event; at = at }) }
    {
        self.trial(event, at);
    }

    /// Does what the event says, until it is undone. Takes no memory.
    #[tactic(auto, unfolding(gw_text::specs::model::World::is_full))]
    pub fn trial(&mut self, event: Event, at: Second) -> Trial
        requires room { 0 < least self.old.rooms }
        requires check { worlds.is_full self.old.world (seen_event event) ≡ false }
        ensures world { self.new.world ≡ worlds.apply self.old.world (record { event = seen_event event; at = at }) }
        ensures trial { result ≡ record { before = self.old; after = self.new; event = seen_event event } }
    {
        let before = Snapshot::of(self);
        let seen = Snapshot::of(&event);
        let (undo, removed) = match event {
            Event::Put(object) => (self.put_object(object, at), None),
            Event::Remove(kind, key) => (self.remove(kind, &key), Some((kind, key))),
        };
        self.changes += 1;
        Trial {
            undo,
            removed,
            event: seen,
            before,
            after: Snapshot::of(self),
        }
    }

    /// Undoes a trial, and hands its event back. Takes no memory.
    pub fn back(&mut self, trial: Trial) -> Event
        requires { self.old ≡ trial.after }
        ensures world { self.new ≡ trial.before }
        ensures event { seen_event result ≡ trial.event }
    {
        let Trial {
            undo,
            removed,
            event: _,
            before: _,
            after: _,
        } = trial;
        self.changes -= 1;
        let put = self.undo(undo);
        match removed {
            Some((kind, key)) => Event::Remove(kind, key),
            None => Event::Put(put.unwrap()),
        }
    }

    fn put_object(&mut self, object: Object, at: Second) -> Undo
        requires { 0 < least self.old.rooms }
        ensures world { self.new.world ≡ worlds.put_object self.old.world (seen_object object) at }
        ensures left { IsLeft result self.new }
        ensures restored { restored result self.new ≡ self.old }
        ensures put { put_by result ≡ Some (seen_object object) }
    {
        match object {
            Object::GatewayClass(class) => Undo::GatewayClass(self.classes.put(class, at)),
            Object::Gateway(gateway) => Undo::Gateway(self.gateways.put(gateway, at)),
            Object::HttpRoute(route) => Undo::HttpRoute(self.routes.put(route, at)),
            Object::ReferenceGrant(grant) => Undo::ReferenceGrant(self.grants.put(grant, at)),
            Object::Namespace(namespace) => Undo::Namespace(self.namespaces.put(namespace, at)),
            Object::Service(service) => Undo::Service(self.services.put(service, at)),
            Object::EndpointSlice(slice) => Undo::EndpointSlice(self.slices.put(slice, at)),
        }
    }

    fn remove(&mut self, kind: Kind, key: &Key) -> Undo
        ensures world { self.new.world ≡ worlds.remove_key self.old.world kind key.now }
        ensures left { IsLeft result self.new }
        ensures restored { restored result self.new ≡ self.old }
    {
        match kind {
            Kind::GatewayClass => Undo::GatewayClass(self.classes.remove(key)),
            Kind::Gateway => Undo::Gateway(self.gateways.remove(key)),
            Kind::HttpRoute => Undo::HttpRoute(self.routes.remove(key)),
            Kind::ReferenceGrant => Undo::ReferenceGrant(self.grants.remove(key)),
            Kind::Namespace => Undo::Namespace(self.namespaces.remove(key)),
            Kind::Service => Undo::Service(self.services.remove(key)),
            Kind::EndpointSlice => Undo::EndpointSlice(self.slices.remove(key)),
        }
    }

    // Undoes the last change of the objects of one kind: the object that it put.
    fn undo(&mut self, undo: Undo) -> Option<Object>
        requires { IsLeft undo self.old }
        ensures world { self.new ≡ restored undo self.old }
        ensures put { option_map seen_object result ≡ put_by undo }
    {
        match undo {
            Undo::GatewayClass(class) => Some(Object::GatewayClass(self.classes.undo(class)?)),
            Undo::Gateway(gateway) => Some(Object::Gateway(self.gateways.undo(gateway)?)),
            Undo::HttpRoute(route) => Some(Object::HttpRoute(self.routes.undo(route)?)),
            Undo::ReferenceGrant(grant) => Some(Object::ReferenceGrant(self.grants.undo(grant)?)),
            Undo::Namespace(namespace) => Some(Object::Namespace(self.namespaces.undo(namespace)?)),
            Undo::Service(service) => Some(Object::Service(self.services.undo(service)?)),
            Undo::EndpointSlice(slice) => Some(Object::EndpointSlice(self.slices.undo(slice)?)),
        }
    }

    /// The number of the changes so far.
    pub fn changes(&self) -> u64
        ensures { result ≡ self.now.world.changes }
    {
        self.changes
    }

    /// The GatewayClass of this key.
    pub fn class(&self, key: &Key) -> Option<&Stored<GatewayClass>>
        ensures { option_copied result ≡ stored_at worlds.class_key key.now self.now.world.classes }
    {
        self.classes.get(key)
    }

    /// The Gateway of this key.
    pub fn gateway(&self, key: &Key) -> Option<&Stored<Gateway>>
        ensures { option_copied result ≡ stored_at worlds.gateway_key key.now self.now.world.gateways }
    {
        self.gateways.get(key)
    }

    /// The HTTPRoute of this key.
    pub fn route(&self, key: &Key) -> Option<&Stored<HttpRoute>>
        ensures { option_copied result ≡ stored_at worlds.route_key key.now self.now.world.routes }
    {
        self.routes.get(key)
    }

    /// The Service of this key.
    pub fn service(&self, key: &Key) -> Option<&Stored<Service>>
        ensures { option_copied result ≡ stored_at worlds.service_key key.now self.now.world.services }
    {
        self.services.get(key)
    }

    /// The Namespace of this key.
    pub fn namespace(&self, key: &Key) -> Option<&Stored<Namespace>>
        ensures { option_copied result ≡ stored_at worlds.namespace_key key.now self.now.world.namespaces }
    {
        self.namespaces.get(key)
    }

    /// The Namespace of this name.
    pub fn namespace_named(
        &self,
        alloc: Global,
        name: &Text,
    ) -> Result<Option<&Stored<Namespace>>, NoMemory>
        ensures { IfOk result (λ found. option_copied found ≡ stored_at worlds.namespace_key (cluster_key name.now) self.now.world.namespaces) }
    {
        self.namespaces.named(alloc, name)
    }

    /// The place of the Gateway of this key among all.
    pub fn gateway_position(&self, key: &Key) -> Option<usize>
        ensures place { IsPlaceOf worlds.gateway_key key.now self.now.world.gateways result }
        ensures found { worlds.gateway_at self.now.world key.now ≡ at_place self.now.world.gateways result }
        ensures within { IfSome result (λ place. place < length self.now.world.gateways) }
    {
        self.gateways.position(key)
    }

    /// All GatewayClasses, in key order.
    pub fn classes(&self) -> &[Stored<GatewayClass>]
        ensures value { result.now ≡ self.now.world.classes }
        ensures order { IsInKeyOrder worlds.class_key result.now }
    {
        self.classes.objects()
    }

    /// All Gateways, in key order.
    pub fn gateways(&self) -> &[Stored<Gateway>]
        ensures value { result.now ≡ self.now.world.gateways }
        ensures order { IsInKeyOrder worlds.gateway_key result.now }
    {
        self.gateways.objects()
    }

    /// All HTTPRoutes, in key order.
    pub fn routes(&self) -> &[Stored<HttpRoute>]
        ensures value { result.now ≡ self.now.world.routes }
        ensures order { IsInKeyOrder worlds.route_key result.now }
    {
        self.routes.objects()
    }

    /// All Namespaces, in key order.
    pub fn namespaces(&self) -> &[Stored<Namespace>]
        ensures value { result.now ≡ self.now.world.namespaces }
        ensures order { IsInKeyOrder worlds.namespace_key result.now }
    {
        self.namespaces.objects()
    }

    /// All ReferenceGrants, in key order.
    pub fn grants(&self) -> &[Stored<ReferenceGrant>]
        ensures value { result.now ≡ self.now.world.grants }
        ensures order { IsInKeyOrder worlds.grant_key result.now }
    {
        self.grants.objects()
    }

    /// All Services, in key order.
    pub fn services(&self) -> &[Stored<Service>]
        ensures value { result.now ≡ self.now.world.services }
        ensures order { IsInKeyOrder worlds.service_key result.now }
    {
        self.services.objects()
    }

    /// All EndpointSlices, in key order.
    pub fn slices(&self) -> &[Stored<EndpointSlice>]
        ensures value { result.now ≡ self.now.world.slices }
        ensures order { IsInKeyOrder worlds.slice_key result.now }
    {
        self.slices.objects()
    }

    /// The ReferenceGrants of a namespace, in key order.
    pub fn grants_in(&self, namespace: &Text) -> &[Stored<ReferenceGrant>]
        ensures value { result.now ≡ worlds.grants_in self.now.world namespace.now }
        ensures order { IsInKeyOrder worlds.grant_key result.now }
    {
        self.grants.in_namespace(namespace)
    }

    /// The EndpointSlices of a namespace, in key order.
    pub fn slices_in(&self, namespace: &Text) -> &[Stored<EndpointSlice>]
        ensures value { result.now ≡ worlds.slices_in self.now.world namespace.now }
        ensures order { IsInKeyOrder worlds.slice_key result.now }
    {
        self.slices.in_namespace(namespace)
    }

    /// All EndpointSlices of the Service of this key, in key order. There may be a few of others among them, as a caller finds
    /// by its own test.
    pub fn slices_of(&self, alloc: Global, service: &Key) -> Result<Vec<&EndpointSlice>, NoMemory>
        ensures { IfOk result (λ slices. filter (is_slice_of service.now) (map (λ s. s.now) slices.items) ≡ filter (is_slice_of service.now) (objects_of self.now.world.slices)) }
    {
        self.slices.of_service(alloc, service)
    }
}

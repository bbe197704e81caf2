ghost use Rattle.std.specs.Prelude.{◌≡◌, IfOk};
ghost use Rattle.gw_text.specs.model.Objects.{object_kind, object_key};
ghost use Rattle.gw_store.specs.EventTypes.{event_type_of};
ghost use Rattle.gw_store.specs.SeenEvents.{seen_object, seen_event};

use crate::incoming::IncomingSlice;
use gw_objects::{Gateway, GatewayClass, Namespace, ReferenceGrant, Service};
use gw_route::HttpRoute;
use gw_text::{Incoming, Key, Kind, NoMemory, Second};
use std::alloc::Global;

/// The type of a watch event.
#[derive(Clone, Copy, Debug, PartialEq, Eq)]
pub enum EventType {
    Added,
    Modified,
    Deleted,
    Bookmark,
    Error,
}

impl EventType {
    /// The type of this name.
    #[tactic(auto, unfolding(crate::specs::EventTypes::event_type_of))]
    pub fn of(name: &str) -> Option<EventType>
        ensures { result ≡ event_type_of name.now }
    {
        match name {
            "ADDED" => Some(EventType::Added),
            "MODIFIED" => Some(EventType::Modified),
            "DELETED" => Some(EventType::Deleted),
            "BOOKMARK" => Some(EventType::Bookmark),
            "ERROR" => Some(EventType::Error),
            _ => None,
        }
    }
}

/// An object of one of the kinds that are read.
#[derive(Drop)]
pub enum Object {
    GatewayClass(Incoming<GatewayClass>),
    Gateway(Incoming<Gateway>),
    HttpRoute(Incoming<HttpRoute>),
    ReferenceGrant(Incoming<ReferenceGrant>),
    Namespace(Incoming<Namespace>),
    Service(Incoming<Service>),
    EndpointSlice(IncomingSlice),
}

impl Object {
    /// The object's kind.
    pub fn kind(&self) -> Kind
        ensures { result ≡ object_kind (seen_object self.now) }
    {
        match self {
            Object::GatewayClass(_) => Kind::GatewayClass,
            Object::Gateway(_) => Kind::Gateway,
            Object::HttpRoute(_) => Kind::HttpRoute,
            Object::ReferenceGrant(_) => Kind::ReferenceGrant,
            Object::Namespace(_) => Kind::Namespace,
            Object::Service(_) => Kind::Service,
            Object::EndpointSlice(_) => Kind::EndpointSlice,
        }
    }

    /// The object's key.
    pub fn key(&self) -> &Key
        ensures { result.now ≡ object_key (seen_object self.now) }
    {
        match self {
            Object::GatewayClass(class) => &class.meta.key,
            Object::Gateway(gateway) => &gateway.meta.key,
            Object::HttpRoute(route) => &route.meta.key,
            Object::ReferenceGrant(grant) => &grant.meta.key,
            Object::Namespace(namespace) => &namespace.meta.key,
            Object::Service(service) => &service.meta.key,
            Object::EndpointSlice(slice) => &slice.meta.key,
        }
    }

    /// One handle more on the same object, which isn't copied.
    pub fn share(&self) -> Result<Self, NoMemory>
        ensures { IfOk result (λ object. seen_object object ≡ seen_object self.now) }
    {
        match self {
            Object::GatewayClass(class) => Ok(Object::GatewayClass(class.share()?)),
            Object::Gateway(gateway) => Ok(Object::Gateway(gateway.share()?)),
            Object::HttpRoute(route) => Ok(Object::HttpRoute(route.share()?)),
            Object::ReferenceGrant(grant) => Ok(Object::ReferenceGrant(grant.share()?)),
            Object::Namespace(namespace) => Ok(Object::Namespace(namespace.share()?)),
            Object::Service(service) => Ok(Object::Service(service.share()?)),
            Object::EndpointSlice(slice) => Ok(Object::EndpointSlice(slice.share()?)),
        }
    }
}

/// What a line of a watch does to the objects that are held.
#[derive(Drop)]
pub enum Event {
    /// Puts the object under its kind and key, in place of the one that is held there.
    Put(Object),
    /// Takes away the object of this kind and key, if there is one.
    Remove(Kind, Key),
}

impl Event {
    /// The same event once more, whose object is shared and isn't copied.
    pub fn share(&self, alloc: Global) -> Result<Self, NoMemory>
        ensures { IfOk result (λ event. seen_event event ≡ seen_event self.now) }
    {
        match self {
            Event::Put(object) => Ok(Event::Put(object.share()?)),
            Event::Remove(kind, key) => Ok(Event::Remove(*kind, key.copy(alloc)?)),
        }
    }
}

/// One change of a list of changes.
pub struct Entry {
    /// What it does.
    pub event: Event,
    /// The moment at which it came.
    pub at: Second,
}

// Written out, so that crates above don't prove anew how each object is dropped.
impl Drop for Entry {
    fn drop(self) {
        let Entry { event: _, at: _ } = self;
    }
}

/// What a line says.
#[derive(Drop)]
pub enum Read {
    /// A change, for which there may still be no room.
    Change(Event),
    /// A notice, or an object that isn't of one of the kinds at the version that is read.
    Skipped,
}

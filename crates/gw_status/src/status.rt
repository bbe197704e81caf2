use crate::state::{GatewayState, ListenerState};
use gw_shared::SharedList;
use gw_text::{Condition, Key, List, Name, NamespaceName, Text};
use std::marker::Model;

/// The statuses of classes, in key order.
pub type ClassStatuses = List<ClassStatus>;

/// The statuses of a Gateway's listeners, in list order.
pub type ListenerStatuses = List<ListenerStatus>;

/// The statuses of Gateways, in key order. Copies share the leaves in which they don't differ.
pub type GatewayStatuses = SharedList<GatewayStatus>;

/// The entries of a Route, in the order of its parentRefs.
pub type ParentStatuses = List<ParentStatus>;

/// The statuses of Routes, in key order. Copies share the leaves in which they don't differ.
pub type RouteStatuses = SharedList<RouteStatus>;

/// The status of a GatewayClass.
#[derive(Drop)]
pub struct ClassStatus {
    pub key: Key,
    pub accepted: Condition,
}

impl Model for ClassStatus {
    ghost use Rattle.gw_text.specs.model.Statuses.{ClassStatus as Plain};

    ghost Value = { Plain };

    ghost view = { λ s. record { key = s.key; accepted = s.accepted } };
}

/// The status of a listener.
pub struct ListenerStatus {
    pub name: Name,
    pub state: ListenerState,
    /// The number of Routes that are attached to it.
    pub attached: u64,
}

impl Model for ListenerStatus {
    ghost use Rattle.gw_text.specs.model.Statuses.{ListenerStatus as Plain};

    ghost Value = { Plain };

    ghost view = { λ s. record { name = s.name; state = s.state; attached = s.attached } };
}

// Written out, so that crates above don't prove anew how its parts are dropped.
impl Drop for ListenerStatus {
    fn drop(self) {
        let ListenerStatus {
            name: _,
            state: _,
            attached: _,
        } = self;
    }
}

/// The status of a Gateway, with those of its listeners.
pub struct GatewayStatus {
    pub key: Key,
    pub state: GatewayState,
    pub listeners: ListenerStatuses,
}

impl Model for GatewayStatus {
    ghost use Rattle.gw_text.specs.model.Statuses.{GatewayStatus as Plain};

    ghost Value = { Plain };

    ghost view = { λ s. record { key = s.key; state = s.state; listeners = s.listeners } };
}

// Written out, so that crates above don't prove anew how its parts are dropped.
impl Drop for GatewayStatus {
    fn drop(self) {
        let GatewayStatus {
            key: _,
            state: _,
            listeners: _,
        } = self;
    }
}

/// The entry of a Route for one of its parentRefs.
#[derive(Drop)]
pub struct ParentStatus {
    /// The name of the controller that writes it.
    pub controller: Text,
    pub namespace: NamespaceName,
    pub name: Name,
    /// The listener's name and port, where the parentRef gives them.
    pub section: Option<Name>,
    pub port: Option<u16>,
    pub accepted: Condition,
    pub resolved: Condition,
}

impl Model for ParentStatus {
    ghost use Rattle.gw_text.specs.model.Statuses.{ParentStatus as Plain};

    ghost Value = { Plain };

    ghost view = { λ s. record { controller = s.controller; namespace = s.namespace; name = s.name; section = s.section; port = s.port; accepted = s.accepted; resolved = s.resolved } };
}

/// The status of a Route.
pub struct RouteStatus {
    pub key: Key,
    pub parents: ParentStatuses,
}

impl Model for RouteStatus {
    ghost use Rattle.gw_text.specs.model.Statuses.{RouteStatus as Plain};

    ghost Value = { Plain };

    ghost view = { λ s. record { key = s.key; parents = s.parents } };
}

// Written out, so that crates above don't prove anew how its parts are dropped.
impl Drop for RouteStatus {
    fn drop(self) {
        let RouteStatus { key: _, parents: _ } = self;
    }
}

/// All statuses, each kind in key order.
#[derive(Drop)]
pub struct Statuses {
    pub classes: ClassStatuses,
    pub gateways: GatewayStatuses,
    pub routes: RouteStatuses,
}

impl Model for Statuses {
    ghost use Rattle.gw_text.specs.model.Statuses.{Statuses as Plain};

    ghost Value = { Plain };

    ghost view = { λ s. record { classes = s.classes; gateways = s.gateways; routes = s.routes } };
}

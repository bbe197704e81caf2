//! The statuses of classes, Gateways, listeners and Routes, and their text.
#![tactic(auto)]

mod send;
mod state;
mod status;
mod write;

pub use gw_shared::Shared;
pub use gw_text::{CondKind, Condition, Reason};
pub use state::{GatewayState, ListenerState};
pub use status::{
    ClassStatus, ClassStatuses, GatewayStatus, GatewayStatuses, ListenerStatus, ListenerStatuses,
    ParentStatus, ParentStatuses, RouteStatus, RouteStatuses, Statuses,
};
pub use write::{push_statuses, write_statuses};

//! The conditions of a Gateway and of its listeners, by the doors that it has.
#![tactic(auto)]

mod address;
mod gateway;
mod listener;

pub use gateway::gateway_state;
pub use gw_status::{GatewayState, ListenerState};
pub use listener::{ListenerStates, listener_states};

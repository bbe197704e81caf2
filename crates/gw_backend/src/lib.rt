//! What becomes of a backendRef: the sockets of the endpoints that are ready behind it, or why there are none.
#![tactic(auto)]

mod port;
mod slice;
mod sockets;
mod state;

pub use gw_route::BackendState;
pub use state::{backend_state, unresolved};

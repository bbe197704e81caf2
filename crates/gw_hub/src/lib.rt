//! The controller, which takes changes, keeps the statuses and tables after each, and publishes them; and the hub, a lock round one
//! controller that threads share.
#![tactic(auto)]

mod controller;
mod desk;
mod hub;
mod lines;
mod name;
mod receipt;

pub use controller::Controller;
pub use gw_resolve::Outcome;
pub use hub::Hub;
pub use name::HubName;
pub use receipt::{HubFault, Receipt};

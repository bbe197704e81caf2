//! Since when each condition of a status has its status: kept from change to change, each condition under its name.
#![tactic(auto)]

mod entry;
mod laws;
mod name;
mod place;
mod stamps;
mod stated;
mod times;

pub use laws::{names_are_same_if_equal, stamps_hold_since, stamps_stay_since};
pub use name::{CondName, CondNames, Owner, Part, Stated};
pub use stamps::{StampPatch, Stamps};
pub use stated::{class_stated, gateway_stated, route_stated};
pub use times::Times;

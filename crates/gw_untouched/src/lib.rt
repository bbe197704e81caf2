//! Laws of what a change doesn't touch: the Routes and Gateways that don't depend on the changed object stay as they were, and so does
//! what is evaluated of them.
#![tactic(auto)]

mod placing;
mod staying;

pub use placing::objects_stand_in_order;
pub use staying::{gateways_stay, routes_stay, touched_keys_are_all};

//! Which row of a door serves a request, and the tables of all doors: listener by listener and Route by Route, so that a change makes
//! anew what it touches, and shares the rest.
#![tactic(auto)]

mod changing;
mod choice;
mod handles;
mod laws;
mod listener_table;
mod making;
mod route_rows;
mod table;
mod tables;

pub use laws::rows_of_a_door_stand_listener_by_listener;
pub use listener_table::ListenerTable;
pub use route_rows::RouteRows;
pub use table::DoorTable;
pub use tables::Tables;

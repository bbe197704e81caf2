//! Laws of the rows that a door has: its listeners differ, and what is drawn for a request is there.
#![tactic(auto)]

mod backends;
mod decisions;
mod listeners;

pub use backends::{a_socket_is_drawn, a_weight_is_drawn, ready_backends_have_sockets};
pub use decisions::{
    decisions_go_by_the_backend_drawn, no_backend_where_nothing_is_sent,
    no_endpoints_where_none_is_ready,
};
pub use listeners::{served_listeners_differ_in_hostname, served_listeners_differ_in_specificity};

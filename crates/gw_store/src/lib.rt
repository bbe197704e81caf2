//! Watch events, and the objects that are held after them, kind by kind and in key order.
#![tactic(auto)]

mod by_service;
mod change;
mod event;
mod incoming;
mod keyed;
mod lines;
mod part;
mod read;
mod service_slice;
mod slices;
mod table;
mod world;

pub use event::{Entry, Event, EventType, Object, Read};
pub use gw_text::Kind;
pub use incoming::IncomingSlice;
pub use lines::{first_line, is_blank};
pub use read::read_event;
pub use table::{Displaced, Keyed, Table};
pub use world::{Trial, World};

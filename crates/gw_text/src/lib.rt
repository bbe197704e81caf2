// Texts, names, keys, hostnames and moments, and the definitions of objects, counts and
// lists that the contracts of every crate above speak of.
#![tactic(auto)]

mod condition;
mod door;
mod doors;
mod field;
mod host;
mod ipv4;
mod key;
mod kind;
mod list;
mod meta;
mod name;
mod second;
mod socket;
mod steps;
mod stored;
mod text;
mod types;

pub use condition::{CondKind, Condition, Reason};
pub use door::Door;
pub use doors::{DoorFault, Doors};
pub use field::{Field, Fields, Names};
pub use host::Host;
pub use ipv4::parse_ipv4;
pub use key::Key;
pub use kind::{GATEWAY_GROUP, Kind};
pub use list::List;
pub use meta::Meta;
pub use name::{
    Name, NamespaceName, TextFault, is_hostname, is_name, is_namespace, is_precise_hostname,
};
pub use second::Second;
pub use socket::{Socket, Sockets, is_decimal};
pub use std::alloc::AllocError as NoMemory;
pub use steps::Steps;
pub use stored::{Incoming, Stored};
pub use text::Text;
pub use types::{
    AddressType, EndpointAddressType, FromNamespaces, PathMatchType, Protocol, ValueMatchType,
};

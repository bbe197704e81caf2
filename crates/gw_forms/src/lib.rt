//! The forms of the texts in objects, each with its limit: what a field may hold, and what is read of it. Fields are read
//! by these forms in every crate above, as in `at.needed(alloc, "name", forms::Name)`.
#![tactic(auto)]

mod name;
mod plain;
mod predicate;
mod types;
mod value;

pub use name::{Hostname, Name, Namespace};
pub use plain::Plain::{
    AnyPath, FieldValue, ParameterName, ParameterValue, Path, PreciseHostname, Replacement, Token,
    Word,
};
pub use plain::{Plain, needed_word};
pub use types::{AddressType, EndpointAddressType, PathMatchType, Protocol, ValueMatchType};
pub use value::{Ipv4Address, Moment};

//! A list, the copies of which share what they have in common: a change costs a leaf, a branch of leaves, and the list of branches.
//! A map from bytes to values of the same kind: a change costs a bucket, a group of buckets, and the list of groups.
#![tactic(auto)]

mod branch;
mod bucket;
mod buckets;
mod cut;
mod group;
mod handle;
mod hash;
mod leaf;
mod list;
mod map;
mod part;
mod shared;
mod slot;
mod spliced;

pub use list::SharedList;
pub use map::SharedMap;
pub use shared::Shared;

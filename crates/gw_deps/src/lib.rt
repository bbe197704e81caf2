//! Which Routes and Gateways a change of the objects touches, found by edges from what is named to what names it.
#![tactic(auto)]

mod edge;
mod exchange;
mod index;
mod key;
mod keys;
mod lookup;
mod object_edges;
mod sorted;
mod touching;

pub use index::{Index, IndexPatch};
pub use key::SharedKey;
pub use keys::{Keys, Touched};
pub use lookup::find;
pub use sorted::{Ordered, Sorted};
pub use touching::touched;

//! Which listeners of a Gateway a Route is attached to by one of its parentRefs, or why it is refused.
#![tactic(auto)]

mod attachment;
mod listener;

pub use attachment::{Attachment, Places, attach};

//! What is kept of a condition.

use crate::name::CondName;
use gw_text::Second;

/// A condition's name, whether its status is True, and since when it has this status.
#[derive(Drop)]
pub(crate) struct Entry {
    pub(crate) name: CondName,
    pub(crate) truth: bool,
    pub(crate) since: Second,
}

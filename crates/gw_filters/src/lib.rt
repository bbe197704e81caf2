// What the filters of a rule do: edits of fields, redirects, rewrites.
#![tactic(auto)]

mod edits;
mod path;
mod redirect;
mod target;

pub use edits::{edit, effective};
pub use redirect::location;
pub use target::rewrite;

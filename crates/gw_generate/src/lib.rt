//! A script of Routes and requests out of a seed: what the words of a generator give is written as the lines of a script.
#![tactic(auto)]

mod door;
mod draw;
mod line;
mod script;

pub use door::script_doors;
pub use script::generated;

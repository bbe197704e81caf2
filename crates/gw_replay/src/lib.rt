//! A scripted day of a proxy: events are taken and published, connections of clients come, and backends answer as the script says.
#![tactic(auto)]

mod backends;
mod connections;
mod ending;
mod events;
mod lines;
mod output;
mod print;
mod publications;
mod replay;
mod rows;
mod stop;
mod totals;

pub use ending::{Ending, Replayed};
pub use output::replay_output;

//! What the words that follow the program's name set it to do, or the fault by which it ends.
#![tactic(auto)]

mod fault;
mod setting;
mod task;
mod words;

pub use fault::{Ending, Fault};
pub use setting::{Setting, start};
pub use task::Task;
pub use words::{
    Command, DEFAULT_CONTROLLER, ExplainWords, GenerateWords, ReplayWords, ServeWords, StatusWords,
    UsageFault, read_words,
};

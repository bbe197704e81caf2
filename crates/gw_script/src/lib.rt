//! The lines of a script: what each of them says to do.
#![tactic(auto)]

mod answer;
mod form;
mod part;
mod refusal;
mod step;

pub use form::read_step;
pub use refusal::StepRefusal;
pub use step::Step;

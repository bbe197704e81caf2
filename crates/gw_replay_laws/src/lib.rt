//! Laws of what a script gives: one text only, and how it is a schedule of one publisher and its workers.
#![tactic(auto)]

mod schedules;
mod texts;

pub use schedules::{a_schedule_begins_soundly, a_schedule_rises, a_script_is_a_schedule};
pub use texts::{one_text, one_text_of_a_clock};

//! What is kept of all Routes from change to change, in the order of their keys, with what is made of it: their statuses, how many are
//! attached to each listener, and the tables of the served listeners of doors. Each follows where one Route or one Gateway changes, and
//! shares the rest.
#![tactic(auto)]

mod change;
mod changed;
mod counted;
mod counts;
mod door;
mod held;
mod kept;
mod listener;
mod listener_numbers;
mod maps;
mod place;
mod served;

pub use changed::{replaced, with_at};
pub use held::KeptRoutes;
pub use kept::Kept;
pub use place::{Place, place_in};

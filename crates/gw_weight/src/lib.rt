// The weighted pick: which backend or endpoint is the next.
#![tactic(auto)]

mod book;
mod choice;
mod equal_book;
mod equal_choice;
mod rounds;
mod shares;
mod turns;

pub use book::Book;
pub use equal_book::EqualBook;
pub use rounds::first_picks;
pub use shares::{Shares, sum_of};
pub use turns::are_picked_in_turn;

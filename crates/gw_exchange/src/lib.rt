// One exchange with a backend: the response, or why there is none.
#![tactic(auto)]

mod backend;
mod fault;

pub use backend::{MOST_GIVEN, MOST_PIECE, exchange, step_of};
pub use fault::ExchangeFault;

//! One session over any book, picker and shelf, equal to the search by definition; and a whole search in one call.
#![tactic(auto)]

mod budget;
mod moves;
mod opening;
mod search_state;
mod session;
mod verdict;
mod whole;

pub use budget::check_budget;
pub use session::Session;
pub use whole::{Solved, solve};

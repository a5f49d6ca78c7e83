//! The lessons on a shelf: where the next one is written, and which are forgotten.
#![tactic(auto)]

mod forget;
mod place;

pub use forget::{is_forgotten, sweep};
pub use place::next_place;

//! The vocabulary of the bench: sides, marks, rows of codes, holds, limits, refusals, faults.
#![tactic(auto)]

mod fault;
mod holds;
pub mod limits;
mod mark;
mod refusal;
pub mod row;
mod side;

pub use fault::Fault;
pub use holds::Holds;
pub use mark::Mark;
pub use refusal::{Refusal, Refused};
pub use side::Side;

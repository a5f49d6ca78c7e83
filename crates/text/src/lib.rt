//! Texts: their lines and fields, each with the byte where it starts, the numbers in them, and the
//! page that is written.
#![tactic(auto)]

mod cutting;
mod fields;
mod lines;
mod numbers;
mod page;
mod piece;

pub use cutting::cut;
pub use fields::Fields;
pub use lines::Lines;
pub use numbers::{number, signed};
pub use page::put_number;
pub use piece::Piece;

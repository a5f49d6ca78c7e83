//! The bench sheet: its format by definition, with the law above it, and its reading, judged line
//! by line.
#![tactic(auto)]

mod cases;
mod line;
mod name;
mod sheet;

pub use cases::cases_stand;
pub use name::Name;
pub use sheet::Sheet;

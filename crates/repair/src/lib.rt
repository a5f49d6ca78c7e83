//! A whole repair: from the texts of a book and of a bench sheet to what the search answers, and how that is printed.
#![tactic(auto)]

mod page;
mod printing;
mod repair;
mod solution;
mod workspace;

pub use page::Page;
pub use printing::fit_text;
pub use repair::Repair;
pub use solution::Solution;
pub use workspace::Workspace;

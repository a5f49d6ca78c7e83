//! The search by definition: its types, and the law that holds after every list of calls. The
//! definitions are in specs/.
#![tactic(auto)]

ghost use Rattle.std.specs.Prelude.{◌≡◌};
ghost use Rattle.search.specs.Law.{SearchKeepsItsPromises, CallsLeaveTheRest, FreshStarts, NothingIsHidden};
ghost use Rattle.search.specs.Places.{PlacesAreNext};

mod cases;
mod entry;
mod forgetting;
mod reason;
mod report;

pub use cases::cases_stand;
pub use entry::{Entry, Kind};
pub use forgetting::Forgetting;
pub use reason::Reason;
pub use report::{Answer, Report};

/// The law of the search: `SearchKeepsItsPromises` in specs/Law.antt, from every fresh state; which
/// states are fresh; what a call leaves alone; that no branch of a definition that stands for what
/// cannot be is ever taken; and which place of the shelf is written, in words (specs/Places.antt).
/// Returns how many promises it keeps of a state: lessons, verdict, turns, steps, verdict to come.
#[tactic(auto, using(crate::proofs::Promises::search_keeps_its_promises, crate::proofs::Promises::fresh_starts, crate::proofs::Promises::calls_leave_the_rest, crate::proofs::Places::places_are_next))]
pub fn search_stands() -> usize
    ensures count { result ≡ 5 }
    ensures law { SearchKeepsItsPromises }
    ensures fresh { FreshStarts }
    ensures rest { CallsLeaveTheRest }
    ensures hidden { NothingIsHidden }
    ensures places { PlacesAreNext }
{
    5
}

//! What stands of a search.
ghost use Rattle.std.specs.Prelude.{◌≡◌, ℕ};
ghost use Rattle.search.specs.Calls.{answer_of};
ghost use Rattle.session.specs.Verdicts.{verdict_of};

use parts::limits::MOST_PARTS;
use search::Answer;

/// What stands: no verdict yet, that a choice fits, or that none fits, with the row of the holds that it names, of which the first n codes count.
#[derive(Clone, Copy)]
pub enum Verdict {
    Working,
    Fits,
    // Stays a row for the most parts: no heap in a session.
    NoneFits([u8; MOST_PARTS]),
}

impl Verdict {
    // What a run answers with it.
    // Stays a method: a verdict is lent, and From would take it.
    pub(crate) fn answer(&self) -> Answer
        ensures { (n : ℕ) → result ≡ answer_of (verdict_of n self.now) }
    {
        match self {
            Verdict::Working => Answer::Spent,
            Verdict::Fits => Answer::Fits,
            Verdict::NoneFits(_) => Answer::NoneFits,
        }
    }
}

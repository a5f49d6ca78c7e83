//! What a run returns.
ghost use Rattle.std.specs.Prelude.{Some};
ghost use Rattle.search.specs.Words.{answer_text};

use std::fmt;

/// What a run answers: a choice fits, none fits, or the budget is spent before a verdict.
#[derive(Clone, Copy, Debug, PartialEq, Eq)]
pub enum Answer {
    Fits,
    NoneFits,
    Spent,
}

/// One word: `fits`, `none` or `spent`.
impl fmt::Display for Answer {
    ghost output = { λ answer. Some (answer_text answer) };

    fn fmt<W: fmt::Write>(&self, f: &mut fmt::Formatter<W>) -> fmt::Result {
        f.write_str(match self {
            Answer::Fits => "fits",
            Answer::NoneFits => "none",
            Answer::Spent => "spent",
        })
    }
}

/// The reply of a run: its answer, and the steps and turns since the opening or the last accepted
/// hold or release.
#[derive(Clone, Copy, Debug, PartialEq, Eq)]
pub struct Report {
    pub answer: Answer,
    pub steps: usize,
    pub turns: usize,
}

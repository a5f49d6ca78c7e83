// Judging what a search told, by the book's rules, the holds and the second solver.
use crate::backtrack::{Outcome, choice_under};
use book::Book;
use parts::Mark;
use parts::row::{is_full, is_row, names};
use std::alloc::{AllocError, Global};

// What a row's codes are before a search.
pub const UNTOUCHED: u8 = 77;

// What comes of a judgement.
#[derive(Clone, Copy)]
pub enum Judgement {
    Agrees,
    NotJudged,
    Disagrees(&'static str),
}

// Judges a row that was told as a choice that fits.
pub fn judge_choice<B: Book>(book: &B, holds: &[Mark], row: &[u8]) -> Judgement {
    if !is_row(row, book.n()) || !is_full(row) {
        Judgement::Disagrees("the choice is not full")
    } else if !holds.iter().all(|hold| names(row, *hold)) {
        Judgement::Disagrees("the choice leaves a hold")
    } else if !(1..=book.rules()).all(|rule| meets(book, rule, row)) {
        Judgement::Disagrees("the choice breaks a rule")
    } else {
        Judgement::Agrees
    }
}

// Holds that were named, and what the second solver told of them.
#[derive(Drop)]
pub struct Asked {
    row: Vec<u8>,
    outcome: Outcome,
}

// Judges a row that was told as holds that leave no choice. The second solver is asked where it was last asked about other holds of the book, or never.
pub fn judge_named<B: Book>(
    heap: Global,
    asked: &mut Option<Asked>,
    book: &B,
    holds: &[Mark],
    row: &[u8],
) -> Result<Judgement, AllocError> {
    if row.len() != book.n() || !(1..=row.len()).all(|part| names_a_hold(row, part, holds)) {
        return Ok(Judgement::Disagrees("what is named is no hold"));
    }
    let outcome = match asked {
        Some(last) if last.row.as_slice() == row => last.outcome,
        _ => choice_under(heap, book, row)?,
    };
    *asked = Some(Asked {
        row: row.to_vec(heap)?,
        outcome,
    });
    Ok(match outcome {
        Outcome::NoChoice => Judgement::Agrees,
        Outcome::GaveUp => Judgement::NotJudged,
        Outcome::SomeChoice => Judgement::Disagrees("the named holds leave a choice"),
    })
}

// Judges the row of a spent search.
pub fn judge_spent(row: &[u8]) -> Judgement {
    if row.iter().all(|code| *code == UNTOUCHED) {
        Judgement::Agrees
    } else {
        Judgement::Disagrees("a spent search changed the row")
    }
}

// Whether the row has nothing for the part, or the side of one of the holds.
fn names_a_hold(row: &[u8], part: usize, holds: &[Mark]) -> bool {
    row.get(part.saturating_sub(1)) == Some(&0)
        || holds
            .iter()
            .any(|hold| hold.part == part && names(row, *hold))
}

// Whether a mark of the rule is true in the row.
fn meets<B: Book>(book: &B, rule: usize, row: &[u8]) -> bool {
    let marks = book.marks(rule).unwrap_or(0);
    (1..=marks).any(|place| book.mark(rule, place).is_some_and(|mark| names(row, mark)))
}

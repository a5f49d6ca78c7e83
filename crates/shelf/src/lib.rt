//! Shelves: a fixed number of places, each empty or with a row of codes, whatever keeps them.
#![tactic(auto)]

ghost use Rattle.std.specs.Prelude.{◌≡◌, length, OnErr};
ghost use Rattle.shelf.specs.Meaning.{Shelved, Sound, code_of_place, marks_of_place, mark_of_place};
ghost use Rattle.shelf.specs.Meaning.{can_write, row_written, can_clear, place_emptied, done_or_25};

mod entry;
mod grid;
mod list;
mod table;
#[cfg(test)]
mod tests;

pub use grid::GridShelf;
pub use list::ListShelf;
use parts::{Mark, Refusal, Side};
pub use table::{TableShelf, entries};

/// A shelf of lessons (a store of learned clauses). Places, parts and a row's marks count from 1.
pub trait Shelf {
    // what the shelf means
    ghost meaning: { Self → Shelved };

    // 1 to 120 parts, at least as many places, at most 4,096, and what stands in one is a row
    ghost sound: { (s : Self) → Sound (meaning s) };

    /// How many parts there are.
    fn n(&self) -> usize
        ensures { result ≡ (meaning self.now).n };

    /// How many places there are.
    fn places(&self) -> usize
        ensures { result ≡ length (meaning self.now).rows };

    /// A place's code for a part; nothing where the place is empty.
    /// Refused with 25 where place or part is out of range.
    // Stays a code: it is a byte of a row that was written, and rows come from callers.
    fn code(&self, place: usize, part: usize) -> Result<Option<u8>, Refusal>
        ensures { result ≡ code_of_place (meaning self.now) place part };

    /// How many marks a place's row names; nothing where the place is empty.
    /// Refused with 25 where the place is out of range.
    #[tactic(auto, using(crate::proofs::Walks::code_shown))]
    fn marks(&self, place: usize) -> Result<Option<usize>, Refusal>
        ensures { result ≡ marks_of_place (meaning self.now) place }
    {
        // Stays a loop, as does the one below:
        // a chain over codes that may be missing would carry that beside the count.
        let mut marks = 0;
        for part in 1..=self.n() {
            let Some(code) = self.code(place, part)? else {
                return Ok(None);
            };
            if Side::try_from(u64::from(code)).is_ok() {
                marks += 1;
            }
        }
        Ok(Some(marks))
    }

    /// The k-th mark of a place's row, by rising part; nothing where there is none.
    /// Refused with 25 where the place is out of range.
    #[tactic(auto, using(crate::proofs::Walks::code_shown))]
    fn mark(&self, place: usize, k: usize) -> Result<Option<Mark>, Refusal>
        ensures { result ≡ mark_of_place (meaning self.now) place k }
    {
        let mut left = k;
        for part in 1..=self.n() {
            let Some(code) = self.code(place, part)? else {
                return Ok(None);
            };
            if let Ok(side) = Side::try_from(u64::from(code)) {
                if left == 1 {
                    return Ok(Some(Mark { part, side }));
                }
                left = left.saturating_sub(1);
            }
        }
        Ok(None)
    }

    /// Puts a row at a place, whatever stood there.
    /// Refused with 25 where the place is out of range, or the codes are no row of n parts;
    /// the whole shelf is then as it was, and not only what it means.
    fn write(&mut self, place: usize, row: &[u8]) -> Result<(), Refusal>
        ensures answer { result ≡ done_or_25 (can_write (meaning self.old) place row.now) }
        ensures after { meaning self.new ≡ row_written (meaning self.old) place row.now }
        ensures refused { OnErr result (self.new ≡ self.old) };

    /// Empties a place. Refused with 25 where it is out of range;
    /// the whole shelf is then as it was, and not only what it means.
    fn clear(&mut self, place: usize) -> Result<(), Refusal>
        ensures answer { result ≡ done_or_25 (can_clear (meaning self.old) place) }
        ensures after { meaning self.new ≡ place_emptied (meaning self.old) place }
        ensures refused { OnErr result (self.new ≡ self.old) };
}

//! The second pass of a reading: it fills the tables from a text that the first pass let through.
ghost use Rattle.std.specs.Prelude.{◌≡◌, ℕ, ◌+◌, ◌≤◌, List, ◌++◌, length, ℤ, unsigned_abs};
ghost use Rattle.std.specs.List.{AllByRecursion};
ghost use Rattle.text.specs.Views.{piece_of};
ghost use Rattle.book.specs.Meaning.{Rule};
ghost use Rattle.book.specs.Tables.{mark_table, end_table};
ghost use Rattle.grammar.specs.Reading.{counted};
ghost use Rattle.reading.specs.Fills.{Front, stored, with_front, ReadsOn};

use crate::counted::counted_fields;
use crate::head::Head;
use parts::limits::MOST_PARTS;
use text::{Piece, signed};

// Stores the marks on a rule's line from entry `used` on, and returns the entry after them.
fn fill_rule(line: Piece<'_>, used: usize, marks: &mut [i16]) -> usize
    requires small { AllByRecursion (λ z. unsigned_abs z ≤ MOST_PARTS)
        (stored (counted (piece_of line))) }
    requires room { used + length (stored (counted (piece_of line))) ≤ length marks.old }
    ensures value { result ≡ used + length (stored (counted (piece_of line.entry))) }
    ensures front { (before all more : List ℤ) →
        Front before all (stored (counted (piece_of line.entry)) ++ more) marks.old used →
        Front before all more marks.new result }
{
    // Stays an entry counted by hand: each of three ways out returns it, and the last has none from
    // an enumerate.
    let mut entry = used;
    for field in counted_fields(line) {
        let Some(number) = signed(field.bytes) else {
            return entry;
        };
        if number == 0 {
            return entry;
        }
        marks[entry] = number as i16;
        entry += 1;
    }
    entry
}

// Fills the tables with the rules of a text that reads as a book: their marks, and where each ends.
pub(crate) fn fill(head: Head<'_>, marks: &mut [i16], ends: &mut [u16])
    requires { (rs : List Rule) × ReadsOn head (length marks.old) (length ends.old) rs }
    ensures marks { (rs : List Rule) → ReadsOn head.entry (length marks.old) (length ends.old) rs →
        marks.new ≡ with_front (mark_table rs) marks.old }
    ensures ends { (rs : List Rule) → ReadsOn head.entry (length marks.old) (length ends.old) rs →
        ends.new ≡ with_front (end_table 0 rs) ends.old }
{
    let mut lines = head.rules;
    let mut used = 0;
    // Stays a next beside the for: a zip of entries to write with lines, which have a ghost field,
    // gets no proof.
    for end in ends.iter_mut() {
        let Some(line) = lines.next() else {
            return;
        };
        used = fill_rule(line, used, marks);
        *end = used as u16;
    }
}

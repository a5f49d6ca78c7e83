//! A bench sheet, and its reading.
ghost use Rattle.std.specs.Prelude.{◌≡◌, ◌≤◌, map, IfErr};
ghost use Rattle.text.specs.Views.{piece_of};
ghost use Rattle.sheet.specs.Law.{AcceptsTheSheet, FaultIsFirst};
ghost use Rattle.sheet.specs.Reading.{sheet_of, said_by, line_at};
ghost use Rattle.sheet.specs.Views.{name_of, SaidBy};

use crate::line::Line;
use crate::name::{Name, Unused};
use arrayvec::ArrayVec;
use book::Book;
use parts::limits::{MOST_PARTS, MOST_SHEET_BYTES};
use parts::{Fault, Holds, Mark, Refusal};
use std::marker::Model;
use text::{Lines, Piece};

/// A bench sheet: the parts' names, from part 1 on, and the holds (assumptions).
#[derive(Drop)]
pub struct Sheet<'a> {
    names: ArrayVec<Name<'a>, MOST_PARTS, Unused>,
    holds: Holds,
}

/// Contracts see the names, each as a piece of the sheet's text, and the holds.
impl<'a> Model for Sheet<'a> {
    ghost use Rattle.std.specs.Prelude.{map};
    ghost use Rattle.sheet.specs.Reading.{Said};
    ghost use Rattle.sheet.specs.Views.{name_of};

    ghost Value = { Said };

    ghost view = { λ s. record { names = map name_of s.names.items; holds = s.holds } };
}

impl<'a> Sheet<'a> {
    /// Reads the sheet of a book's parts. Refused with 26 where the text has more than 8,000 bytes,
    /// at the first byte too many, or at the first line that is malformed or not ended; and with 27
    /// at the first line that is out of order, or at the text's end where a part has no name.
    #[tactic(auto, using(std::proofs::lemmas::Bool::Decides::nat_tests, crate::proofs::Accepted::reading_is_the_sheet, crate::proofs::FirstFaults::refusing_is_first), unfolding(crate::specs::Reading::sheet_of))]
    pub fn read<B: Book>(text: &'a [u8], book: &B) -> Result<Sheet<'a>, Fault>
        ensures reply { result ≡ sheet_of (B.meaning book.now).n text.now }
        ensures format { AcceptsTheSheet (B.meaning book.now).n text.now }
        ensures faults { IfErr result (FaultIsFirst (B.meaning book.now).n text.now) }
    {
        if text.len() > MOST_SHEET_BYTES {
            return Err(Fault::new(Refusal::MalformedSheet, MOST_SHEET_BYTES, 0));
        }
        let n = book.n();
        let mut sheet = Sheet {
            names: ArrayVec::new_in(Unused),
            holds: Holds::empty(),
        };
        for line in Lines::new(text) {
            sheet.add(line, text.len(), n)?;
        }
        if sheet.names.len() != n {
            return Err(Fault::new(Refusal::SheetOutOfOrder, text.len(), 0));
        }
        Ok(sheet)
    }

    /// The names of the parts, from part 1 on.
    pub fn names(&self) -> &[Name<'a>]
        ensures { map name_of result.now ≡ self.now.names }
    {
        &self.names
    }

    /// The holds, in the order of their lines.
    pub fn holds(&self) -> &[Mark]
        ensures { result.now ≡ self.now.holds }
    {
        self.holds.marks()
    }

    // Takes what a line of a sheet that ends at `end` says after what was said before.
    fn add(&mut self, line: Piece<'a>, end: usize, n: usize) -> Result<(), Fault>
        requires { n ≤ MOST_PARTS }
        ensures { SaidBy (said_by n line.entry.at self.old (line_at end (piece_of line.entry)))
            result self.new }
    {
        let at = line.at;
        if line.end() >= end {
            return Err(Fault::new(Refusal::MalformedSheet, at, 0));
        }
        match Line::of(line).ok_or(Fault::new(Refusal::MalformedSheet, at, 0))? {
            Line::Part(part, name)
                if part == self.names.len() + 1 && part <= n && self.holds.marks().is_empty() =>
                self.names.push(name),
            Line::Hold(mark) if mark.part <= n && self.holds.add(mark) => {}
            _ => return Err(Fault::new(Refusal::SheetOutOfOrder, at, 0)),
        }
        Ok(())
    }
}

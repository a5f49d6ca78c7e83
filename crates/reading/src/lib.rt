//! Reads a book's text into two tables: a first pass judges the text, a second fills the tables.
#![tactic(auto)]

ghost use Rattle.std.specs.Prelude.{◌≡◌, length, IfOk, IfErr};
ghost use Rattle.book.specs.Tables.{mark_table, end_table};
ghost use Rattle.grammar.specs.Law.{AcceptsTheFormat, FaultIsFirst};
ghost use Rattle.grammar.specs.Reading.{read_of};
ghost use Rattle.reading.specs.Fills.{with_front};
ghost use Rattle.reading.specs.Reads.{size_or_fault, rules_in, HasReadBook};

mod checking;
mod counted;
mod filling;
mod head;
mod loading;

use filling::fill;
use grammar::Size;
use head::Head;
pub use loading::{LoadError, RefusedText, load, load_over, tables};
use parts::limits::MOST_TEXT_BYTES;
use parts::{Fault, Refusal};

/// Reads the text of a book: its marks into one table, where each rule's marks end into the other.
/// It returns the book's size. A text that is no book, or for which the tables have no room, is
/// refused at the first byte where a refusal (1 to 8) applies, and leaves both tables as they were;
/// entries past those that are filled stay as they were too.
#[tactic(auto, using(std::proofs::lemmas::Result::err_from_is_err_and, grammar::proofs::Accepted::reading_is_the_format, grammar::proofs::FirstFaults::refusing_is_first, crate::proofs::ReadLaws::too_long, crate::proofs::ReadLaws::by_lines, crate::proofs::ReadLaws::rules_refused, crate::proofs::ReadLaws::rules_read))]
pub fn read(text: &[u8], marks: &mut [i16], ends: &mut [u16]) -> Result<Size, Fault>
    ensures reply { result ≡ size_or_fault (read_of (length marks.old) (length ends.old) text.now) }
    ensures marks { marks.new ≡ with_front
        (mark_table (rules_in (read_of (length marks.old) (length ends.old) text.now))) marks.old }
    ensures ends { ends.new ≡ with_front
        (end_table 0 (rules_in (read_of (length marks.old) (length ends.old) text.now))) ends.old }
    ensures format { AcceptsTheFormat (length marks.old) (length ends.old) text.now }
    ensures faults { IfErr result (FaultIsFirst (length marks.old) (length ends.old) text.now) }
    ensures has_book { IfOk result
        (HasReadBook (read_of (length marks.old) (length ends.old) text.now) marks.new ends.new) }
{
    if text.len() > MOST_TEXT_BYTES {
        return Err(Fault::new(Refusal::TextTooLong, MOST_TEXT_BYTES, 0));
    }
    let head = Head::read(text)?;
    head.check_rules(marks.len(), ends.len())?;
    fill(head, marks, ends);
    Ok(head.size)
}

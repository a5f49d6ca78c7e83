//! Writing any book as a text.
#![tactic(auto)]

ghost use Rattle.std.specs.Prelude.{◌≡◌, length, take, IfOk};
ghost use Rattle.book.specs.Meaning.{count_marks};
ghost use Rattle.grammar.specs.Law.{ReadsBack};
ghost use Rattle.grammar.specs.Writing.{written_of};
ghost use Rattle.writing.specs.Writes.{few_marks, length_or_refusal, with_text};

use book::Book;
use parts::Refusal;
use parts::limits::{MOST_TEXT_MARKS, MOST_TEXT_RULES};
use put::{Page, put_book};

mod put;

/// Writes a book's text into the front of the buffer, and returns its length.
/// Refused with 9 where the book has more rules, marks or bytes than a text may have, or the text
/// is longer than the buffer, which then stays as it was.
#[tactic(auto, using(std::proofs::lemmas::Bool::Decides::nat_tests), unfolding(grammar::specs::Writing::written_of))]
pub fn write<B: Book>(book: &B, buffer: &mut [u8]) -> Result<usize, Refusal>
    ensures reply { result ≡ length_or_refusal
        (written_of (length buffer.old) (B.Book.meaning book.now)) }
    ensures back { IfOk result
        (λ len. ReadsBack (B.Book.meaning book.now) (take len buffer.new)) }
    ensures buffer { buffer.new ≡ with_text
        (written_of (length buffer.old) (B.Book.meaning book.now)) buffer.old }
{
    if book.rules() > MOST_TEXT_RULES {
        return Err(Refusal::NotWritable);
    }
    let Some(_) = count_marks(book) else {
        return Err(Refusal::NotWritable);
    };
    let mut page = Page::new();
    let Ok(()) = put_book(&mut page, book) else {
        return Err(Refusal::NotWritable);
    };
    let text = page.as_str().as_bytes();
    if text.len() > buffer.len() {
        return Err(Refusal::NotWritable);
    }
    buffer[..text.len()].copy_from_slice(text);
    Ok(text.len())
}

/// How many marks the rules have together; nothing where they are more than a text may have.
#[tactic(auto, using(std::proofs::lemmas::List::at_drop_all, std::proofs::lemmas::Bool::Decides::nat_tests, crate::proofs::Asked::count_from, std::proofs::lemmas::Grind::common_steps))]
pub fn count_marks<B: Book>(book: &B) -> Option<usize>
    ensures { result ≡ few_marks (count_marks (B.Book.meaning book.now).rules) }
{
    // Stays a for: a try_fold would carry the same number through a closure that is this body.
    let mut left = MOST_TEXT_MARKS;
    for before in 0..book.rules() {
        let marks = book.marks(before + 1).unwrap_or(0);
        left = left.checked_sub(marks)?;
    }
    Some(MOST_TEXT_MARKS - left)
}

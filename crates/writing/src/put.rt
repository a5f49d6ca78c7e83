//! What is put on a page of a book's text, piece by piece; a piece that finds no room is an error.
ghost use Rattle.text.specs.Page.{Puts};
ghost use Rattle.grammar.specs.Writing.{rule_line, head_line, text_of};
ghost use Rattle.writing.specs.Put.{spaced_mark, marks_text, rule_at};

use arrayvec::ArrayString;
use book::Book;
use parts::limits::MOST_TEXT_BYTES;
use parts::{Mark, Side};
use std::fmt::{self, Write};
use text::put_number;

// A page that takes the text of a book.
pub(crate) type Page = ArrayString<MOST_TEXT_BYTES>;

// The mark's part, with a minus before it for out, and a space after it.
// Stays without write!: a failure has to mean that there is no room, which write! does not promise.
fn put_mark(page: &mut Page, mark: Mark) -> fmt::Result
    ensures { Puts MOST_TEXT_BYTES (spaced_mark mark) page.old.bytes page.new.bytes result }
{
    if let Side::Out = mark.side {
        page.write_str("-")?;
    }
    put_number(page, mark.part)?;
    page.write_str(" ")
}

// Each mark of a rule.
// Stays page and book side by side: a struct that lends both would be made for each of three calls,
// and is no plainer.
fn put_marks<B: Book>(page: &mut Page, book: &B, rule: usize) -> fmt::Result
    ensures { Puts MOST_TEXT_BYTES
        (marks_text (rule_at (B.Book.meaning book.now).rules rule))
        page.old.bytes page.new.bytes result }
{
    for before in 0..book.marks(rule).unwrap_or(0) {
        if let Some(mark) = book.mark(rule, before + 1) {
            put_mark(page, mark)?;
        }
    }
    Ok(())
}

// The line of a rule: its marks, then a 0.
fn put_rule<B: Book>(page: &mut Page, book: &B, rule: usize) -> fmt::Result
    ensures { Puts MOST_TEXT_BYTES
        (rule_line (rule_at (B.Book.meaning book.now).rules rule))
        page.old.bytes page.new.bytes result }
{
    put_marks(page, book, rule)?;
    page.write_str("0\n")
}

// The head: how many parts and rules there are.
fn put_head(page: &mut Page, n: usize, rules: usize) -> fmt::Result
    ensures { Puts MOST_TEXT_BYTES (head_line n rules) page.old.bytes page.new.bytes result }
{
    page.write_str("p cnf ")?;
    put_number(page, n)?;
    page.write_str(" ")?;
    put_number(page, rules)?;
    page.write_str("\n")
}

// The head, and the line of each rule.
pub(crate) fn put_book<B: Book>(page: &mut Page, book: &B) -> fmt::Result
    ensures { Puts MOST_TEXT_BYTES
        (text_of (B.Book.meaning book.now)) page.old.bytes page.new.bytes result }
{
    put_head(page, book.n(), book.rules())?;
    for before in 0..book.rules() {
        put_rule(page, book, before + 1)?;
    }
    Ok(())
}

//! The lines of a book's text that count: those with a field, but for comments.
ghost use Rattle.std.specs.Prelude.{◌≡◌, length, filter};
ghost use Rattle.std.specs.Iterator.{YieldsFirstBy, item_count};
ghost use Rattle.text.specs.Pieces.{lines};
ghost use Rattle.text.specs.Views.{piece_of, fields_left};
ghost use Rattle.grammar.specs.Reading.{counted};

use text::{Fields, Lines, Piece};

// The fields of a line that count: a line that begins with c is a comment, and has none.
pub(crate) fn counted_fields(line: Piece<'_>) -> Fields<'_>
    ensures { fields_left result ≡ counted (piece_of line.entry) }
{
    match line.bytes {
        [b'c', ..] => Fields::new(Piece {
            at: line.at,
            bytes: b"",
        }),
        _ => line.fields(),
    }
}

// The lines that count of those that are left of a text.
#[derive(Clone, Copy)]
pub(crate) struct CountedLines<'a> {
    lines: Lines<'a>,
}

impl<'a> CountedLines<'a> {
    ghost use Rattle.reading.specs.Counted.{counts, lines_left, text_end};

    // The lines of a text that count.
    pub(crate) fn new(text: &'a [u8]) -> CountedLines<'a>
        ensures lines { lines_left result ≡ filter counts (lines 0 text.now) }
        ensures end { text_end result ≡ length text.now }
    {
        CountedLines {
            lines: Lines::new(text),
        }
    }

    // Where the text ends.
    pub(crate) fn end(&self) -> usize
        ensures { result ≡ text_end self.now }
    {
        self.lines.end()
    }
}

impl<'a> Iterator for CountedLines<'a> {
    type Item = Piece<'a>;

    ghost use Rattle.reading.specs.Counted.{lines_left, text_end};

    ghost next_gives = { λ s r t.
        YieldsFirstBy piece_of lines_left s r t × (text_end t ≡ text_end s) };

    ghost remaining = { item_count lines_left };

    fn next(&mut self) -> Option<Piece<'a>> {
        while let Some(line) = self.lines.next() {
            if counted_fields(line).next().is_some() {
                return Some(line);
            }
        }
        None
    }
}

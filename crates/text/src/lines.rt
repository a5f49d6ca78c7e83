//! The lines of a text.
ghost use Rattle.std.specs.Prelude.{◌≡◌, ◌+◌, ◌^◌, ◌<◌, length};
ghost use Rattle.std.specs.Iterator.{YieldsFirstBy, item_count};
ghost use Rattle.text.specs.Pieces.{lines};

use crate::piece::Piece;

/// The lines that are left of a text. One line feed ends a line and is no part of it; the last line
/// may lack it.
#[derive(Clone, Copy, Debug)]
pub struct Lines<'a> {
    // Where the next line starts, and the text from there on.
    at: usize,
    rest: &'a [u8],
    ghost short: { at + length rest.now < 2 ^ 63 },
}

impl<'a> Lines<'a> {
    ghost use Rattle.text.specs.Views.{lines_left, text_end};

    /// The lines of a text.
    pub fn new(text: &'a [u8]) -> Lines<'a>
        ensures lines { lines_left result ≡ lines 0 text.now }
        ensures end { text_end result ≡ length text.now }
    {
        Lines { at: 0, rest: text }
    }

    /// Where the text ends: a line that ends before it is ended by a line feed.
    pub fn end(&self) -> usize
        ensures { result ≡ text_end self.now }
    {
        self.at + self.rest.len()
    }
}

/// The lines come one by one, and the text's end stays.
impl<'a> Iterator for Lines<'a> {
    type Item = Piece<'a>;

    ghost use Rattle.text.specs.Views.{piece_of, lines_left, text_end};

    ghost next_gives = { λ s r t.
        YieldsFirstBy piece_of lines_left s r t × (text_end t ≡ text_end s) };

    ghost remaining = { item_count lines_left };

    fn next(&mut self) -> Option<Piece<'a>> {
        if self.rest.is_empty() {
            return None;
        }
        let len = self.rest.iter().take_while(|byte| **byte != b'\n').count();
        let (bytes, after) = self.rest.split_at(len);
        let rest = match after {
            [_feed, rest @ ..] => rest,
            [] => after,
        };
        let line = Piece { at: self.at, bytes };
        self.at += self.rest.len() - rest.len();
        self.rest = rest;
        Some(line)
    }
}

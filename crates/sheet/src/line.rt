//! One line of a sheet.
ghost use Rattle.std.specs.Prelude.{◌≡◌};
ghost use Rattle.std.specs.Option.{option_map};
ghost use Rattle.sheet.specs.Reading.{line_of, side_of_word};

use crate::name::Name;
use parts::{Mark, Side};
use text::{Piece, cut, number};

// What a line says: a part's number and its name, or a hold.
#[derive(Clone, Copy)]
pub(crate) enum Line<'a> {
    Part(usize, Name<'a>),
    Hold(Mark),
}

impl<'a> Line<'a> {
    ghost use Rattle.sheet.specs.Views.{line_is};

    // What the line says; nothing where it is malformed.
    pub(crate) fn of(line: Piece<'a>) -> Option<Line<'a>>
        ensures { option_map line_is result ≡ line_of line.entry.at line.entry.bytes.now }
    {
        let (word, rest) = cut(line.bytes, b'\t')?;
        let (digits, value) = cut(rest, b'\t')?;
        let part = number(digits);
        match word {
            b"part" => {
                let at = line.at + (line.bytes.len() - value.len());
                Some(Line::Part(part?, Name::new(at, value)?))
            }
            b"hold" => Some(Line::Hold(Mark {
                part: part?,
                side: side_of(value)?,
            })),
            _ => None,
        }
    }
}

// The side that a word says.
fn side_of(word: &[u8]) -> Option<Side>
    ensures { result ≡ side_of_word word.now }
{
    match word {
        b"in" => Some(Side::In),
        b"out" => Some(Side::Out),
        _ => None,
    }
}

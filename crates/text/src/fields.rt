//! The fields of a line.
ghost use Rattle.std.specs.Prelude.{◌≡◌, ◌+◌, ◌^◌, ◌<◌, true, not, length};
ghost use Rattle.std.specs.Iterator.{YieldsFirstBy, item_count};
ghost use Rattle.text.specs.Pieces.{blank, goes_on, fields};

use crate::piece::Piece;

/// The fields that are left of a line: runs of bytes with spaces and tabs between them, each with
/// its place in the text.
#[derive(Clone, Copy, Debug)]
pub struct Fields<'a> {
    // Where the next field starts, and the line from there on.
    at: usize,
    rest: &'a [u8],
    ghost short: { at + length rest.now < 2 ^ 63 },
    ghost begun: { 0 < length rest.now → goes_on rest.now ≡ true },
}

// Whether a byte separates fields.
fn is_blank(byte: u8) -> bool
    ensures { result ≡ blank byte }
{
    byte == b' ' || byte == b'\t'
}

impl<'a> Fields<'a> {
    ghost use Rattle.text.specs.Views.{fields_left};

    /// The fields of a line.
    pub fn new(line: Piece<'a>) -> Fields<'a>
        ensures { fields_left result ≡ fields line.entry.at line.entry.bytes.now }
    {
        let bytes = line.bytes;
        let blanks = bytes.iter().take_while(|byte| is_blank(**byte)).count();
        Fields {
            at: line.at + blanks,
            rest: &bytes[blanks..],
        }
    }
}

impl<'a> Iterator for Fields<'a> {
    type Item = Piece<'a>;

    ghost use Rattle.text.specs.Views.{piece_of, fields_left};

    ghost next_gives = { YieldsFirstBy piece_of fields_left };

    ghost remaining = { item_count fields_left };

    fn next(&mut self) -> Option<Piece<'a>> {
        if self.rest.is_empty() {
            return None;
        }
        let len = self
            .rest
            .iter()
            .take_while(|byte| !is_blank(**byte))
            .count();
        let (bytes, rest) = self.rest.split_at(len);
        let field = Piece { at: self.at, bytes };
        *self = Fields::new(Piece {
            at: self.at + len,
            bytes: rest,
        });
        Some(field)
    }
}

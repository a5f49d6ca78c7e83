//! A piece of a text: a line, or a field.
ghost use Rattle.std.specs.Prelude.{◌≡◌, ◌+◌, ◌^◌, ◌<◌, length};
ghost use Rattle.text.specs.Pieces.{fields};

use crate::fields::Fields;

/// A piece of a text: its first byte, counted from 0 in the text, and its bytes.
#[derive(Clone, Copy, Debug)]
pub struct Piece<'a> {
    pub at: usize,
    pub bytes: &'a [u8],
    ghost short: { at + length bytes.now < 2 ^ 63 },
}

impl<'a> Piece<'a> {
    ghost use Rattle.text.specs.Views.{fields_left};

    /// Where the piece ends: the byte after its last one.
    pub fn end(&self) -> usize
        ensures { result ≡ self.now.at + length self.now.bytes.now }
    {
        self.at + self.bytes.len()
    }

    /// The fields of a line, each with its place in the text.
    pub fn fields(self) -> Fields<'a>
        ensures { fields_left result ≡ fields self.entry.at self.entry.bytes.now }
    {
        Fields::new(self)
    }
}

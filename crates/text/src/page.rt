//! A page that a text is put on, piece by piece; a piece that finds no room is an error.
ghost use Rattle.std.specs.Prelude.{◌≡◌, decimal};
ghost use Rattle.text.specs.Page.{Puts};

use arrayvec::ArrayString;
use itoa::Buffer;
use std::fmt::{self, Write};

/// Puts a number's decimal digits on the page, or nothing where they find no room.
// Stays without write!: a failure has to mean that there is no room, which write! does not promise.
pub fn put_number<const N: usize>(page: &mut ArrayString<N>, number: usize) -> fmt::Result
    ensures { Puts N (decimal number) page.old.bytes page.new.bytes result }
{
    let mut buffer = Buffer::new();
    page.write_str(buffer.format(number))
}

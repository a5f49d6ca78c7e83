//! The page that a repair is printed on, which has room for any.
ghost use Rattle.std.specs.Prelude.{◌≡◌, ◌+◌, ◌++◌, ◌≤◌, decimal};
ghost use Rattle.arrayvec.specs.ArrayString.{array_string_len};
ghost use Rattle.repair.specs.declared.page.TheConstants.{MOST_DIGITS, PAGE_BYTES};

use arrayvec::ArrayString;
use itoa::Buffer;
use parts::limits::{MOST_NAME_BYTES, MOST_PARTS};

// The most digits of a number.
pub(crate) const MOST_DIGITS: usize = 20;

// The most bytes of a part's line: a word of 4, a number, a side of 3, a name, three tabs, and a line feed.
pub(crate) const LINE_BYTES: usize = MOST_DIGITS + MOST_NAME_BYTES + 11;

// The most bytes of what is printed before the parts, or of a refusal: 15 beside three numbers.
pub(crate) const FRONT_BYTES: usize = 3 * MOST_DIGITS + 15;

// The most bytes of all.
pub(crate) const PAGE_BYTES: usize = FRONT_BYTES + LINE_BYTES * MOST_PARTS;

/// What is printed of a repair.
pub type Page = ArrayString<PAGE_BYTES>;

// Puts a number's decimal digits on the page.
pub(crate) fn put_number(page: &mut Page, number: usize)
    requires { array_string_len page.old + MOST_DIGITS ≤ PAGE_BYTES }
    ensures text { page.new.bytes ≡ page.old.bytes ++ decimal number }
    ensures short { array_string_len page.new ≤ array_string_len page.old + MOST_DIGITS }
{
    let mut buffer = Buffer::new();
    page.push_str(buffer.format(number));
}

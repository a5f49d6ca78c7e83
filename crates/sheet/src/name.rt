//! The name of a part.
ghost use Rattle.std.specs.Prelude.{◌≡◌, IsTrue, if◌then◌else◌};
ghost use Rattle.std.specs.Option.{option_map};
ghost use Rattle.sheet.specs.Reading.{is_name, is_name_byte};

use parts::limits::MOST_NAME_BYTES;
use std::default::MadeWith;
use std::str::from_utf8;

/// A part's name: where it stands in the sheet's text, and its text there, which is 1 to 24 capital
/// letters, digits and hyphens.
#[derive(Clone, Copy, Debug)]
pub struct Name<'a> {
    pub at: usize,
    pub text: &'a str,
    ghost valid: { IsTrue (is_name text.now) },
}

impl<'a> Name<'a> {
    ghost use Rattle.sheet.specs.Views.{name_of};

    // The bytes that start at `at` as a name, where they are one.
    pub(crate) fn new(at: usize, bytes: &'a [u8]) -> Option<Name<'a>>
        ensures { option_map name_of result ≡ (if is_name bytes.now
            then Some (record { at = at; bytes = bytes.now }) else None) }
    {
        if !is_name(bytes) {
            return None;
        }
        let Ok(text) = from_utf8(bytes) else {
            unreachable();
        };
        Some(Name { at, text })
    }
}

// What makes the names that fill the places of a list that are not used yet.
#[derive(Clone, Copy)]
pub(crate) struct Unused;

// Stays in place of a default, which anyone could ask for.
impl<'a> MadeWith<Unused> for Name<'a> {
    fn made_with(_unused: Unused) -> Name<'a> {
        Name { at: 0, text: "-" }
    }
}

// Whether bytes are a name: 1 to 24 capital letters, digits and hyphens.
fn is_name(bytes: &[u8]) -> bool
    ensures { result ≡ is_name bytes.now }
{
    (1..=MOST_NAME_BYTES).contains(&bytes.len()) && bytes.iter().all(|byte| is_name_byte(*byte))
}

// Whether a byte may stand in a name.
fn is_name_byte(byte: u8) -> bool
    ensures { result ≡ is_name_byte byte }
{
    byte.is_ascii_uppercase() || byte.is_ascii_digit() || byte == b'-'
}

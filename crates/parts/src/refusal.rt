//! Every refusal of the bench.
ghost use Rattle.std.specs.Prelude.{◌≡◌, Some};
ghost use Rattle.parts.specs.Numbers.{number_of, refusal_text};

use std::error::Error;
use std::fmt;

/// Why a call is refused. Where several apply, the first of this list is told, unless a call's own order says otherwise.
#[derive(Clone, Copy, Debug, PartialEq, Eq)]
pub enum Refusal {
    // A book's text.
    TextTooLong = 1,
    NoHead = 2,
    SizeOutOfRange = 3,
    MalformedRule = 4,
    PartAboveN = 5,
    PartNamedTwice = 6,
    TableFull = 7,
    RuleCount = 8,
    // Books.
    NotWritable = 9,
    NotABook = 10,
    JoinPartsDiffer = 11,
    JoinTooManyRules = 12,
    // Shelves and pickers.
    NotAShelf = 13,
    NotAPicker = 14,
    // A session.
    OpenPartsDiffer = 15,
    ForgettingOutOfRange = 16,
    PartOutOfRange = 17,
    NoSide = 18,
    AlreadyHeld = 19,
    NotHeld = 20,
    BudgetOutOfRange = 21,
    StepsOutOfRange = 22,
    RowLength = 23,
    NoSuchVerdict = 24,
    ShelfOutOfRange = 25,
    // A bench sheet.
    MalformedSheet = 26,
    SheetOutOfOrder = 27,
}

/// The refusal's number, as it is printed.
impl From<Refusal> for u8 {
    ghost from_gives = { λ refusal number. number ≡ number_of refusal };

    fn from(refusal: Refusal) -> u8 {
        refusal as u8
    }
}

impl fmt::Display for Refusal {
    ghost output = { λ refusal. Some (refusal_text refusal) };

    fn fmt<W: fmt::Write>(&self, f: &mut fmt::Formatter<W>) -> fmt::Result {
        write!(f, "{}", u8::from(*self))
    }
}

impl Error for Refusal {}

/// Why a call was refused, and what it was given, as it was.
#[derive(Drop)]
pub struct Refused<T> {
    pub refusal: Refusal,
    pub back: T,
}

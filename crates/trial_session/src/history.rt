// The history of a session: what it was opened with, each call with its reply, and the lessons at the end.
use book::Tables;
use parts::{Mark, Refusal};
use search::{Forgetting, Report};

#[derive(Drop)]
pub struct History {
    pub name: String,
    pub opening: Opening,
    pub calls: Vec<Exchange>,
    // what stands at each place of the shelf
    pub lessons: Vec<Lesson>,
}

// What a session is opened with.
#[derive(Drop)]
pub struct Opening {
    pub parts: usize,
    pub places: usize,
    pub forget: Forgetting,
    // the list of the ranked picker; where there is none, the picker is that of the lowest open part
    pub ranking: Option<Vec<Mark>>,
    // the book
    pub tables: Tables,
}

// The row that a lesson's marks name; nothing at an empty place.
pub type Lesson = Option<Vec<u8>>;

// A call, and the reply that is expected.
#[derive(Drop)]
pub struct Exchange {
    pub call: Call,
    pub reply: Reply,
}

// A call of a session.
// Stays a code in a hold: histories also make holds whose code is no side's, to be refused.
#[derive(Clone, Copy)]
pub enum Call {
    Hold { part: usize, code: u64 },
    Release { part: usize },
    Run { budget: usize },
    Settled { part: usize },
    Code { place: usize, part: usize },
    Choice,
    Named,
}

// What a call replies.
pub type Reply = Result<Answer, Unanswered>;

// What an accepted call answers.
#[derive(Drop, Debug, PartialEq)]
pub enum Answer {
    // a hold or a release
    Done,
    Ran(Report),
    // one code, or a row of them
    Codes(Vec<u8>),
    // no code, at an empty place
    // Stays beside Codes: a row of no codes and an empty place are told by two words, and an Option in Codes would be taken apart at each use.
    Empty,
}

// How a call is refused.
// Stays a number: what is expected may be none of the refusals.
#[derive(Clone, Copy, Debug, PartialEq)]
pub enum Unanswered {
    Refused(u8),
    // and yet the row was changed
    Spoiled(u8),
}

impl From<Refusal> for Unanswered {
    fn from(refusal: Refusal) -> Unanswered {
        Unanswered::Refused(u8::from(refusal))
    }
}

// What a session says of itself: the verdict that stands, the steps and the turns.
pub type Counts = (Option<search::Answer>, usize, usize);

// What stands after an opening, and after each accepted hold or release.
pub const START: Counts = (None, 0, 0);

// Comparing what a session replies with what is expected.
use crate::history::{Answer, Counts, History, Lesson, Reply, Unanswered};
use parts::Refusal;
use std::io;
use std::ops::AddAssign;

// How many calls were compared, how many places, how many of these with a lesson, and how many replies disagree.
#[derive(Clone, Copy, Default)]
pub struct Tally {
    pub calls: usize,
    pub places: usize,
    pub lessons: usize,
    pub wrong: usize,
}

impl AddAssign for Tally {
    fn add_assign(&mut self, more: Tally) {
        self.calls = self.calls.saturating_add(more.calls);
        self.places = self.places.saturating_add(more.places);
        self.lessons = self.lessons.saturating_add(more.lessons);
        self.wrong = self.wrong.saturating_add(more.wrong);
    }
}

impl Tally {
    // What comparing each of these lessons counts.
    pub fn of_lessons(lessons: &[Lesson]) -> Tally {
        Tally {
            places: lessons.len(),
            lessons: lessons.iter().filter(|lesson| lesson.is_some()).count(),
            ..Tally::default()
        }
    }
}

// A reply as it is printed.
#[derive(Clone, Copy, Debug)]
pub enum Shown<'a> {
    Done,
    Refused(u8),
    // and yet the row was changed
    Spoiled(u8),
    Ran(Standing),
    Codes(&'a [u8]),
    // an empty place
    Empty,
}

// Verdict, or "spent" while none stands, steps and turns, as they are printed.
#[derive(Clone, Copy, Debug)]
pub struct Standing {
    pub verdict: search::Answer,
    pub steps: usize,
    pub turns: usize,
}

// What is compared, and how it is printed.
pub trait Compared: PartialEq {
    fn shown(&self) -> Shown<'_>;
}

impl Compared for Reply {
    fn shown(&self) -> Shown<'_> {
        match self {
            Ok(Answer::Done) => Shown::Done,
            Ok(Answer::Ran(report)) => Shown::Ran(Standing {
                verdict: report.answer,
                steps: report.steps,
                turns: report.turns,
            }),
            Ok(Answer::Codes(codes)) => Shown::Codes(codes),
            Ok(Answer::Empty) => Shown::Empty,
            Err(Unanswered::Refused(number)) => Shown::Refused(*number),
            Err(Unanswered::Spoiled(number)) => Shown::Spoiled(*number),
        }
    }
}

impl Compared for Counts {
    fn shown(&self) -> Shown<'_> {
        Shown::Ran(Standing {
            verdict: self.0.unwrap_or(search::Answer::Spent),
            steps: self.1,
            turns: self.2,
        })
    }
}

// What is found at a place.
impl Compared for Result<&Lesson, &Refusal> {
    fn shown(&self) -> Shown<'_> {
        match self {
            Ok(Some(row)) => Shown::Codes(row),
            Ok(None) => Shown::Empty,
            Err(refusal) => Shown::Refused(u8::from(**refusal)),
        }
    }
}

// A history, the make of shelf that it is replayed on, and how far they agree.
#[derive(Clone, Copy)]
pub struct Trial<'a> {
    pub rt: &'a HostRuntime,
    pub history: &'a History,
    pub make: &'a str,
    pub tally: Tally,
}

impl<'a> Trial<'a> {
    // A trial that has compared nothing yet.
    pub fn new(rt: &'a HostRuntime, history: &'a History, make: &'a str) -> Trial<'a> {
        Trial {
            rt,
            history,
            make,
            tally: Tally::default(),
        }
    }

    // Prints and counts a reply that is not the expected one.
    pub fn compare<T: Compared>(
        &mut self,
        what: &str,
        number: usize,
        expected: &T,
        reply: &T,
    ) -> io::Result<()> {
        if reply == expected {
            return Ok(());
        }
        self.tally.wrong = self.tally.wrong.saturating_add(1);
        let name = self.history.name.as_str();
        let make = self.make;
        let (expected, reply) = (expected.shown(), reply.shown());
        println!(self.rt; "{name} {make} {what} {number}: expected {expected:?}, replied {reply:?}")
    }
}

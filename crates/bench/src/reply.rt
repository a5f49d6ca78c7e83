// Replies, and how each is printed: fields parted by tabs.
use crate::names::Names;
use parts::{Refusal, Side};
use search::{Answer, Report};
use std::fmt;

// What a command is answered.
#[derive(Drop)]
pub enum Reply {
    Done,
    Told(Report),
    // the verdict that stands, steps and turns
    Counts(Option<Answer>, usize, usize),
    // the choice, or the named holds
    Row(Vec<u8>),
    // the codes of a place
    Lesson(Vec<u8>),
    // the code of one part
    Code(u8),
    // an empty place
    Empty,
    Refused(Refusal),
    Unknown,
    Help,
}

// The commands, as help lists them.
static COMMANDS: [&str; 14] = [
    "picker lowest|ranked MARK..",
    "shelf grid|list PLACES",
    "forget keep|size I|relevance M|bounded K|both K M",
    "open",
    "hold PART in|out",
    "release PART",
    "run BUDGET",
    "choice",
    "named",
    "settled PART",
    "code PLACE PART",
    "lesson PLACE",
    "counts",
    "help",
];

// A reply to print, with the names of the parts.
#[derive(Clone, Copy)]
pub struct Shown<'a> {
    pub reply: &'a Reply,
    pub names: Names<'a>,
}

// Fields parted by tabs; no line feed.
impl fmt::Display for Shown<'_> {
    fn fmt<W: fmt::Write>(&self, f: &mut fmt::Formatter<W>) -> fmt::Result {
        match self.reply {
            Reply::Done => write!(f, "ok"),
            Reply::Told(report) => print_report(f, report),
            Reply::Counts(verdict, steps, turns) => { print_counts(f, *verdict, *steps, *turns) }
            Reply::Row(row) if self.names.is_empty() => print_fields(f, row),
            Reply::Row(row) => print_sides(f, self.names, row),
            Reply::Lesson(row) => print_fields(f, row),
            Reply::Code(code) => write!(f, "{code}"),
            Reply::Empty => write!(f, "empty"),
            Reply::Refused(refusal) => write!(f, "refused\t{refusal}"),
            Reply::Unknown => write!(f, "unknown"),
            Reply::Help => print_fields(f, &COMMANDS),
        }
    }
}

// What a search tells, and its steps and turns.
fn print_report<W: fmt::Write>(f: &mut fmt::Formatter<W>, report: &Report) -> fmt::Result {
    write!(f, "{}\t{}\t{}", report.answer, report.steps, report.turns)
}

// The verdict that stands, and the steps and turns; where none stands, "spent" after a run and "working" before the first.
fn print_counts<W: fmt::Write>(
    f: &mut fmt::Formatter<W>,
    verdict: Option<Answer>,
    steps: usize,
    turns: usize,
) -> fmt::Result {
    match verdict {
        None if steps == 0 => write!(f, "working\t{steps}\t{turns}"),
        _ => {
            let answer = verdict.unwrap_or(Answer::Spent);
            print_report(
                f,
                &Report {
                    answer,
                    steps,
                    turns,
                },
            )
        }
    }
}

// A field for each thing.
fn print_fields<W: fmt::Write, T: fmt::Display>(
    f: &mut fmt::Formatter<W>,
    things: &[T],
) -> fmt::Result {
    let mut gap = "";
    for thing in things {
        write!(f, "{gap}{thing}")?;
        gap = "\t";
    }
    Ok(())
}

// A field for each part that is in or out.
fn print_sides<W: fmt::Write>(
    f: &mut fmt::Formatter<W>,
    names: Names<'_>,
    row: &[u8],
) -> fmt::Result {
    let mut gap = "";
    for (place, code) in row.iter().enumerate() {
        let name = names.at(place).ok_or(fmt::Error)?;
        let Ok(side) = Side::try_from(u64::from(*code)) else {
            continue;
        };
        write!(f, "{gap}{name}={side}")?;
        gap = "\t";
    }
    Ok(())
}

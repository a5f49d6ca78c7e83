// The commands, and how a line tells one.
use crate::names::Names;
use crate::setup::{PickerMake, Setting, ShelfMake};
use parts::{Mark, Side};
use search::Forgetting;
use std::alloc::{AllocError, Global};
use std::str;

// A command of a line.
#[derive(Drop)]
pub enum Command {
    // what the next opening uses
    Set(Setting),
    Open,
    Call(Call),
    Help,
}

// A command to the open session.
#[derive(Clone, Copy)]
pub enum Call {
    Hold { part: usize, code: u64 },
    Release { part: usize },
    Run { budget: usize },
    Choice,
    Named,
    Settled { part: usize },
    Code { place: usize, part: usize },
    Lesson { place: usize },
    Counts,
}

impl Command {
    // The command that a line tells; nothing where it tells none.
    pub fn of(heap: Global, names: Names<'_>, line: &[u8]) -> Result<Option<Command>, AllocError> {
        let Ok(line) = str::from_utf8(line) else {
            return Ok(None);
        };
        let words: Vec<&str> = line
            .split([' ', '\t'])
            .filter(|word| !word.is_empty())
            .collect(heap)?;
        Ok(match *words.as_slice() {
            ["open"] => Some(Command::Open),
            ["help"] => Some(Command::Help),
            ["picker", "ranked", ..] => ranking_of(heap, &words)?.map(Command::Set),
            ["picker" | "shelf" | "forget", ..] => setting_of(&words).map(Command::Set),
            _ => call_of(names, &words).map(Command::Call),
        })
    }
}

// A picker by a list of marks.
fn ranking_of(heap: Global, words: &[&str]) -> Result<Option<Setting>, AllocError> {
    let mut list = Vec::new(heap);
    for word in words.iter().skip(2) {
        let Some(mark) = mark_of(word) else {
            return Ok(None);
        };
        list.push(mark)?;
    }
    Ok(Some(Setting::Picker(PickerMake::Ranked(list))))
}

// Any other setting.
fn setting_of(words: &[&str]) -> Option<Setting> {
    Some(match *words {
        ["picker", "lowest"] => Setting::Picker(PickerMake::Lowest),
        ["shelf", "grid", places] => Setting::Shelf(ShelfMake::Grid(number(places)?)),
        ["shelf", "list", places] => Setting::Shelf(ShelfMake::List(number(places)?)),
        ["forget", "keep"] => Setting::Forget(Forgetting::KeepAll),
        ["forget", "size", i] => Setting::Forget(Forgetting::Size(number(i)?)),
        ["forget", "relevance", m] => Setting::Forget(Forgetting::Relevance(number(m)?)),
        ["forget", "bounded", k] => Setting::Forget(Forgetting::Bounded(number(k)?)),
        ["forget", "both", k, m] => Setting::Forget(Forgetting::Both(number(k)?, number(m)?)),
        _ => return None,
    })
}

// A call, its parts by number or by name.
fn call_of(names: Names<'_>, words: &[&str]) -> Option<Call> {
    Some(match *words {
        ["hold", part, side] => Call::Hold {
            part: names.part(part)?,
            code: side_code(side)?,
        },
        ["release", part] => Call::Release {
            part: names.part(part)?,
        },
        ["run", budget] => Call::Run {
            budget: number(budget)?,
        },
        ["choice"] => Call::Choice,
        ["named"] => Call::Named,
        ["settled", part] => Call::Settled {
            part: names.part(part)?,
        },
        ["code", place, part] => Call::Code {
            place: number(place)?,
            part: names.part(part)?,
        },
        ["lesson", place] => Call::Lesson {
            place: number(place)?,
        },
        ["counts"] => Call::Counts,
        _ => return None,
    })
}

// The code of a side that is given by its word, or by a number, which may be no side's.
fn side_code(word: &str) -> Option<u64> {
    let side = match word {
        "in" => Side::In,
        "out" => Side::Out,
        _ => return Some(number(word)? as u64),
    };
    Some(u64::from(u8::from(side)))
}

// A mark: a part's number, with a minus where it is out.
fn mark_of(word: &str) -> Option<Mark> {
    let (side, digits) = match word.strip_prefix('-') {
        Some(digits) => (Side::Out, digits),
        None => (Side::In, word),
    };
    Some(Mark {
        part: number(digits)?,
        side,
    })
}

// The number that digits tell; one that is too big counts as the biggest there is, which no call takes.
pub fn number(word: &str) -> Option<usize> {
    if word.is_empty() || !word.bytes().all(|byte| byte.is_ascii_digit()) {
        return None;
    }
    Some(word.parse::<usize>().unwrap_or(usize::MAX))
}

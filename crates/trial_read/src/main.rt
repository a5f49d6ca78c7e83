//! trial_read: reads each text of cases.tsv, which an independent reader judged, and prints where the two disagree.
#![tactic(auto)]

use anyhow::Context;
use grammar::Size;
use parts::Fault;
use reading::read;
use std::alloc::{AllocError, Global};
use std::fs;

// What every entry of a table holds before a reading: no mark and no end of any case.
const UNTOUCHED_MARK: i16 = 7777;

const UNTOUCHED_END: u16 = 7777;

// A text, the tables' lengths, and what is expected of its reading: the reply, and the rules in the tables, each ended by 0.
#[derive(Drop)]
struct Case {
    text: Vec<u8>,
    marks: usize,
    ends: usize,
    reply: Result<Size, NumberedFault>,
    rules: Vec<i16>,
}

// A fault as it is printed: its refusal by number, its byte from 0, and the rule being read.
// Stays beside the fault of a reading: an independent reader gives a number, which need not be that of a refusal.
#[derive(Clone, Copy, PartialEq, Eq)]
struct NumberedFault {
    number: u8,
    byte: usize,
    rule: usize,
}

impl From<Fault> for NumberedFault {
    fn from(fault: Fault) -> NumberedFault {
        NumberedFault {
            number: u8::from(fault.refusal),
            byte: fault.byte,
            rule: fault.rule,
        }
    }
}

fn main(rt: HostRuntime) -> anyhow::Result<()> {
    run(&rt)
}

fn run(rt: &HostRuntime) -> anyhow::Result<()> {
    let packed = fs::read_to_string(rt, "cases.tsv")?;
    let mut wrong = 0u32;
    for line in packed.lines() {
        let case = parse_case(rt.alloc(), line)?;
        if !agrees(rt.alloc(), &case)? {
            wrong = wrong.saturating_add(1);
            println!(rt; "disagrees\t{line}")?;
        }
    }
    println!(rt; "{} texts, {wrong} disagree", packed.lines().count())?;
    Ok(())
}

// A case as its line has it: name, text, table lengths, expectation.
fn parse_case(heap: Global, line: &str) -> anyhow::Result<Case> {
    let mut fields = line.split('\t');
    let _name = fields.next().context("no name")?;
    let text = unhex(heap, fields.next().context("no text")?)?;
    let marks = number(fields.next(), "no marks")?;
    let ends = number(fields.next(), "no ends")?;
    let verdict = fields.next().context("no verdict")?;
    let first = number(fields.next(), "no first number")?;
    let second = number(fields.next(), "no second number")?;
    let last = fields.next();
    let (reply, rules) = match verdict {
        "ok" => {
            let size = Size {
                n: first,
                m: second,
            };
            (Ok(size), last.unwrap_or(""))
        }
        _ => {
            let fault = NumberedFault {
                number: u8::try_from(first)?,
                byte: second,
                rule: last.unwrap_or("").parse::<usize>()?,
            };
            (Err(fault), "")
        }
    };
    Ok(Case {
        text,
        marks,
        ends,
        reply,
        rules: numbers(heap, rules)?,
    })
}

// The bytes that hexadecimal digits write. A last digit that is alone has to be one, and writes none.
fn unhex(heap: Global, digits: &str) -> anyhow::Result<Vec<u8>> {
    if digits.len() % 2 == 0 {
        return hex::decode(heap, digits).ok().context("no digit");
    }
    let padded = format!(in heap; "{digits}0")?;
    let mut bytes = hex::decode(heap, padded.as_str()).ok().context("no digit")?;
    bytes.truncate(digits.len() / 2);
    Ok(bytes)
}

// The number in a field, which must be there.
// Stays beside the like of trial_session: a library for one line, with a contract and an edit, would be no plainer.
fn number(field: Option<&str>, missing: &str) -> anyhow::Result<usize> {
    Ok(field.context(missing)?.parse::<usize>()?)
}

// The numbers of a line, separated by spaces.
fn numbers(heap: Global, line: &str) -> anyhow::Result<Vec<i16>> {
    line.split_whitespace()
        .map(|word| -> anyhow::Result<i16> { Ok(word.parse::<i16>()?) })
        .try_collect(heap)
}

// Whether the reading's reply, and what it leaves in both tables, are as expected.
fn agrees(heap: Global, case: &Case) -> Result<bool, AllocError> {
    let mut marks = vec![in heap; UNTOUCHED_MARK; case.marks]?;
    let mut ends = vec![in heap; UNTOUCHED_END; case.ends]?;
    let reply = read(&case.text, &mut marks, &mut ends).map_err(NumberedFault::from);
    Ok(reply == case.reply && holds(&marks, &ends, &case.rules))
}

// Whether the tables hold just these rules, each ended by 0, and are untouched after them.
fn holds(marks: &[i16], ends: &[u16], rules: &[i16]) -> bool {
    // Stays a for: an `all` would carry both slices in its closure.
    let mut marks_left = marks;
    let mut ends_left = ends;
    for number in rules {
        let agrees = if *number == 0 {
            // An end too many agrees where no end could be as large, as ever.
            ends_left.split_off_first().copied()
                == u16::try_from(marks.len().saturating_sub(marks_left.len())).ok()
        } else {
            marks_left.split_off_first() == Some(number)
        };
        if !agrees {
            return false;
        }
    }
    marks_left.iter().all(|mark| *mark == UNTOUCHED_MARK)
        && ends_left.iter().all(|end| *end == UNTOUCHED_END)
}

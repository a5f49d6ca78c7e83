// The packed histories: one on a line, its fields parted by tabs.
mod calls;
mod openings;

use crate::history::History;
use crate::packed::calls::{parse_calls, parse_lessons};
use crate::packed::openings::parse_opening;
use anyhow::{Context, anyhow, ensure};
use std::alloc::Global;
use std::fmt::Display;

// A history as its line has it: name, opening, how many calls, the calls, the lessons.
pub fn parse_history(heap: Global, line: &str) -> anyhow::Result<History> {
    let mut fields = line.split('\t');
    let name = String::from_str(heap, fields.next().context("no name")?)?;
    let opening = parse_opening(heap, fields.next().context("no opening")?)?;
    let count = number(fields.next(), "no count of calls")?;
    let calls = parse_calls(heap, fields.next().context("no calls")?)?;
    let lessons = parse_lessons(heap, opening.parts, fields.next().context("no lessons")?)?;
    ensure!(
        fields.next().is_none() && calls.len() == count && lessons.len() == opening.places,
        "not as many fields, calls or lessons as counted"
    );
    Ok(History {
        name,
        opening,
        calls,
        lessons,
    })
}

// The number that a field tells, which must be there.
fn number(field: Option<&str>, missing: &str) -> anyhow::Result<usize> {
    Ok(field.context(missing)?.parse::<usize>()?)
}

// A name and two numbers.
fn name_and_numbers(text: &str) -> anyhow::Result<(&str, usize, usize)> {
    let mut words = text.split_whitespace();
    let name = words.next().context("no name")?;
    let first = number(words.next(), "no first number")?;
    let second = number(words.next(), "no second number")?;
    Ok((name, first, second))
}

// The things that bars part in a text, each as it is parsed.
fn parse_each<T: Drop, F: Fn(&str) -> anyhow::Result<T>>(
    heap: Global,
    what: &str,
    text: &str,
    parse: F,
) -> anyhow::Result<Vec<T>>
    requires { F.IsAlwaysCallable parse }
{
    let mut all = Vec::new(heap);
    for (number, one) in (1..).zip(text.split('|')) {
        all.push(placed(what, number, parse(one))?)?;
    }
    Ok(all)
}

// An error says which line, call or lesson it is about.
pub fn placed<T, W: Display + Drop>(
    what: W,
    number: usize,
    parsed: anyhow::Result<T>,
) -> anyhow::Result<T> {
    parsed.map_err(|error| anyhow!("{what} {number}: {error}"))
}

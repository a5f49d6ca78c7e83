// What a session is opened with.
use crate::history::Opening;
use crate::packed::{name_and_numbers, number};
use anyhow::{Context, bail, ensure};
use book::Tables;
use parts::Mark;
use search::Forgetting;
use std::alloc::Global;

// An opening: parts, places, picker, forgetting rule, how many rules, the rules.
pub fn parse_opening(heap: Global, text: &str) -> anyhow::Result<Opening> {
    let mut fields = text.split(';');
    let parts = number(fields.next(), "no parts")?;
    let places = number(fields.next(), "no places")?;
    let ranking = parse_picker(heap, fields.next().context("no picker")?)?;
    let forget = parse_forgetting(fields.next().context("no forgetting")?)?;
    let rules = number(fields.next(), "no count of rules")?;
    let tables = cut_rules(heap, fields.next().context("no rules")?)?;
    ensure!(tables.ends.len() == rules, "not as many rules as counted");
    Ok(Opening {
        parts,
        places,
        forget,
        ranking,
        tables,
    })
}

// The picker: lowest, or ranked and its marks.
fn parse_picker(heap: Global, text: &str) -> anyhow::Result<Option<Vec<Mark>>> {
    if text == "lowest" {
        return Ok(None);
    }
    let list = text
        .strip_prefix("ranked ")
        .context("no picker")?
        .split_whitespace()
        .map(|word| -> anyhow::Result<Mark> { Ok(Mark::from(word.parse::<i16>()?)) })
        .try_collect(heap)?;
    Ok(Some(list))
}

// The forgetting rule: its name and two numbers.
fn parse_forgetting(text: &str) -> anyhow::Result<Forgetting> {
    let (name, first, second) = name_and_numbers(text)?;
    Ok(match name {
        "keep" => Forgetting::KeepAll,
        "size" => Forgetting::Size(first),
        "relevance" => Forgetting::Relevance(first),
        "bounded" => Forgetting::Bounded(first),
        "both" => Forgetting::Both(first, second),
        _ => bail!("no forgetting rule"),
    })
}

// The tables of rules, each of which ends in 0: the marks, and where each rule's end.
fn cut_rules(heap: Global, text: &str) -> anyhow::Result<Tables> {
    let mut marks = Vec::new(heap);
    let mut ends = Vec::new(heap);
    for word in text.split_whitespace() {
        match word.parse::<i16>()? {
            0 => ends.push(u16::try_from(marks.len())?)?,
            mark => marks.push(mark)?,
        }
    }
    let ended = ends.last().map_or(0, |end| usize::from(*end));
    ensure!(ended == marks.len(), "a rule without its 0");
    Ok(Tables { marks, ends })
}

// trial_session: replays histories on sessions over both shelves, and tells where they disagree. Those of cases.tsv and, with shelves that get full, of full.tsv were told by an independent search, and those
// of hard.tsv, which have many turns and lessons, by tools/tell_histories.
#![tactic(auto)]

mod comparing;
mod history;
mod kept_lessons;
mod makes;
mod packed;
mod replay;

use crate::comparing::Tally;
use crate::makes::replay_on_both;
use crate::packed::{parse_history, placed};
use anyhow::{Context, ensure};
use std::fs;

fn main(rt: HostRuntime) -> anyhow::Result<()> {
    run(&rt)
}

fn run(rt: &HostRuntime) -> anyhow::Result<()> {
    try_file(rt, "cases.tsv")?;
    try_file(rt, "full.tsv")?;
    try_file(rt, "hard.tsv")
}

// Replays every history of a packed file, whose first line counts them.
fn try_file(rt: &HostRuntime, file: &str) -> anyhow::Result<()> {
    let packed = fs::read_to_string(rt, file)?;
    let mut lines = packed.lines();
    let counted = lines
        .next()
        .context("no count of histories")?
        .parse::<usize>()?;
    let mut tally = Tally::default();
    let mut histories = 0usize;
    for line in lines {
        histories = histories.saturating_add(1);
        tally += try_line(rt, histories.saturating_add(1), line)?;
    }
    ensure!(histories == counted, "not as many histories as counted");
    let Tally {
        calls,
        places,
        lessons,
        wrong,
    } = tally;
    println!(rt;
        "{file}: {histories} histories, 2 shelves, {calls} calls, {places} places with {lessons} lessons, {wrong} disagree"
    )?;
    Ok(())
}

// Replays the history of a line; an error names both.
fn try_line(rt: &HostRuntime, number: usize, line: &str) -> anyhow::Result<Tally> {
    let name = line.split('\t').next().unwrap_or(line);
    let what = format_args!("history {name}, line");
    placed(what, number, replay_line(rt, line))
}

fn replay_line(rt: &HostRuntime, line: &str) -> anyhow::Result<Tally> {
    let history = parse_history(rt.alloc(), line)?;
    replay_on_both(rt, &history)
}

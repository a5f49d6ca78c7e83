// trial_solver: searches for choices of many books in sessions of every kind, and judges each verdict by the rules and by a second solver of another kind.
#![tactic(auto)]

mod backtrack;
mod dice;
mod draft;
mod families;
mod generated;
mod judging;
mod searching;
mod tally;

use crate::families::Family;
use crate::tally::Tally;

fn main(rt: HostRuntime) -> anyhow::Result<()> {
    run(&rt)
}

fn run(rt: &HostRuntime) -> anyhow::Result<()> {
    let mut all = Tally::default();
    all += Family::new(rt, "public", 1).public()?;
    all += Family::new(rt, "public, held", 2).held().public()?;
    all += Family::new(rt, "pigeon holes", 3).pigeons()?;
    all += Family::new(rt, "all rules", 4).full()?;
    all += Family::new(rt, "random", 5).random(300, 8..=14)?;
    all += Family::new(rt, "random, held", 6)
        .held()
        .random(300, 8..=14)?;
    all += Family::new(rt, "larger random", 7).random(60, 18..=24)?;
    all += Family::new(rt, "bays", 8).bays(300)?;
    all += Family::new(rt, "bays, held", 9).held().bays(300)?;
    all += Family::new(rt, "one step", 10).of_steps(1).pigeons()?;
    println!(rt; "all: {all}")?;
    Ok(())
}

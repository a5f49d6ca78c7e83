//! trial_fit: searches each bench of cases.tsv, which an independent program answered, and prints where the lines differ.
#![tactic(auto)]

use anyhow::Context;
use repair::{Workspace, fit_text};
use std::alloc::Global;
use std::fs;

// A book, a sheet, and the lines that an independent program printed of them.
#[derive(Drop)]
struct Case {
    book: Vec<u8>,
    sheet: Vec<u8>,
    printed: Vec<u8>,
}

fn main(rt: HostRuntime) -> anyhow::Result<()> {
    run(&rt)
}

fn run(rt: &HostRuntime) -> anyhow::Result<()> {
    let packed = fs::read_to_string(rt, "cases.tsv")?;
    let mut wrong = 0u32;
    for line in packed.lines() {
        let case = parse_case(rt.alloc(), line)?;
        let workspace = Workspace::new(rt.alloc())?;
        let page = fit_text(workspace, Some(&case.book), Some(&case.sheet));
        if page.as_str().as_bytes() != case.printed.as_slice() {
            wrong = wrong.saturating_add(1);
            println!(rt; "disagrees\t{line}")?;
        }
    }
    println!(rt; "{} benches, {wrong} disagree", packed.lines().count())?;
    Ok(())
}

// A case as its line has it: name, book, sheet and printed lines, each in hexadecimal.
fn parse_case(heap: Global, line: &str) -> anyhow::Result<Case> {
    let mut fields = line.split('\t');
    let _name = fields.next().context("no name")?;
    Ok(Case {
        book: hex::decode(heap, fields.next().context("no book")?)?,
        sheet: hex::decode(heap, fields.next().context("no sheet")?)?,
        printed: hex::decode(heap, fields.next().context("nothing printed")?)?,
    })
}

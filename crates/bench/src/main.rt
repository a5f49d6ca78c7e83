// bench: a bench session over the book of book.cnf in the current folder. Each line of standard input is a command, and gets one line.
#![tactic(auto)]

mod answering;
mod command;
mod desk;
mod files;
mod names;
mod opening;
mod reply;
mod setup;

use crate::desk::{Desk, Next};
use crate::files::first_bytes;
use crate::names::Names;
use crate::opening::{Served, open};
use book::TextBook;
use parts::Fault;
use parts::limits::{MOST_SHEET_BYTES, MOST_TEXT_BYTES};
use reading::{LoadError, load};
use sheet::Sheet;
use std::io;

fn main(rt: HostRuntime) -> anyhow::Result<()> {
    bench(&rt)
}

// Loads the book, or tells where it is refused.
fn bench(rt: &HostRuntime) -> anyhow::Result<()> {
    // a file that cannot be read counts as empty, and one byte past the limit is enough to refuse the text
    let text = first_bytes(rt, "book.cnf", MOST_TEXT_BYTES as u64 + 1)?.unwrap_or_else(|| Vec::new(
        rt.alloc(),
    ));
    match load(rt.alloc(), &text) {
        Ok(book) => serve_by_sheet(rt, book),
        Err(LoadError::Faulty(fault)) => Ok(say_fault(rt, fault)?),
        Err(error) => Err(error.into()),
    }
}

// Serves with the names of the sheet; without names where there is no sheet, or it is refused.
fn serve_by_sheet(rt: &HostRuntime, book: TextBook) -> anyhow::Result<()> {
    let Some(text) = first_bytes(rt, "bench.txt", MOST_SHEET_BYTES as u64 + 1)? else {
        return serve(rt, book, Names::of(&[]));
    };
    match Sheet::read(&text, &book) {
        Ok(sheet) => serve(rt, book, Names::of(sheet.names())),
        Err(fault) => {
            say_fault(rt, fault)?;
            serve(rt, book, Names::of(&[]))
        }
    }
}

// Tells where a text is refused.
fn say_fault(rt: &HostRuntime, fault: Fault) -> io::Result<()> {
    println!(rt; "refused\t{fault}")
}

// Serves until the input ends, session after session.
fn serve(rt: &HostRuntime, book: TextBook, names: Names<'_>) -> anyhow::Result<()> {
    let mut desk = Desk::new(rt, &book, names)?;
    let next = desk.serve_closed()?;
    let mut served = Served { book, next };
    for _ in 0..u64::MAX {
        match served.next {
            Next::Open => served = open(&mut desk, served.book)?,
            Next::End => break,
        }
    }
    Ok(())
}

//! fit: reads book.cnf and bench.txt in the current folder, and prints whether the parts can be chosen, and how.
#![tactic(auto)]

use parts::limits::{MOST_SHEET_BYTES, MOST_TEXT_BYTES};
use repair::{Workspace, fit_text};
use std::fs;
use std::io::{self, ErrorKind, Read};

fn main(rt: HostRuntime) -> anyhow::Result<()> {
    fit(&rt)
}

fn fit(rt: &HostRuntime) -> anyhow::Result<()> {
    let workspace = Workspace::new(rt.alloc())?;
    let book = read_file(rt, "book.cnf", MOST_TEXT_BYTES)?;
    let sheet = read_file(rt, "bench.txt", MOST_SHEET_BYTES)?;
    let page = fit_text(workspace, book.as_deref(), sheet.as_deref());
    print!(rt; "{page}")?;
    Ok(())
}

// The bytes of a file, up to one more than there may be; nothing where it cannot be opened or read.
fn read_file(rt: &HostRuntime, name: &str, most: usize) -> io::Result<Option<Vec<u8>>> {
    match read_front(rt, name, (most as u64).saturating_add(1)) {
        Ok(bytes) => Ok(Some(bytes)),
        Err(error) if error.kind() == ErrorKind::OutOfMemory => Err(error),
        Err(_) => Ok(None),
    }
}

// The first bytes of a file.
fn read_front(rt: &HostRuntime, name: &str, limit: u64) -> io::Result<Vec<u8>> {
    let mut bytes = Vec::new(rt.alloc());
    fs::open(rt, name)?.take(limit).read_to_end(&mut bytes)?;
    Ok(bytes)
}

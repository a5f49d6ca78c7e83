//! tidy: reads book.cnf in the current folder and prints the book as it is written here, or where it is refused.
#![tactic(auto)]

use anyhow::{Context, bail};
use book::{Book, TextBook};
use parts::Fault;
use parts::limits::MOST_TEXT_BYTES;
use reading::{LoadError, load};
use std::fs;
use std::io::{self, ErrorKind, Read, Write};
use writing::{count_marks, write};

fn main(rt: HostRuntime) -> anyhow::Result<()> {
    tidy(&rt)
}

fn tidy(rt: &HostRuntime) -> anyhow::Result<()> {
    // a file that cannot be opened or read counts as empty
    let text = read_file(rt, "book.cnf", MOST_TEXT_BYTES)?;
    match load(rt.alloc(), text.as_deref().unwrap_or(b"")) {
        Ok(book) => print_book(rt, &book),
        Err(LoadError::Faulty(fault)) => Ok(println!(rt; "refused\t{fault}")?),
        Err(LoadError::NoMemory) => bail!("out of memory"),
    }
}

// The book's size on a line, and then its text; or that the text is too long to be written.
fn print_book(rt: &HostRuntime, book: &TextBook) -> anyhow::Result<()> {
    let mut buffer = vec![in rt.alloc(); 0u8; MOST_TEXT_BYTES]?;
    let len = match write(book, &mut buffer) {
        Ok(len) => len,
        Err(refusal) => return Ok(println!(rt; "refused\t{}", Fault::new(refusal, 0, 0))?),
    };
    let marks = count_marks(book).context("the book has too many marks to be counted")?;
    println!(rt; "book\t{}\t{}\t{marks}", book.n(), book.rules())?;
    buffer.truncate(len);
    rt.stdout().write_all(&buffer)?;
    Ok(())
}

// The bytes of a file, up to one more than there may be; nothing where it cannot be opened or read.
fn read_file(rt: &HostRuntime, name: &str, most: usize) -> io::Result<Option<Vec<u8>>> {
    match read_front(rt, name, (most as u64).saturating_add(1)) {
        Ok(bytes) => Ok(Some(bytes)),
        Err(error) if error.kind() == ErrorKind::OutOfMemory => Err(error),
        Err(_) => Ok(None),
    }
}

// The first bytes of a file.
fn read_front(rt: &HostRuntime, name: &str, limit: u64) -> io::Result<Vec<u8>> {
    let mut bytes = Vec::new(rt.alloc());
    fs::open(rt, name)?.take(limit).read_to_end(&mut bytes)?;
    Ok(bytes)
}

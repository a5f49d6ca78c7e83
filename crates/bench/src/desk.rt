// The desk: where commands come in and replies go out.
use crate::answering::{Answering, Closed};
use crate::command::Command;
use crate::names::Names;
use crate::reply::{Reply, Shown};
use crate::setup::{Setting, Setup};
use book::Book;
use std::alloc::Global;
use std::io::{self, BufRead, BufReader, Split, StdinLock};

// What ends the serving: another opening, or the end of the input.
#[derive(Clone, Copy)]
pub enum Next {
    Open,
    End,
}

// The input and the output, the names of the parts, and what the next session is opened with.
#[derive(Drop)]
pub struct Desk<'a> {
    rt: &'a HostRuntime,
    lines: Split<BufReader<StdinLock<'a>>>,
    // how many parts the book has
    parts: usize,
    names: Names<'a>,
    pub setup: Setup,
}

impl<'a> Desk<'a> {
    // The desk of a book's bench, with the usual setup.
    pub fn new<B: Book>(rt: &'a HostRuntime, book: &B, names: Names<'a>) -> io::Result<Desk<'a>> {
        let heap = rt.alloc();
        Ok(Desk {
            rt,
            lines: BufReader::new(heap, rt.reader())?.split(heap, b'\n'),
            parts: book.n(),
            names,
            setup: Setup::usual(),
        })
    }

    // Where rows and lists are made.
    pub fn heap(&self) -> Global {
        self.rt.alloc()
    }

    // Replies to each line until the next opening; calls are answered by the session.
    pub fn serve<A: Answering>(&mut self, session: &mut A) -> anyhow::Result<Next> {
        for _ in 0..u64::MAX {
            let Some(line) = self.lines.next() else {
                break;
            };
            let reply = match Command::of(self.heap(), self.names, &line?)? {
                Some(Command::Open) => return Ok(Next::Open),
                Some(Command::Set(setting)) => self.set(setting),
                Some(Command::Call(call)) => session.answer(self.heap(), self.parts, call)?,
                Some(Command::Help) => Reply::Help,
                None => Reply::Unknown,
            };
            self.say(&reply)?;
        }
        Ok(Next::End)
    }

    // The same while no session is open.
    pub fn serve_closed(&mut self) -> anyhow::Result<Next> {
        self.serve(&mut Closed)
    }

    // Takes a setting for the next opening.
    fn set(&mut self, setting: Setting) -> Reply {
        self.setup.set(setting);
        Reply::Done
    }

    // Prints a reply at once.
    pub fn say(&self, reply: &Reply) -> io::Result<()> {
        let names = self.names;
        println!(self.rt; "{}", Shown { reply, names })
    }
}

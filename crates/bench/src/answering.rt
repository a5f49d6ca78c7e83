// What answers the calls: a session, or none.
use crate::command::Call;
use crate::reply::Reply;
use book::Book;
use parts::Refusal;
use picker::Picker;
use session::Session;
use shelf::Shelf;
use std::alloc::{AllocError, Global};

// Whatever the calls are made to, over a book of so many parts.
pub trait Answering {
    // The reply to a call.
    fn answer(&mut self, heap: Global, parts: usize, call: Call) -> Result<Reply, AllocError>;
}

// No session is open.
#[derive(Drop)]
pub struct Closed;

// Every call is unknown.
impl Answering for Closed {
    fn answer(&mut self, _heap: Global, _parts: usize, _call: Call) -> Result<Reply, AllocError> {
        Ok(Reply::Unknown)
    }
}

// Each call is the session's own; a lesson is its codes at a place.
impl<B: Book, P: Picker, S: Shelf> Answering for Session<B, P, S> {
    fn answer(&mut self, heap: Global, parts: usize, call: Call) -> Result<Reply, AllocError> {
        Ok(match call {
            Call::Hold { part, code } => told(self.hold(part, code), |()| Reply::Done),
            Call::Release { part } => told(self.release(part), |()| Reply::Done),
            Call::Run { budget } => told(self.run(budget), Reply::Told),
            Call::Choice => filled(heap, parts, |row| self.choice(row))?,
            Call::Named => filled(heap, parts, |row| self.named(row))?,
            Call::Settled { part } => told(self.settled(part), Reply::Code),
            Call::Code { place, part } => told(self.shelf_code(place, part), code),
            Call::Lesson { place } => lesson(heap, self, parts, place)?,
            Call::Counts => Reply::Counts(self.verdict(), self.steps(), self.turns()),
        })
    }
}

// The reply of what is told, or of its refusal.
fn told<T, F: FnOnce(T) -> Reply>(told: Result<T, Refusal>, reply: F) -> Reply
    requires { F.IsAlwaysCallable reply }
{
    match told {
        Ok(told) => reply(told),
        Err(refusal) => Reply::Refused(refusal),
    }
}

// The code of a place, if it has one.
fn code(code: Option<u8>) -> Reply {
    code.map_or(Reply::Empty, Reply::Code)
}

// The row that a call fills.
fn filled<F: FnOnce(&mut [u8]) -> Result<(), Refusal>>(
    heap: Global,
    parts: usize,
    fill: F,
) -> Result<Reply, AllocError>
    requires { F.IsAlwaysCallable fill }
{
    let mut row = vec![in heap; 0u8; parts]?;
    Ok(match fill(&mut row) {
        Ok(()) => Reply::Row(row),
        Err(refusal) => Reply::Refused(refusal),
    })
}

// The row of a place, code by code.
fn lesson<B: Book, P: Picker, S: Shelf>(
    heap: Global,
    session: &Session<B, P, S>,
    parts: usize,
    place: usize,
) -> Result<Reply, AllocError> {
    let mut row = Vec::new(heap);
    for part in 1..=parts {
        match session.shelf_code(place, part) {
            Ok(Some(code)) => row.push(code)?,
            Ok(None) => return Ok(Reply::Empty),
            Err(refusal) => return Ok(Reply::Refused(refusal)),
        }
    }
    Ok(Reply::Lesson(row))
}

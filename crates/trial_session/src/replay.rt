// Replaying a history on one session.
use crate::comparing::{Tally, Trial};
use crate::history::{Answer, Call, Counts, Reply, START, Unanswered};
use crate::kept_lessons::{compare_codes, compare_marks};
use anyhow::anyhow;
use book::Book;
use parts::Refusal;
use picker::Picker;
use session::Session;
use shelf::Shelf;
use std::alloc::{AllocError, Global};

// What each entry of a row holds before it is filled: no code.
const UNTOUCHED: u8 = 77;

// Opens a session, makes every call of the history, looks at every lesson, closes the session, and looks at the lessons again.
pub fn replay<B: Book + Drop, P: Picker + Drop, S: Shelf + Drop>(
    mut trial: Trial,
    book: B,
    picker: P,
    shelf: S,
) -> anyhow::Result<Tally> {
    let mut session = Session::open(book, picker, shelf, trial.history.opening.forget).map_err(
        |refused| anyhow!("no session was opened: {}", refused.refusal),
    )?;
    replay_calls(&mut trial, &mut session)?;
    compare_codes(
        &mut trial,
        "lesson",
        |place, part| session.shelf_code(place, part),
    )?;
    let (_book, _picker, shelf) = session.close();
    compare_marks(&mut trial, &shelf)?;
    compare_codes(
        &mut trial,
        "lesson after closing",
        |place, part| shelf.code(place, part),
    )?;
    Ok(trial.tally)
}

// Makes every call, and after each asks also for verdict, steps and turns.
fn replay_calls<B: Book, P: Picker, S: Shelf>(
    trial: &mut Trial,
    session: &mut Session<B, P, S>,
) -> anyhow::Result<()> {
    let heap = trial.rt.alloc();
    let history = trial.history;
    let mut counts = START;
    for (number, exchange) in (1..).zip(history.calls.iter()) {
        let reply = make_call(heap, session, history.opening.parts, exchange.call)?;
        trial.compare("call", number, &exchange.reply, &reply)?;
        counts = counts_after(counts, &exchange.reply);
        let found = (session.verdict(), session.steps(), session.turns());
        trial.compare("report after call", number, &counts, &found)?;
    }
    trial.tally.calls = history.calls.len();
    Ok(())
}

// What stands after an expected reply: a refusal or a question changes nothing.
fn counts_after(counts: Counts, reply: &Reply) -> Counts {
    match reply {
        Ok(Answer::Done) => START,
        Ok(Answer::Ran(report)) => (standing(report.answer), report.steps, report.turns),
        _ => counts,
    }
}

// The verdict that stands after a run: none after a spent one.
fn standing(answer: search::Answer) -> Option<search::Answer> {
    Some(answer).filter(|answer| *answer != search::Answer::Spent)
}

// Makes one call, and tells its reply.
fn make_call<B: Book, P: Picker, S: Shelf>(
    heap: Global,
    session: &mut Session<B, P, S>,
    parts: usize,
    call: Call,
) -> Result<Reply, AllocError> {
    match call {
        Call::Hold { part, code } => reply_by(session.hold(part, code), |()| Ok(Answer::Done)),
        Call::Release { part } => reply_by(session.release(part), |()| Ok(Answer::Done)),
        Call::Run { budget } => reply_by(session.run(budget), |report| Ok(Answer::Ran(report))),
        Call::Settled { part } => reply_by(
            session.settled(part),
            |code| codes_of(heap, Some(code)),
        ),
        Call::Code { place, part } => reply_by(
            session.shelf_code(place, part),
            |code| codes_of(heap, code),
        ),
        Call::Choice => reply_by_row(heap, parts, |row| session.choice(row)),
        Call::Named => reply_by_row(heap, parts, |row| session.named(row)),
    }
}

// The reply of a call that changes no row.
fn reply_by<T, F: FnOnce(T) -> Result<Answer, AllocError>>(
    told: Result<T, Refusal>,
    answer: F,
) -> Result<Reply, AllocError>
    requires { F.IsAlwaysCallable answer }
{
    Ok(match told {
        Ok(told) => Ok(answer(told)?),
        Err(refusal) => Err(Unanswered::from(refusal)),
    })
}

// One code as an answer, or none.
fn codes_of(heap: Global, code: Option<u8>) -> Result<Answer, AllocError> {
    match code {
        Some(code) => Ok(Answer::Codes(vec![in heap; code]?)),
        None => Ok(Answer::Empty),
    }
}

// The reply of a call that fills a row; a refusal has to leave the row as it was.
fn reply_by_row<F: FnOnce(&mut [u8]) -> Result<(), Refusal>>(
    heap: Global,
    parts: usize,
    fill: F,
) -> Result<Reply, AllocError>
    requires { F.IsAlwaysCallable fill }
{
    let mut row = vec![in heap; UNTOUCHED; parts]?;
    Ok(match fill(&mut row) {
        Ok(()) => Ok(Answer::Codes(row)),
        Err(refusal) if row.iter().all(|code| *code == UNTOUCHED) => Err(Unanswered::from(refusal)),
        Err(refusal) => Err(Unanswered::Spoiled(u8::from(refusal))),
    })
}

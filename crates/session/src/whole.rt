//! A whole search in one call: opening, holding, running, and the row that the verdict shows.
ghost use Rattle.std.specs.Prelude.{◌≡◌, ◌≤◌, None, Some, Ok, Err, IfOk, length, IsTrue, IsFalse, MatchOption};
ghost use Rattle.std.specs.List.{list_all};
ghost use Rattle.parts.specs.Distinct.{is_part};
ghost use Rattle.parts.specs.declared.refusal.Refusal.{Refusal};
ghost use Rattle.search.specs.Machine.{Bench, working, run};
ghost use Rattle.search.specs.Calls.{answer_of, ok_unless, refuses_budget, report};
ghost use Rattle.session.specs.View.{bench_of, state_of, Kept};
ghost use Rattle.search.specs.Law.{LessonsFollow};
ghost use Rattle.session.specs.Solving.{names_twice, refuses_holds, refuses_solve, solved, solved_row, SolvedTruly};

use crate::budget::check_budget;
use crate::opening::check_opening;
use crate::session::Session;
use book::Book;
use parts::limits::MOST_PARTS;
use parts::{Holds, Mark, Refusal};
use picker::Picker;
use search::{Answer, Forgetting, Report};
use shelf::Shelf;

/// What a whole search answers, or why it was refused, and the three back; after an answer the shelf has its lessons.
#[derive(Drop)]
pub struct Solved<B, P, S> {
    pub reply: Result<Report, Refusal>,
    pub book: B,
    pub picker: P,
    pub shelf: S,
}

/// Opens a session, holds every mark, and runs it once. A choice that fits, or the holds that leave none, fill the row; a spent search leaves it.
/// All is judged first, and a refusal changes nothing: 15 and 16 as an opening, 17 for a hold of no part, 19 for a part held twice,
/// 21 for the budget, 23 for a row that is not n long.
pub fn solve<B: Book, P: Picker, S: Shelf>(
    book: B,
    picker: P,
    shelf: S,
    forget: Forgetting,
    holds: &[Mark],
    budget: usize,
    row: &mut [u8],
) -> Solved<B, P, S>
    ensures refused { let b : Bench = record { book = B.meaning book; forget = forget } in
        (why : Refusal)
        → refuses_solve b (P.meaning picker) (S.meaning shelf) holds.now budget (length row.old)
        ≡ Some why
        → (result.reply ≡ Err why) × (row.new ≡ row.old) × (result.shelf ≡ shelf) }
    ensures exactly { let b : Bench = record { book = B.meaning book; forget = forget } in
        let m = solved b (P.meaning picker) (S.meaning shelf) holds.now budget in
        refuses_solve b (P.meaning picker) (S.meaning shelf) holds.now budget (length row.old)
        ≡ None
        → (result.reply ≡ Ok (report m)) × (row.new ≡ solved_row b.book.n m row.old)
        × (S.meaning result.shelf ≡ m.shelf) }
    ensures truly { IfOk result.reply
        (SolvedTruly (B.meaning book) holds.now budget row.old row.new) }
    ensures lessons { IfOk result.reply
        (λ _. LessonsFollow (record { book = B.meaning book; forget = forget })
        (S.meaning result.shelf).rows) }
    ensures back { (result.book ≡ book) × (result.picker ≡ picker) }
{
    match check_solve(&book, &picker, &shelf, forget, holds, budget, row.len()) {
        Ok(held) => {
            let mut session = Session::open_under(book, picker, shelf, forget, held);
            let report = run_once(&mut session, budget, row);
            let (book, picker, shelf) = session.close();
            Solved {
                reply: Ok(report),
                book,
                picker,
                shelf,
            }
        }
        Err(refusal) => Solved {
            reply: Err(refusal),
            book,
            picker,
            shelf,
        },
    }
}

// The holds, where a whole search is accepted.
#[tactic(auto, using(std::proofs::lemmas::Bool::Decides::nat_tests))]
fn check_solve<B: Book, P: Picker, S: Shelf>(
    book: &B,
    picker: &P,
    shelf: &S,
    forget: Forgetting,
    holds: &[Mark],
    budget: usize,
    len: usize,
) -> Result<Holds, Refusal>
    ensures { let b : Bench = record { book = B.meaning book.now; forget = forget } in
        result
        ≡ ok_unless
        (refuses_solve b (P.meaning picker.now)
        (S.meaning shelf.now) holds.now budget len) holds.now }
{
    check_opening(book, picker, shelf, forget)?;
    let held = check_holds(book.n(), holds)?;
    check_budget(budget)?;
    if len != book.n() {
        return Err(Refusal::RowLength);
    }
    Ok(held)
}

// Runs a fresh session once, and fills the row with what the verdict shows.
#[tactic(auto, using(crate::proofs::Solves::accepted_run, crate::proofs::Laws::run_accepted))]
fn run_once<B: Book, P: Picker, S: Shelf>(
    session: &mut Session<B, P, S>,
    budget: usize,
    row: &mut [u8],
) -> Report
    requires budget { refuses_budget budget None ≡ None }
    requires fresh { ((state_of session.old).steps ≡ 0)
        × ((state_of session.old).verdict ≡ working) }
    requires long { length row.old ≡ (bench_of session.old).book.n }
    ensures answer { result ≡ report (run (bench_of session.old) budget (state_of session.old)) }
    ensures after { state_of session.new
        ≡ run (bench_of session.old) budget (state_of session.old) }
    ensures shows { row.new
        ≡ solved_row (bench_of session.old).book.n (state_of session.new) row.old }
    ensures kept { Kept session.old session.new }
    ensures truly { SolvedTruly (bench_of session.old).book
        (state_of session.old).holds budget row.old row.new result }
{
    let Ok(report) = session.run(budget) else {
        unreachable();
    };
    show_answer(session, report.answer, row);
    report
}

// Fills a row of n with what the answer shows; a spent search shows nothing.
fn show_answer<B: Book, P: Picker, S: Shelf>(
    session: &Session<B, P, S>,
    answer: Answer,
    row: &mut [u8],
)
    requires answer { answer ≡ answer_of (state_of session.now).verdict }
    requires long { length row.old ≡ (bench_of session.now).book.n }
    ensures { row.new ≡ solved_row (bench_of session.now).book.n (state_of session.now) row.old }
{
    // Neither question is refused: the row is n long, and the verdict stands.
    let _ = match answer {
        Answer::Fits => session.choice(row),
        Answer::NoneFits => session.named(row),
        Answer::Spent => Ok(()),
    };
}

// The holds, where each names a part and none is held twice.
fn check_holds(n: usize, holds: &[Mark]) -> Result<Holds, Refusal>
    requires { n ≤ MOST_PARTS }
    ensures { result ≡ ok_unless (refuses_holds n holds.now None) holds.now }
{
    if !are_parts(n, holds) {
        return Err(Refusal::PartOutOfRange);
    }
    match hold_all(n, holds) {
        Some(held) => Ok(held),
        None => Err(Refusal::AlreadyHeld),
    }
}

// Whether each mark names a part from 1 to n.
fn are_parts(n: usize, marks: &[Mark]) -> bool
    ensures { result ≡ list_all (λ m. is_part n m.part) marks.now }
{
    marks.iter().all(|mark| (1..=n).contains(&mark.part))
}

// The holds of these marks; nothing where a part is held twice.
#[tactic(auto, using(std::proofs::lemmas::Bool::Decides::nat_tests, std::proofs::lemmas::Grind::common_steps, crate::proofs::Solves::twice_more, crate::proofs::Solves::held_twice, crate::proofs::Solves::part_within))]
fn hold_all(n: usize, marks: &[Mark]) -> Option<Holds>
    requires few { n ≤ MOST_PARTS }
    requires parts { IsTrue (list_all (λ m. is_part n m.part) marks.now) }
    ensures { MatchOption result (IsTrue (names_twice marks.now))
        (λ held. (held ≡ marks.now) × IsFalse (names_twice marks.now)) }
{
    let mut held = Holds::empty();
    for mark in marks {
        if !held.add(*mark) {
            return None;
        }
    }
    Some(held)
}

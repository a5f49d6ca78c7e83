//! A bench session: opening and closing, hold, release, run, the questions.
ghost use Rattle.std.specs.Prelude.{◌≡◌, length, IfSome};
ghost use Rattle.std.specs.Option.{option_map};
ghost use Rattle.session.specs.Rows.{row_or, shown_codes, done};
ghost use Rattle.session.specs.Inner.{bench_in, state_in};
ghost use Rattle.session.specs.Reaching.{Reached};

use crate::opening::check_opening;
use crate::search_state::Search;
use book::Book;
use parts::{Holds, Refusal, Refused};
use picker::Picker;
use search::{Answer, Forgetting, Report};
use shelf::Shelf;

/// A bench session (an incremental search under assumptions) over any book, picker and shelf.
/// It keeps that some list of calls led to its state from a fresh one, so that each call promises what the law of the search says.
#[derive(Drop)]
pub struct Session<B: Book, P: Picker, S: Shelf> {
    search: Search<B, P, S>,
    ghost reached: { ∥ Reached (bench_in search) (state_in search) ∥₁ },
}

impl<B: Book, P: Picker, S: Shelf> Session<B, P, S> {
    ghost use Rattle.std.specs.Prelude.{IfOk, OnOk, IsTrue, None};
    ghost use Rattle.parts.specs.Distinct.{is_distinct};
    ghost use Rattle.book.specs.Choices.{ShowsFit, NamesClash};
    ghost use Rattle.shelf.specs.Meaning.{code_of_place};
    ghost use Rattle.search.specs.Bounds.{most_steps};
    ghost use Rattle.search.specs.Machine.{standing};
    ghost use Rattle.search.specs.Calls.{hold as held, release as let_out, run_for, call, call_reply, run_reply, opened, refuses_open, restarted, settled_code, choice_row, named_row};
    ghost use Rattle.search.specs.Law.{LessonsFollow};
    ghost use Rattle.session.specs.View.{book_of, picker_of, shelf_of, forget_of, bench_of, state_of, Kept, Opened, Assured, SpentBelow, PromisedAfter};

    /// Opens a session: every place is cleared, nothing is held or settled, and nothing counted.
    /// Refused with 15 where the three differ in n, else with 16 where a forgetting number is above 120; then all three come back as they were.
    pub fn open(
        book: B,
        picker: P,
        shelf: S,
        forget: Forgetting,
    ) -> Result<Session<B, P, S>, Refused<(B, P, S)>>
        ensures opened { Opened book picker shelf forget result }
        ensures assured { IfOk result (λ x. Assured (bench_of x) (state_of x)) }
    {
        match check_opening(&book, &picker, &shelf, forget) {
            Ok(()) => Ok(Session {
                search: Search::new(book, picker, shelf, forget, Holds::empty()),
            }),
            Err(refusal) => Err(Refused {
                refusal,
                back: (book, picker, shelf),
            }),
        }
    }

    // Opens a session under these holds, where that is accepted.
    pub(crate) fn open_under(
        book: B,
        picker: P,
        shelf: S,
        forget: Forgetting,
        holds: Holds,
    ) -> Session<B, P, S>
        requires opens { refuses_open (B.meaning book).n (P.meaning picker).n
            (S.meaning shelf).n forget ≡ None }
        requires held { IsTrue (is_distinct (B.meaning book).n holds) }
        ensures state { state_of result
            ≡ restarted (opened (P.meaning picker) (S.meaning shelf)) holds }
        ensures kept { (book_of result ≡ book) × (picker_of result ≡ picker)
            × (forget_of result ≡ forget) }
    {
        Session {
            search: Search::new(book, picker, shelf, forget, holds),
        }
    }

    /// Ends the session, and gives back book, picker and shelf with its lessons.
    pub fn close(self) -> (B, P, S)
        ensures back { result ≡ (book_of self, picker_of self, shelf_of self) }
        ensures lessons { LessonsFollow (bench_of self) (S.meaning result.2).rows }
    {
        let Search {
            book,
            picker,
            shelf,
            ..
        } = self.search;
        (book, picker, shelf)
    }

    /// Holds a part on the side of a code, 1 in or 2 out. The trail is emptied and the counts are 0; lessons stay.
    /// Refused with 17 where there is no such part, else with 18 where the code is no side's, else with 19 where the part is held.
    // Stays a code: a caller may give any number, and a bad one gets its refusal.
    pub fn hold(&mut self, part: usize, code: u64) -> Result<(), Refusal>
        ensures answer { result
            ≡ call_reply (bench_of self.old) (state_of self.old) (held part code) }
        ensures after { state_of self.new
            ≡ call (bench_of self.old) (held part code) (state_of self.old) }
        ensures kept { Kept self.old self.new }
        ensures assured { Assured (bench_of self.new) (state_of self.new) }
        ensures law { PromisedAfter (bench_of self.old) (state_of self.old) (held part code)
            (state_of self.new) }
    {
        self.search.hold(part, code)
    }

    /// Holds a part no more. The trail is emptied and the counts are 0; lessons stay.
    /// Refused with 17 where there is no such part, else with 20 where it is not held.
    pub fn release(&mut self, part: usize) -> Result<(), Refusal>
        ensures answer { result
            ≡ call_reply (bench_of self.old) (state_of self.old) (let_out part) }
        ensures after { state_of self.new
            ≡ call (bench_of self.old) (let_out part) (state_of self.old) }
        ensures kept { Kept self.old self.new }
        ensures assured { Assured (bench_of self.new) (state_of self.new) }
        ensures law { PromisedAfter (bench_of self.old) (state_of self.old) (let_out part)
            (state_of self.new) }
    {
        self.search.release(part)
    }

    /// Steps until the budget is used or a verdict stands, and returns the verdict or "spent" with the counts.
    /// Refused with 21 for a budget of 0 or above 1,000,000, else with 22 where no verdict stands and steps and budget exceed 50,000,000.
    pub fn run(&mut self, budget: usize) -> Result<Report, Refusal>
        ensures answer { result ≡ run_reply (bench_of self.old) (state_of self.old) budget }
        ensures after { state_of self.new
            ≡ call (bench_of self.old) (run_for budget) (state_of self.old) }
        ensures kept { Kept self.old self.new }
        ensures assured { Assured (bench_of self.new) (state_of self.new) }
        ensures spent { IfOk result
            (SpentBelow (bench_of self.old).book.n (state_of self.old).steps budget) }
        ensures law { PromisedAfter (bench_of self.old) (state_of self.old) (run_for budget)
            (state_of self.new) }
    {
        self.search.run(budget)
    }

    /// How many parts there are.
    pub fn n(&self) -> usize
        ensures { result ≡ (bench_of self.now).book.n }
    {
        self.search.book.n()
    }

    /// The book that the session was opened with.
    pub fn book(&self) -> &B
        ensures { result.now ≡ book_of self.now }
    {
        &self.search.book
    }

    /// The shelf, with its lessons.
    pub fn shelf(&self) -> &S
        ensures same { result.now ≡ shelf_of self.now }
        ensures lessons { LessonsFollow (bench_of self.now) (S.meaning result.now).rows }
    {
        &self.search.shelf
    }

    /// The verdict that stands; nothing while none does.
    pub fn verdict(&self) -> Option<Answer>
        ensures { result ≡ standing (state_of self.now).verdict }
    {
        self.search.standing()
    }

    /// The steps since the opening or the last accepted hold or release.
    pub fn steps(&self) -> usize
        ensures { result ≡ (state_of self.now).steps }
    {
        self.search.steps
    }

    /// The turns among these steps.
    pub fn turns(&self) -> usize
        ensures { result ≡ (state_of self.now).turns }
    {
        self.search.turns
    }

    /// The settled code of a part: 0 open, 1 in, 2 out. Refused with 17 where there is no such part.
    // Stays a code, as does that of a place below: it is the byte that the rows of `choice` and `named` have for a part, so no other form of it is plainer.
    pub fn settled(&self, part: usize) -> Result<u8, Refusal>
        ensures { result ≡ settled_code (bench_of self.now).book.n (state_of self.now) part }
    {
        if self.search.no_part(part) {
            return Err(Refusal::PartOutOfRange);
        }
        Ok(self.search.trail.settled(part).map_or(0, u8::from))
    }

    /// A place's code for a part; nothing where the place is empty. Refused with 25 where place or part is out of range.
    pub fn shelf_code(&self, place: usize, part: usize) -> Result<Option<u8>, Refusal>
        ensures { result ≡ code_of_place (state_of self.now).shelf place part }
    {
        self.search.shelf.code(place, part)
    }

    /// Fills a row with the choice that a standing "fits" shows.
    /// Refused with 23 where the row is not n long, else with 24 where no "fits" stands; the row then stays.
    pub fn choice(&self, row: &mut [u8]) -> Result<(), Refusal>
        ensures answer { result
            ≡ done (choice_row (bench_of self.now).book.n (state_of self.now) (length row.old)) }
        ensures after { row.new
            ≡ row_or
            (choice_row (bench_of self.now).book.n (state_of self.now) (length row.old)) row.old }
        ensures shows { OnOk result
            (ShowsFit (bench_of self.now).book (state_of self.now).holds row.new) }
    {
        show(self.search.fitting_row(), self.n(), row)
    }

    /// Fills a row with the holds that a standing "none fits" names, 0 elsewhere.
    /// Refused with 23 where the row is not n long, else with 24 where no "none fits" stands; the row then stays.
    pub fn named(&self, row: &mut [u8]) -> Result<(), Refusal>
        ensures answer { result
            ≡ done (named_row (bench_of self.now).book.n (state_of self.now) (length row.old)) }
        ensures after { row.new
            ≡ row_or
            (named_row (bench_of self.now).book.n (state_of self.now) (length row.old)) row.old }
        ensures names { OnOk result
            (NamesClash (bench_of self.now).book (state_of self.now).holds row.new) }
    {
        show(self.search.clashing_row(), self.n(), row)
    }
}

// Fills a row of n with the n codes that there are to show.
fn show(codes: Option<&[u8]>, n: usize, row: &mut [u8]) -> Result<(), Refusal>
    requires { IfSome codes (λ cs. length cs.now ≡ n) }
    ensures answer { result
        ≡ done (shown_codes n (option_map (λ cs. cs.now) codes.entry) (length row.old)) }
    ensures after { row.new
        ≡ row_or (shown_codes n (option_map (λ cs. cs.now) codes.entry) (length row.old)) row.old }
{
    if row.len() != n {
        return Err(Refusal::RowLength);
    }
    row.copy_from_slice(codes.ok_or(Refusal::NoSuchVerdict)?);
    Ok(())
}

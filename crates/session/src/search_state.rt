//! A search under way: what it was opened with, and its state; the whole step on one page.
ghost use Rattle.std.specs.Prelude.{◌≡◌, ◌≤◌, [], IsTrue};
ghost use Rattle.parts.specs.Distinct.{is_distinct};
ghost use Rattle.trail.specs.Settling.{can_settle};
ghost use Rattle.session.specs.Moving.{as_move, Settles, move_by_holds};
ghost use Rattle.parts.specs.declared.limits.TheConstants.{MOST_STEPS};

use crate::budget::check_budget;
use crate::moves::Move;
use crate::opening::clear_all;
use crate::verdict::Verdict;
use book::Book;
use lessons::{next_place, sweep};
use parts::limits::{MOST_PARTS, MOST_STEPS};
use parts::row::is_full;
use parts::{Holds, Mark, Refusal, Side};
use picker::Picker;
use rules::{BookRules, RuleList, ShelfRules};
use scan::{Scan, Scanned};
use search::{Answer, Forgetting, Kind, Reason, Report};
use shelf::Shelf;
use trail::Trail;
use turns::{Reasons, name_holds};

/// What a search was opened with (book, picker, shelf and forgetting rule), the holds, the trail, the place last written, the counts, and the verdict.
#[derive(Drop)]
pub struct Search<B: Book, P: Picker, S: Shelf> {
    pub(crate) book: B,
    pub(crate) picker: P,
    pub(crate) shelf: S,
    pub(crate) forget: Forgetting,
    pub(crate) holds: Holds,
    pub(crate) trail: Trail,
    // Stays 0 before the first place: going round starts after this number, so an Option would be turned into it at each use.
    pub(crate) last: usize,
    pub(crate) steps: usize,
    pub(crate) turns: usize,
    pub(crate) verdict: Verdict,
    ghost few: { steps ≤ MOST_STEPS },
    ghost fewer: { turns ≤ steps },
    ghost same_trail: { trail.n ≡ (B.meaning book).n },
    ghost same_picker: { (P.meaning picker).n ≡ (B.meaning book).n },
    ghost same_shelf: { (S.meaning shelf).n ≡ (B.meaning book).n },
    ghost held: { IsTrue (is_distinct (B.meaning book).n holds) },
}

impl<B: Book, P: Picker, S: Shelf> Search<B, P, S> {
    ghost use Rattle.picker.specs.Meaning.{picked as picked_by};
    ghost use Rattle.search.specs.Trail.{row as settled_row};
    ghost use Rattle.search.specs.Machine.{act, asked, bottom, choose, fit, look as look_of, pushed, step as step_of, stop, turn_on, turned, fitted};
    ghost use Rattle.search.specs.Machine.{stands, standing};
    ghost use Rattle.search.specs.Calls.{hold as held, release as let_out, run_for, call, call_reply, run_reply, report, opened, restarted};
    ghost use Rattle.parts.specs.Distinct.{is_part};
    ghost use Rattle.std.specs.Prelude.{not, IfSome, length};
    ghost use Rattle.std.specs.Option.{option_map};
    ghost use Rattle.session.specs.Rows.{fitting_row, clashing_row};
    ghost use Rattle.session.specs.Inner.{bench_in, state_in, Going, Kept};

    // A search that begins under these holds: every place is cleared, nothing is settled, and nothing counted.
    #[tactic(auto, using(std::proofs::lemmas::Bool::Decides::nat_tests, std::proofs::lemmas::Grind::common_steps), unfolding(search::specs::Calls::opened, search::specs::Calls::restarted))]
    pub(crate) fn new(
        book: B,
        picker: P,
        mut shelf: S,
        forget: Forgetting,
        holds: Holds,
    ) -> Search<B, P, S>
        requires same_picker { (P.meaning picker).n ≡ (B.meaning book).n }
        requires same_shelf { (S.meaning shelf).n ≡ (B.meaning book).n }
        requires held { IsTrue (is_distinct (B.meaning book).n holds) }
        ensures state { state_in result
            ≡ restarted (opened (P.meaning picker) (S.meaning shelf)) holds }
        ensures kept { (result.book ≡ book) × (result.picker ≡ picker) × (result.forget ≡ forget) }
    {
        clear_all(&mut shelf);
        let trail = Trail::new(book.n());
        Search {
            book,
            picker,
            shelf,
            forget,
            holds,
            trail,
            last: 0,
            steps: 0,
            turns: 0,
            verdict: Verdict::Working,
        }
    }

    // Does one step, where no verdict stands.
    #[tactic(auto, unfolding(search::specs::Machine::step, search::specs::Machine::act, search::specs::Machine::fitted))]
    pub(crate) fn step(&mut self)
        requires { Going self.old }
        ensures after { state_in self.new ≡ step_of (bench_in self.old) (state_in self.old) }
        ensures kept { Kept self.old self.new }
    {
        match self.look() {
            Move::TurnOn(reason) => self.turn_on(reason),
            Move::Force(mark, reason) => self.settle(mark, Kind::Forced(reason)),
            Move::Settle(hold) => self.settle(hold, Kind::Held),
            Move::Fit => {
                self.steps += 1;
                self.verdict = Verdict::Fits;
            }
            Move::Ask => self.ask(),
        }
    }

    // The first that applies: a turn on the first broken rule, the mark of the first pressing one, then what the holds ask for. The book comes before the shelf.
    #[tactic(auto, using(search::proofs::Settled::length_row, crate::proofs::Looking::book_free, crate::proofs::Looking::shelf_free))]
    fn look(&self) -> Move
        ensures looked { as_move result ≡ look_of (bench_in self.now) (state_in self.now) }
        ensures free { Settles self.now.trail result }
    {
        let rules = BookRules(&self.book);
        let lessons = ShelfRules(&self.shelf);
        let Some(book) = Scan::new(&rules, self.trail.row()) else {
            unreachable();
        };
        let Some(shelf) = Scan::new(&lessons, self.trail.row()) else {
            unreachable();
        };
        match book.first() {
            Scanned::Broken(rule) => Move::TurnOn(Reason::Book(rule)),
            // Only a broken lesson comes before a pressing rule of the book.
            Scanned::Pressing(rule, mark) => match shelf.first_broken() {
                Some(place) => Move::TurnOn(Reason::Shelf(place)),
                None => Move::Force(mark, Reason::Book(rule)),
            },
            Scanned::Quiet => match shelf.first() {
                Scanned::Broken(place) => Move::TurnOn(Reason::Shelf(place)),
                Scanned::Pressing(place, mark) => Move::Force(mark, Reason::Shelf(place)),
                Scanned::Quiet => move_by_holds(&self.trail, self.holds.marks()),
            },
        }
    }

    // Settles an open part.
    #[tactic(auto, unfolding(search::specs::Machine::pushed))]
    fn settle(&mut self, mark: Mark, kind: Kind)
        requires { Going self.old × IsTrue (can_settle self.old.trail mark) }
        ensures after { state_in self.new ≡ pushed (state_in self.old) mark kind }
        ensures kept { Kept self.old self.new }
    {
        self.steps += 1;
        let _ = self.trail.settle(mark, kind);
    }

    // Asks the picker, and settles its mark.
    #[tactic(auto, unfolding(search::specs::Machine::asked))]
    fn ask(&mut self)
        requires { Going self.old }
        ensures after { state_in self.new ≡ asked (state_in self.old)
            (picked_by (P.meaning self.old.picker) (settled_row self.old.trail.n self.old.trail.entries)) }
        ensures kept { Kept self.old self.new }
    {
        match self.picker.pick(self.trail.row()) {
            Some(mark) => self.settle(mark, Kind::Picked),
            None => self.steps += 1,
        }
    }

    // A turn on the rule of a reason.
    #[tactic(auto, using(crate::proofs::Steps::empty_front, crate::proofs::Steps::turned_same), unfolding(search::specs::Machine::act))]
    fn turn_on(&mut self, reason: Reason)
        requires { Going self.old }
        ensures after { state_in self.new
            ≡ act (bench_in self.old) (state_in self.old) (turn_on reason) }
        ensures kept { Kept self.old self.new }
    {
        let n = self.book.n();
        // Stays a row for the most parts, of which n are used: no heap in a session.
        let mut codes = [0; MOST_PARTS];
        let work = &mut codes[..n];
        let reasons = Reasons {
            book: &self.book,
            shelf: &self.shelf,
        };
        reasons.enter(reason, work);
        match reasons.turn(&mut self.trail, work) {
            Some(picked) => self.learn(picked, work),
            None => self.end(work),
        }
    }

    // The turn stopped at a picked mark: the working row is written on the shelf as a lesson, which forces the mark's opposite; then lessons are forgotten.
    #[tactic(auto, using(crate::proofs::Steps::swept_parts), unfolding(search::specs::Machine::turned))]
    fn learn(&mut self, picked: Mark, work: &[u8])
        requires { Going self.old × IsTrue (can_settle self.old.trail picked) }
        ensures after { state_in self.new
            ≡ turned (bench_in self.old) (state_in self.old)
            (stop picked work.now self.old.trail.entries) }
        ensures kept { Kept self.old self.new }
    {
        self.steps += 1;
        self.turns += 1;
        // Stays 0 where no place is free: the definitions write there then, and a shelf refuses it; no opened session comes to that.
        self.last = next_place(&self.shelf, self.last, &self.trail).unwrap_or(0);
        let _ = self.shelf.write(self.last, work);
        let _ = self
            .trail
            .settle(picked.opposite(), Kind::Forced(Reason::Shelf(self.last)));
        sweep(&mut self.shelf, self.forget, &self.trail);
    }

    // The turn came to the trail's bottom: no choice fits, and the holds whose opposites the working row names are named.
    #[tactic(auto, using(crate::proofs::Steps::named_front), unfolding(search::specs::Machine::turned))]
    fn end(&mut self, work: &[u8])
        requires { Going self.old × (self.old.trail.entries ≡ []) }
        ensures after { state_in self.new
            ≡ turned (bench_in self.old) (state_in self.old) (bottom work.now) }
        ensures kept { Kept self.old self.new }
    {
        self.steps += 1;
        self.turns += 1;
        // Stays a row for the most parts, of which n are shown: no heap in a session.
        let mut named = [0; MOST_PARTS];
        name_holds(self.holds.marks(), work, &mut named);
        self.verdict = Verdict::NoneFits(named);
    }

    // Holds a part on the side of a code, 1 in or 2 out; the search starts again.
    #[tactic(auto, using(std::proofs::lemmas::Bool::Decides::nat_tests, std::proofs::lemmas::Result::err_from_is_err_and, crate::proofs::Steps::held_more), unfolding(search::specs::Calls::call, search::specs::Calls::refuses, search::specs::Calls::accepted, search::specs::Calls::restarted))]
    pub(crate) fn hold(&mut self, part: usize, code: u64) -> Result<(), Refusal>
        ensures answer { result
            ≡ call_reply (bench_in self.old) (state_in self.old) (held part code) }
        ensures after { state_in self.new
            ≡ call (bench_in self.old) (held part code) (state_in self.old) }
        ensures kept { Kept self.old self.new }
    {
        if self.no_part(part) {
            return Err(Refusal::PartOutOfRange);
        }
        let side = Side::try_from(code)?;
        if !self.holds.add(Mark { part, side }) {
            return Err(Refusal::AlreadyHeld);
        }
        self.restart();
        Ok(())
    }

    // Holds a part no more; the search starts again.
    #[tactic(auto, using(std::proofs::lemmas::Bool::Decides::nat_tests, crate::proofs::Steps::held_less), unfolding(search::specs::Calls::call, search::specs::Calls::refuses, search::specs::Calls::accepted, search::specs::Calls::restarted))]
    pub(crate) fn release(&mut self, part: usize) -> Result<(), Refusal>
        ensures answer { result
            ≡ call_reply (bench_in self.old) (state_in self.old) (let_out part) }
        ensures after { state_in self.new
            ≡ call (bench_in self.old) (let_out part) (state_in self.old) }
        ensures kept { Kept self.old self.new }
    {
        if self.no_part(part) {
            return Err(Refusal::PartOutOfRange);
        }
        if !self.holds.names(part) {
            return Err(Refusal::NotHeld);
        }
        self.holds.remove(part);
        self.restart();
        Ok(())
    }

    // The search starts again under its holds, with the lessons it has.
    #[tactic(auto, unfolding(search::specs::Calls::restarted))]
    fn restart(&mut self)
        ensures after { state_in self.new ≡ restarted (state_in self.old) self.old.holds }
        ensures kept { Kept self.old self.new }
    {
        self.trail.clear();
        self.steps = 0;
        self.turns = 0;
        self.verdict = Verdict::Working;
    }

    // Steps until the budget is used or a verdict stands.
    #[tactic(auto, using(std::proofs::lemmas::Bool::Decides::nat_tests, crate::proofs::Steps::run_more, search::proofs::Promises::act_steps, search::proofs::Promises::run_stood_same), unfolding(search::specs::Calls::call, search::specs::Calls::refuses, search::specs::Calls::accepted, search::specs::Machine::run, search::specs::Machine::step))]
    pub(crate) fn run(&mut self, budget: usize) -> Result<Report, Refusal>
        ensures answer { result ≡ run_reply (bench_in self.old) (state_in self.old) budget }
        ensures after { state_in self.new
            ≡ call (bench_in self.old) (run_for budget) (state_in self.old) }
        ensures kept { Kept self.old self.new }
    {
        check_budget(budget)?;
        if !self.stands() && self.steps + budget > MOST_STEPS {
            return Err(Refusal::StepsOutOfRange);
        }
        for _ in 0..budget {
            if self.stands() {
                break;
            }
            self.step();
        }
        Ok(self.report())
    }

    // Whether a verdict stands.
    fn stands(&self) -> bool
        ensures { result ≡ stands (state_in self.now).verdict }
    {
        !matches!(self.verdict, Verdict::Working)
    }

    // The verdict that stands, if one does.
    pub(crate) fn standing(&self) -> Option<Answer>
        ensures { result ≡ standing (state_in self.now).verdict }
    {
        match self.verdict {
            Verdict::Working => None,
            Verdict::Fits => Some(Answer::Fits),
            Verdict::NoneFits(_) => Some(Answer::NoneFits),
        }
    }

    // The answer and the counts.
    pub(crate) fn report(&self) -> Report
        ensures { result ≡ report (state_in self.now) }
    {
        Report {
            answer: self.verdict.answer(),
            steps: self.steps,
            turns: self.turns,
        }
    }

    // The codes of the choice, where one fits.
    #[tactic(auto, using(search::proofs::Settled::length_row))]
    pub(crate) fn fitting_row(&self) -> Option<&[u8]>
        ensures value { option_map (λ cs. cs.now) result
            ≡ fitting_row (bench_in self.now) (state_in self.now) }
        ensures long { IfSome result (λ cs. length cs.now ≡ (bench_in self.now).book.n) }
    {
        match self.verdict {
            Verdict::Fits => Some(self.trail.row()),
            _ => None,
        }
    }

    // The codes of the named holds, where none fits.
    pub(crate) fn clashing_row(&self) -> Option<&[u8]>
        ensures value { option_map (λ cs. cs.now) result ≡ clashing_row (state_in self.now) }
        ensures long { IfSome result (λ cs. length cs.now ≡ (bench_in self.now).book.n) }
    {
        let n = self.book.n();
        match &self.verdict {
            Verdict::NoneFits(named) => Some(&named[..n]),
            _ => None,
        }
    }

    // Whether a number is no part's.
    pub(crate) fn no_part(&self, part: usize) -> bool
        ensures { result ≡ not (is_part (bench_in self.now).book.n part) }
    {
        part == 0 || part > self.book.n()
    }
}

// Where no rule is broken or pressing: a turn on the reason of a crossed hold, an open hold, a fit, or a question.
#[tactic(auto, using(crate::proofs::Looking::hold_free))]
fn move_by_holds(trail: &Trail, holds: &[Mark]) -> Move
    requires { IsTrue (is_distinct trail.now.n holds.now) }
    ensures looked { as_move result ≡ move_by_holds trail.now holds.now }
    ensures free { Settles trail.now result }
{
    if let Some(reason) = trail.crossed(holds) {
        return Move::TurnOn(reason);
    }
    if let Some(hold) = trail.first_open(holds) {
        return Move::Settle(hold);
    }
    if is_full(trail.row()) {
        Move::Fit
    } else {
        Move::Ask
    }
}

//! The turn: the working rule, kept as the row of the marks that it names, is resolved down the trail.
#![tactic(auto)]

ghost use Rattle.std.specs.Prelude.{◌≡◌, [], length, is_some, None, IsTrue, IfSome};
ghost use Rattle.trail.specs.Settling.{can_settle};
ghost use Rattle.rules.specs.Listing.{rule_in};
ghost use Rattle.search.specs.Machine.{marks_at, named_holds, resolve as resolved, turn as turned_at};
ghost use Rattle.search.specs.Trail.{enter as entered};
ghost use Rattle.turns.specs.Turning.{outcome, rule_by, with_hold};

use book::Book;
use parts::Mark;
use parts::row::{names, write};
use rules::{BookRules, RuleList, ShelfRules};
use search::{Kind, Reason};
use shelf::Shelf;
use trail::Trail;

/// What reasons speak of: the rules of a book, and the lessons of a shelf.
#[derive(Clone, Copy)]
pub struct Reasons<'a, B, S> {
    pub book: &'a B,
    pub shelf: &'a S,
}

/// Writes the marks of a rule into a row, and returns whether there is such a rule.
// Stays a bool, as does that for a reason below: the marks are in the row, and there is no value to return beside it.
#[tactic(auto, using(std::proofs::lemmas::Grind::common_steps, std::proofs::lemmas::Option::gets), unfolding(search::specs::Trail::enter))]
pub fn enter<R: RuleList>(list: &R, rule: usize, row: &mut [u8]) -> bool
    ensures there { result ≡ is_some (rule_in (R.RuleList.listed list.now).rules rule) }
    ensures after { row.new
        ≡ entered row.old (marks_at (rule_in (R.RuleList.listed list.now).rules rule)) }
{
    let Some(marks) = list.marks(rule) else {
        return false;
    };
    for before in 0..marks {
        // There is one: as many were counted.
        let Some(mark) = list.mark(rule, before + 1) else {
            break;
        };
        write(row, mark.part, u8::from(mark.side));
    }
    true
}

impl<B: Book, S: Shelf> Reasons<'_, B, S> {
    /// Writes the marks of the rule that a reason speaks of into a row, and returns whether there is such a rule.
    #[tactic(auto, using(std::proofs::lemmas::Grind::common_steps, std::proofs::lemmas::Option::gets), unfolding(search::specs::Machine::rule_at))]
    pub fn enter(&self, reason: Reason, row: &mut [u8]) -> bool
        ensures there { result ≡ is_some (rule_by B.Book.meaning S.Shelf.meaning self.now reason) }
        ensures after { row.new
            ≡ entered row.old (marks_at (rule_by B.Book.meaning S.Shelf.meaning self.now reason)) }
    {
        match reason {
            Reason::Book(rule) => enter(&BookRules(self.book), rule, row),
            Reason::Shelf(place) => enter(&ShelfRules(self.shelf), place, row),
        }
    }

    /// Resolves a part: the marks of the row and of the reason, each once, without the two marks of that part.
    #[tactic(auto, unfolding(search::specs::Machine::resolve, search::specs::Trail::enter, search::specs::Trail::leave))]
    pub fn resolve(&self, reason: Reason, part: usize, row: &mut [u8])
        ensures { row.new
            ≡ resolved part row.old (rule_by B.Book.meaning S.Shelf.meaning self.now reason) }
    {
        if self.enter(reason, row) {
            write(row, part, 0);
        }
    }

    /// Takes entries off the trail from the newest, resolving the working row, down to the picked mark whose opposite the row names,
    /// which it returns; nothing where the trail's bottom comes first.
    #[tactic(auto, unfolding(search::specs::Machine::turn))]
    pub fn turn(&self, trail: &mut Trail, row: &mut [u8]) -> Option<Mark>
        ensures turned { outcome result row.new trail.new.entries
            ≡ turned_at (rule_by B.Book.meaning S.Shelf.meaning self.now) row.old trail.old.entries }
        ensures bottom { result ≡ None → trail.new.entries ≡ [] }
        ensures vacant { IfSome result (λ x. IsTrue (can_settle trail.new x)) }
        ensures parts { trail.new.n ≡ trail.old.n }
        ensures long { length row.new ≡ length row.old }
    {
        while let Some(entry) = trail.pop() {
            if !names(row, entry.mark.opposite()) {
                continue;
            }
            match entry.kind {
                Kind::Picked => return Some(entry.mark),
                Kind::Held => {}
                Kind::Forced(reason) => self.resolve(reason, entry.mark.part, row),
            }
        }
        None
    }
}

/// Fills a row with the holds whose opposites a working row names, 0 elsewhere.
#[tactic(auto, using(std::proofs::lemmas::Grind::common_steps, crate::proofs::Naming::named_none, crate::proofs::Naming::named_more, crate::proofs::Naming::named_all))]
pub fn name_holds(holds: &[Mark], work: &[u8], named: &mut [u8])
    ensures { named.new ≡ named_holds (length named.old) work.now holds.now }
{
    named.fill(0);
    for hold in holds {
        name_hold(*hold, work, named);
    }
}

// Names one hold, if a working row names its opposite.
fn name_hold(hold: Mark, work: &[u8], named: &mut [u8])
    ensures { named.new ≡ with_hold work.now hold named.old }
{
    if names(work, hold.opposite()) {
        write(named, hold.part, u8::from(hold.side));
    }
}

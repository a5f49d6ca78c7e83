//! Two books joined: the first's rules before the second's.
ghost use Rattle.std.specs.Prelude.{◌≡◌, IsTrue, IsFalse, MatchResult};
ghost use Rattle.book.specs.Joining.{joinable, join_refusal, both_rules};

use crate::Book;
use parts::limits::MOST_RULES;
use parts::{Mark, Refusal, Refused};

/// Two books as one (a conjunction); either may be a joined one.
// Stays without bounds, so that who only hands one on names none: a fact that the two may be joined would need them,
// and so each answer asks.
#[derive(Drop)]
pub struct Joined<F, S> {
    first: F,
    second: S,
}

impl<F: Book, S: Book> Joined<F, S> {
    ghost use Rattle.book.specs.Makes.{books_of, joined_book};

    /// Joins two books: the first's rules come before the second's.
    /// Refused with 11 where they differ in n, else with 12 where they have more than 20,000 rules together; both books then come back.
    pub fn new(first: F, second: S) -> Result<Joined<F, S>, Refused<(F, S)>>
        ensures joined { MatchResult result
            (λ j. IsTrue (joinable (F.meaning first) (S.meaning second)))
            (λ e. IsFalse (joinable (F.meaning first) (S.meaning second))) }
        ensures value { MatchResult result
            (λ j. (books_of j ≡ (first, second))
            × (joined_book F.meaning S.meaning j
            ≡ both_rules (F.meaning first) (S.meaning second)))
            (λ e. e
            ≡ record {
              refusal = join_refusal (F.meaning first) (S.meaning second);
              back = (first, second);
            }) }
    {
        if first.n() != second.n() {
            return Err(Refused {
                refusal: Refusal::JoinPartsDiffer,
                back: (first, second),
            });
        }
        if !may_join(&first, &second) {
            return Err(Refused {
                refusal: Refusal::JoinTooManyRules,
                back: (first, second),
            });
        }
        Ok(Joined { first, second })
    }
}

impl<F, S> Joined<F, S> {
    ghost use Rattle.book.specs.Makes.{books_of};

    /// Both books, as they were joined.
    pub fn into_books(self) -> (F, S)
        ensures { result ≡ books_of self }
    {
        (self.first, self.second)
    }
}

/// The rules up to the first's count are the first's, and the others the second's.
impl<F: Book, S: Book> Book for Joined<F, S> {
    ghost use Rattle.book.specs.Makes.{joined_book};
    ghost use Rattle.book.specs.Proved.{joined_sound};

    ghost meaning = { joined_book F.meaning S.meaning };

    ghost sound = { λ j. joined_sound (F.meaning j.first) (S.meaning j.second)
        (F.sound j.first)
        (S.sound j.second) };

    fn n(&self) -> usize {
        self.first.n()
    }

    fn rules(&self) -> usize {
        let before = self.first.rules();
        if may_join(&self.first, &self.second) {
            before + self.second.rules()
        } else {
            before
        }
    }

    fn marks(&self, rule: usize) -> Option<usize> {
        let before = self.first.rules();
        if rule <= before {
            return self.first.marks(rule);
        }
        if may_join(&self.first, &self.second) {
            return self.second.marks(rule - before);
        }
        None
    }

    fn mark(&self, rule: usize, place: usize) -> Option<Mark> {
        let before = self.first.rules();
        if rule <= before {
            return self.first.mark(rule, place);
        }
        if may_join(&self.first, &self.second) {
            return self.second.mark(rule - before, place);
        }
        None
    }
}

// Whether two books may be joined.
fn may_join<F: Book, S: Book>(first: &F, second: &S) -> bool
    ensures { result ≡ joinable (F.meaning first.now) (S.meaning second.now) }
{
    first.n() == second.n() && first.rules() + second.rules() <= MOST_RULES
}

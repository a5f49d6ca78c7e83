//! A book's rules as a list of rules.
ghost use Rattle.std.specs.Prelude.{map};
ghost use Rattle.rules.specs.Listing.{book_list};
ghost use Rattle.rules.specs.Proved.{book_list_sound};

use crate::RuleList;
use book::Book;
use parts::Mark;

/// A book's rules; none is missing.
// Stays beside the shelf's: a type could be both a book and a shelf,
// so each of the two lists needs a type of its own.
#[derive(Clone, Copy)]
pub struct BookRules<'a, B>(pub &'a B);

impl<B: Book> RuleList for BookRules<'_, B> {
    ghost listed = { λ l. book_list (B.Book.meaning l.0.now) };

    ghost sound = { λ l. book_list_sound (B.Book.meaning l.0.now) (B.Book.sound l.0.now) };

    fn n(&self) -> usize {
        self.0.n()
    }

    fn count(&self) -> usize {
        self.0.rules()
    }

    fn marks(&self, rule: usize) -> Option<usize> {
        self.0.marks(rule)
    }

    fn mark(&self, rule: usize, place: usize) -> Option<Mark> {
        self.0.mark(rule, place)
    }
}

//! Books: n parts and a list of rules over them, whatever keeps them.
#![tactic(auto)]

ghost use Rattle.std.specs.Prelude.{◌≡◌, length};
ghost use Rattle.book.specs.Meaning.{RuleBook, Sound, marks_of, mark_of};

mod joined;
mod text;

pub use joined::Joined;
use parts::Mark;
pub use text::{Tables, TextBook};

/// A book of fit rules (a formula's clauses). Rules, and the places of marks in a rule, count from 1.
/// It answers for whatever is asked, and no question changes it.
pub trait Book {
    // what the book means
    ghost meaning: { Self → RuleBook };

    // 1 to 120 parts, at most 20,000 rules, each over these parts and with none named twice
    ghost sound: { (b : Self) → Sound (meaning b) };

    /// How many parts there are.
    fn n(&self) -> usize
        ensures { result ≡ (meaning self.now).n };

    /// How many rules there are.
    fn rules(&self) -> usize
        ensures { result ≡ length (meaning self.now).rules };

    /// How many marks a rule has; nothing where there is no such rule.
    fn marks(&self, rule: usize) -> Option<usize>
        ensures { result ≡ marks_of (meaning self.now).rules rule };

    /// The mark at a place of a rule; nothing where there is none.
    fn mark(&self, rule: usize, place: usize) -> Option<Mark>
        ensures { result ≡ mark_of (meaning self.now).rules rule place };
}

/// A lent book is a book, so that several sessions stand over one.
impl<B: Book> Book for &B {
    ghost meaning = { λ b. B.meaning b.now };

    ghost sound = { λ b. B.sound b.now };

    fn n(&self) -> usize {
        (**self).n()
    }

    fn rules(&self) -> usize {
        (**self).rules()
    }

    fn marks(&self, rule: usize) -> Option<usize> {
        (**self).marks(rule)
    }

    fn mark(&self, rule: usize, place: usize) -> Option<Mark> {
        (**self).mark(rule, place)
    }
}

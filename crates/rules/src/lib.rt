//! Lists of rules: a book's rules, and a shelf's lessons, by their numbers.
#![tactic(auto)]

ghost use Rattle.std.specs.Prelude.{◌≡◌, length};
ghost use Rattle.rules.specs.Listing.{Listed, SoundList, marks_in, mark_in};

mod book_rules;
mod shelf_rules;
#[cfg(test)]
mod tests;

pub use book_rules::BookRules;
use parts::Mark;
pub use shelf_rules::ShelfRules;

/// Rules by their numbers from 1, some of which may be missing. A question changes nothing.
pub trait RuleList {
    // the list of rules that it stands for
    ghost listed: { Self → Listed };

    // each rule that is there is over these parts and names none twice
    ghost sound: { (l : Self) → SoundList (listed l) };

    /// How many parts the rules are over.
    fn n(&self) -> usize
        ensures { result ≡ (listed self.now).n };

    /// How many rules there are, missing ones too.
    fn count(&self) -> usize
        ensures { result ≡ length (listed self.now).rules };

    /// How many marks a rule has; nothing where it is missing, or there is no such number.
    fn marks(&self, rule: usize) -> Option<usize>
        ensures { result ≡ marks_in (listed self.now).rules rule };

    /// The mark at a place of a rule, counted from 1; nothing where there is none.
    fn mark(&self, rule: usize, place: usize) -> Option<Mark>
        ensures { result ≡ mark_in (listed self.now).rules rule place };
}

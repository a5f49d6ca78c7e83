//! A shelf's lessons as a list of rules.
ghost use Rattle.std.specs.Prelude.{map};
ghost use Rattle.rules.specs.Listing.{shelf_list};
ghost use Rattle.rules.specs.Proved.{shelf_list_sound};

use crate::RuleList;
use parts::Mark;
use shelf::Shelf;

/// A shelf's lessons, by their places; an empty place is a missing rule.
#[derive(Clone, Copy)]
pub struct ShelfRules<'a, S>(pub &'a S);

impl<S: Shelf> RuleList for ShelfRules<'_, S> {
    ghost listed = { λ l. shelf_list (S.Shelf.meaning l.0.now) };

    ghost sound = { λ l. shelf_list_sound (S.Shelf.meaning l.0.now) (S.Shelf.sound l.0.now) };

    fn n(&self) -> usize {
        self.0.n()
    }

    fn count(&self) -> usize {
        self.0.places()
    }

    #[tactic(auto, using(std::proofs::lemmas::Grind::common_steps, std::proofs::lemmas::Option::gets))]
    fn marks(&self, rule: usize) -> Option<usize> {
        self.0.marks(rule).ok()?
    }

    #[tactic(auto, using(std::proofs::lemmas::Grind::common_steps, std::proofs::lemmas::Option::gets))]
    fn mark(&self, rule: usize, place: usize) -> Option<Mark> {
        self.0.mark(rule, place).ok()?
    }
}

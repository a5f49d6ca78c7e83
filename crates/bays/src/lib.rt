//! A book that is computed from the widths of bays: exactly one part of each bay is in.
//! It stores no rule.
#![tactic(auto)]

ghost use Rattle.std.specs.Prelude.{◌≡◌, IsTrue, IsFalse, if◌then◌else◌, Some, None, sum, MatchResult};
ghost use Rattle.parts.specs.declared.refusal.Refusal.TheVariants.{NotABook};
ghost use Rattle.bays.specs.Meaning.{bay_book, rule_count, has_bay_book};
ghost use Rattle.bays.specs.Spots.{Spotted};
ghost use Rattle.bays.specs.Law.{HoldOne};

mod spots;
#[cfg(test)]
mod tests;

use book::Book;
use parts::limits::{MOST_PARTS, MOST_WIDTH};
use parts::{Mark, Refusal, Refused};
use spots::{Bay, Spot};

/// A book of bays that take the parts in order.
/// A bay's rules: some part is in, then for each pair that one of the two is out.
#[derive(Drop)]
pub struct BayBook {
    n: usize,
    rules: usize,
    widths: Vec<u16>,
    ghost fit: { IsTrue (has_bay_book widths.items) },
    ghost counted: { (n ≡ sum widths.items) × (rules ≡ rule_count widths.items) },
}

impl BayBook {
    ghost use Rattle.bays.specs.Makes.{widths_of, book_of_bays};

    /// A book of bays of these widths. In every full choice that meets its rules, exactly one part
    /// of each bay is in, and every such choice meets them.
    /// Refused with 10, and the widths come back, where there are none, one is 0 or above 20,
    /// or they sum above 120.
    #[tactic(auto, using(crate::proofs::Walks::hold_one))]
    pub fn new(widths: Vec<u16>) -> Result<BayBook, Refused<Vec<u16>>>
        ensures made { MatchResult result
            (λ _. IsTrue (has_bay_book widths.items))
            (λ _. IsFalse (has_bay_book widths.items)) }
        ensures value { MatchResult result
            (λ b. (book_of_bays b ≡ bay_book widths.items) × (widths_of b ≡ widths))
            (λ e. e ≡ record { refusal = NotABook; back = widths }) }
        ensures law { HoldOne widths.items }
    {
        let Some((n, rules)) = counts(&widths) else {
            return Err(Refused {
                refusal: Refusal::NotABook,
                back: widths,
            });
        };
        Ok(BayBook { n, rules, widths })
    }

    /// The widths, as they were given.
    pub fn into_widths(self) -> Vec<u16>
        ensures { result ≡ widths_of self }
    {
        self.widths
    }

    // Which bay a rule is of, and which of the bay's rules it is.
    #[tactic(auto, using(std::proofs::lemmas::Grind::common_steps, crate::proofs::Walks::rule_drop, crate::proofs::Walks::this_bay, crate::proofs::Walks::later_bay))]
    fn spot(&self, rule: usize) -> Option<Spot>
        ensures { Spotted self.now.widths.items rule result }
    {
        // Stays two numbers that go along: a fold would carry both and still leave at three places.
        let mut number = rule.checked_sub(1)?;
        let mut from = 1;
        for width in &self.widths {
            let bay = Bay {
                from,
                width: usize::from(*width),
            };
            let count = bay.rules();
            if number == 0 {
                return Some(Spot::SomeIn(bay));
            }
            if number < count {
                return Some(Spot::NotBoth(bay, number - 1));
            }
            number -= count;
            from += bay.width;
        }
        None
    }
}

/// Each answer is a walk over the bays.
impl Book for BayBook {
    ghost use Rattle.bays.specs.Makes.{book_of_bays};
    ghost use Rattle.bays.specs.Proved.{bay_sound};

    ghost meaning = { book_of_bays };

    ghost sound = { λ b. bay_sound b.widths.items b.fit };

    fn n(&self) -> usize {
        self.n
    }

    #[tactic(auto, using(crate::specs::Proved::length_bays))]
    fn rules(&self) -> usize {
        self.rules
    }

    #[tactic(auto, using(crate::proofs::Walks::mapped, crate::proofs::Walks::two_at))]
    fn marks(&self, rule: usize) -> Option<usize> {
        match self.spot(rule)? {
            Spot::SomeIn(bay) => Some(bay.width),
            Spot::NotBoth(_, _) => Some(2),
        }
    }

    fn mark(&self, rule: usize, place: usize) -> Option<Mark> {
        match self.spot(rule)? {
            Spot::SomeIn(bay) => bay.some_in(place),
            Spot::NotBoth(bay, pair) => bay.pair_at(pair)?.not_both(place),
        }
    }
}

// How many parts and rules the bays have together; nothing where there is no book of them.
#[tactic(auto, using(std::proofs::lemmas::Grind::common_steps, crate::specs::Proved::pairs_few))]
fn counts(widths: &[u16]) -> Option<(usize, usize)>
    ensures { result ≡ (if has_bay_book widths.now
        then Some (sum widths.now, rule_count widths.now)
        else None) }
{
    if widths.is_empty() {
        return None;
    }
    // Stays a for: a try_fold would carry both totals through a closure that is this body.
    let mut n = 0;
    let mut rules = 0;
    for width in widths {
        let width = usize::from(*width);
        if width == 0 || width > MOST_WIDTH || n + width > MOST_PARTS {
            return None;
        }
        let bay = Bay { from: n + 1, width };
        rules += bay.rules();
        n += width;
    }
    Some((n, rules))
}

//! Bays, the pairs of their parts, and where a rule stands.
ghost use Rattle.std.specs.Prelude.{◌≡◌, ◌+◌, ◌≤◌};
ghost use Rattle.std.specs.List.{slice_get};
ghost use Rattle.parts.specs.declared.limits.TheConstants.{MOST_PARTS, MOST_WIDTH};
ghost use Rattle.std.specs.Option.{option_map};
ghost use Rattle.parts.specs.Lists.{at_place};
ghost use Rattle.bays.specs.Meaning.{some_in, not_both, pairs, bay_count};

use parts::{Mark, Side};

// A bay of 1 to 20 parts, from one part on; its parts are at most 120.
#[derive(Clone, Copy)]
pub struct Bay {
    pub from: usize,
    pub width: usize,
    ghost in_range: { (1 ≤ width) × (width ≤ MOST_WIDTH) × (from + width ≤ MOST_PARTS + 1) },
}

// Two parts of a bay, the lower one first.
#[derive(Clone, Copy)]
pub struct Pair {
    pub low: usize,
    pub high: usize,
}

// A rule of a bay: that some part is in, or that one part of a pair is out.
// A pair is given by its number among the bay's, from 0.
#[derive(Clone, Copy)]
pub enum Spot {
    SomeIn(Bay),
    NotBoth(Bay, usize),
}

impl Bay {
    // How many rules the bay has: one, and one for each pair of its parts.
    #[tactic(auto, using(crate::proofs::Walks::pairs_counted))]
    pub fn rules(self) -> usize
        ensures { result ≡ bay_count self.width }
    {
        1 + self.width * (self.width - 1) / 2
    }

    // A mark of the rule that some part of the bay is in.
    #[tactic(auto, using(crate::proofs::Walks::mapped))]
    pub fn some_in(self, place: usize) -> Option<Mark>
        ensures { result ≡ at_place (some_in self.from self.width) place }
    {
        if place == 0 || place > self.width {
            return None;
        }
        Some(Mark {
            part: self.from + place - 1,
            side: Side::In,
        })
    }

    // The two parts of a pair, by its number among the bay's pairs, from 0.
    #[tactic(auto, using(std::proofs::lemmas::Bool::Decides::nat_tests, crate::proofs::Walks::pair_turn))]
    pub fn pair_at(self, number: usize) -> Option<Pair>
        ensures { option_map (λ p. not_both p.low p.high) result
            ≡ slice_get (pairs self.from self.width) number }
    {
        let end = self.from + self.width;
        // Stays a number that is counted down:
        // each part has fewer pairs than the one before, so no one step serves for all.
        let mut left = number;
        for low in self.from..end {
            let later = end - low - 1;
            if left < later {
                return Some(Pair {
                    low,
                    high: low + 1 + left,
                });
            }
            left -= later;
        }
        None
    }
}

impl Pair {
    // A mark of the rule that one of the two parts is out.
    pub fn not_both(self, place: usize) -> Option<Mark>
        ensures { result ≡ at_place (not_both self.low self.high) place }
    {
        let part = match place {
            1 => self.low,
            2 => self.high,
            _ => return None,
        };
        Some(Mark {
            part,
            side: Side::Out,
        })
    }
}

//! The picker of the lowest open part, out.
ghost use Rattle.std.specs.Prelude.{◌≡◌, ◌==◌, IsTrue, IsFalse, position, MatchResult};
ghost use Rattle.parts.specs.declared.refusal.Refusal.TheVariants.{NotAPicker};
ghost use Rattle.picker.specs.Meaning.{is_size};
ghost use Rattle.picker.specs.Lowest.{lowest_picks};

use crate::Picker;
use parts::limits::MOST_PARTS;
use parts::row::is_row;
use parts::{Mark, Refusal, Side};

/// Picks the lowest open part, out.
#[derive(Clone, Copy)]
pub struct Lowest {
    n: usize,
    ghost sized: { IsTrue (is_size n) },
}

impl Lowest {
    ghost use Rattle.picker.specs.Makes.{lowest_picker};

    /// A picker of n parts. Refused with 14 where n is 0 or above 120.
    pub fn new(n: usize) -> Result<Lowest, Refusal>
        ensures made { MatchResult result
            (λ _. IsTrue (is_size n))
            (λ _. IsFalse (is_size n)) }
        ensures value { MatchResult result
            (λ p. lowest_picker p ≡ lowest_picks n)
            (λ e. e ≡ NotAPicker) }
    {
        if n == 0 || n > MOST_PARTS {
            return Err(Refusal::NotAPicker);
        }
        Ok(Lowest { n })
    }
}

/// It answers each row of n codes that has an open part.
impl Picker for Lowest {
    ghost use Rattle.picker.specs.Makes.{lowest_picker};
    ghost use Rattle.picker.specs.Proved.{lowest_sound};

    ghost meaning = { lowest_picker };

    ghost sound = { λ p. lowest_sound p.n p.sized };

    fn n(&self) -> usize {
        self.n
    }

    #[tactic(auto, using(crate::specs::Proved::some_place))]
    fn pick(&self, row: &[u8]) -> Option<Mark> {
        if !is_row(row, self.n) {
            return None;
        }
        let place = first_open(row)?;
        Some(Mark {
            part: place + 1,
            side: Side::Out,
        })
    }
}

// Where the first open code stands, from 0.
fn first_open(row: &[u8]) -> Option<usize>
    ensures { result ≡ position (λ c. c == 0) row.now }
{
    row.iter().position(|code| *code == 0)
}

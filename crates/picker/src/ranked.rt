//! The picker of the first open mark of a ranked list.
ghost use Rattle.std.specs.Prelude.{◌≡◌, ◌≤◌, IsTrue, IsFalse, length, MatchResult};
ghost use Rattle.std.specs.List.{All};
ghost use Rattle.parts.specs.declared.refusal.Refusal.TheVariants.{NotAPicker};
ghost use Rattle.picker.specs.Ranking.{times, is_ranking, is_open, first_open, ranked_picks};

use crate::Picker;
use parts::limits::MOST_PARTS;
use parts::row::is_row;
use parts::{Mark, Refusal, Refused};

/// Picks the first open mark of a list that it owns, which names each part once.
#[derive(Drop)]
pub struct Ranked {
    list: Vec<Mark>,
    ghost ranked: { IsTrue (is_ranking list.items) },
}

impl Ranked {
    ghost use Rattle.picker.specs.Makes.{ranked_picker, list_of};

    /// A picker of as many parts as the list has marks.
    /// Refused with 14, and the list comes back, where it has no mark or more than 120,
    /// or does not name each part up to its length once.
    pub fn new(list: Vec<Mark>) -> Result<Ranked, Refused<Vec<Mark>>>
        ensures made { MatchResult result
            (λ _. IsTrue (is_ranking list.items))
            (λ _. IsFalse (is_ranking list.items)) }
        ensures value { MatchResult result
            (λ p. (ranked_picker p ≡ ranked_picks list.items) × (list_of p ≡ list))
            (λ e. e ≡ record { refusal = NotAPicker; back = list }) }
    {
        if !is_ranking(&list) {
            return Err(Refused {
                refusal: Refusal::NotAPicker,
                back: list,
            });
        }
        Ok(Ranked { list })
    }

    /// The list, as it was given.
    pub fn into_list(self) -> Vec<Mark>
        ensures { result ≡ list_of self }
    {
        self.list
    }
}

/// It answers each row of n codes that has an open part.
impl Picker for Ranked {
    ghost use Rattle.picker.specs.Makes.{ranked_picker};
    ghost use Rattle.picker.specs.Proved.{ranked_sound};

    ghost meaning = { ranked_picker };

    ghost sound = { λ p. ranked_sound p.list.items p.ranked };

    fn n(&self) -> usize {
        self.list.len()
    }

    #[tactic(auto, using(crate::specs::Proved::ranks_within, std::proofs::lemmas::Bool::Decides::nat_tests))]
    fn pick(&self, row: &[u8]) -> Option<Mark> {
        if !is_row(row, self.list.len()) {
            return None;
        }
        first_open(row, &self.list)
    }
}

// Whether the list is a ranking: not empty, not too long,
// and each part up to its length named once.
fn is_ranking(list: &[Mark]) -> bool
    ensures { result ≡ is_ranking list.now }
{
    let n = list.len();
    1 <= n && n <= MOST_PARTS && (1..n + 1).all(|part| times_named(list, part) == 1)
}

// How many marks of the list name the part.
fn times_named(list: &[Mark], part: usize) -> usize
    ensures { result ≡ times list.now part }
{
    list.iter().filter(|mark| mark.part == part).count()
}

// The first mark of the list whose part is open in the row.
fn first_open(row: &[u8], list: &[Mark]) -> Option<Mark>
    requires { All (λ m. (1 ≤ m.part) × (m.part ≤ length row.now)) list.now }
    ensures { result ≡ first_open row.now list.now }
{
    list.iter().find(|mark| is_open(row, mark.part)).copied()
}

// Whether the part is open in the row.
fn is_open(row: &[u8], part: usize) -> bool
    requires { (1 ≤ part) × (part ≤ length row.now) }
    ensures { result ≡ is_open row.now part }
{
    row[part - 1] == 0
}

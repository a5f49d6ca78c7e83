//! The holds: which parts must be in or out, in the order in which they were accepted.
ghost use Rattle.std.specs.Prelude.{◌≡◌, [], ◌∷◌, ◌++◌, if◌then◌else◌};
ghost use Rattle.parts.specs.Distinct.{names, can_hold, released};

use crate::limits::MOST_PARTS;
use crate::mark::Mark;
use arrayvec::ArrayVec;
use std::marker::Model;

/// The held marks (assumptions), in the order in which they were accepted; no part is held twice.
#[derive(Drop)]
pub struct Holds {
    order: ArrayVec<Mark, MOST_PARTS>,
}

/// Contracts see the list of the held marks, the earliest first.
impl Model for Holds {
    ghost use Rattle.std.specs.Prelude.{List, IsTrue};
    ghost use Rattle.parts.specs.declared.limits.TheConstants.{MOST_PARTS};
    ghost use Rattle.parts.specs.declared.mark.Mark.{Mark};
    ghost use Rattle.parts.specs.Distinct.{is_distinct};

    ghost Value = { List Mark };

    ghost view = { λ h. h.order.items };

    ghost invariant = { λ h. IsTrue (is_distinct MOST_PARTS h.order.items) };
}

impl Holds {
    /// Nothing is held.
    pub fn empty() -> Holds
        ensures { result ≡ [] }
    {
        Holds {
            order: ArrayVec::new(),
        }
    }

    /// The held marks, in the order in which they were accepted.
    pub fn marks(&self) -> &[Mark]
        ensures { result.now ≡ self.now }
    {
        &self.order
    }

    /// Whether a part is held.
    pub fn names(&self, part: usize) -> bool
        ensures { result ≡ names self.now part }
    {
        self.order.iter().any(|hold| hold.part == part)
    }

    /// Holds a mark whose part is from 1 to 120 and not held, and returns whether it was such.
    // Stays a bool, as the insertion into a set: there is no value to return beside it.
    #[tactic(auto, using(crate::proofs::DistinctLaws::is_distinct_push, crate::proofs::DistinctLaws::room))]
    pub fn add(&mut self, mark: Mark) -> bool
        ensures answer { result ≡ can_hold self.old mark }
        ensures after { self.new ≡ (if result then self.old ++ (mark ∷ []) else self.old) }
    {
        let free = (1..=MOST_PARTS).contains(&mark.part) && !self.names(mark.part);
        if free {
            self.order.push(mark);
        }
        free
    }

    /// A part is held no more; the others keep their order.
    pub fn remove(&mut self, part: usize)
        ensures { self.new ≡ released part self.old }
    {
        self.order.retain(|hold| hold.part != part);
    }
}

//! The trail: what is settled, in its order, and why.
#![tactic(auto)]

ghost use Rattle.std.specs.Prelude.{◌≡◌, ◌-◌, ◌≤◌, min, [], ◌∷◌, if◌then◌else◌, slice_index, IsTrue, IfSome};
ghost use Rattle.std.specs.List.{find};
ghost use Rattle.search.specs.Trail.{row as row_of, settled, reason_of, truth, is_crossed, reason_of_crossed, says_false, says_open};
ghost use Rattle.search.specs.Machine.{needed as is_needed};
ghost use Rattle.trail.specs.Settling.{can_settle, newest, older};

use arrayvec::ArrayVec;
use parts::limits::MOST_PARTS;
use parts::{Mark, Side};
use search::{Entry, Kind, Reason};
use std::marker::Model;

/// The settled parts of n, oldest first, and the row of their codes.
#[derive(Drop)]
pub struct Trail {
    n: usize,
    entries: ArrayVec<Entry, MOST_PARTS>,
    row: [u8; MOST_PARTS],
}

/// Contracts see n and the entries, the newest first.
impl Model for Trail {
    ghost use Rattle.std.specs.Prelude.{reverse};
    ghost use Rattle.trail.specs.Settling.{Settling, IsTrail};

    ghost Value = { Settling };

    ghost view = { λ t. record { n = t.n; entries = reverse t.entries.items } };

    ghost invariant = { λ t. IsTrail t.n (reverse t.entries.items) t.row };
}

impl Trail {
    /// A trail of n parts, or of 120 where n is above, with nothing settled.
    #[tactic(auto, unfolding(search::specs::Trail::row, search::specs::Trail::settled))]
    pub fn new(n: usize) -> Trail
        ensures { result ≡ record { n = min n MOST_PARTS; entries = [] } }
    {
        Trail {
            n: n.min(MOST_PARTS),
            entries: ArrayVec::new(),
            row: [0; MOST_PARTS],
        }
    }

    /// Takes every entry off.
    #[tactic(auto, unfolding(search::specs::Trail::row, search::specs::Trail::settled))]
    pub fn clear(&mut self)
        ensures { self.new ≡ record self.old { entries = [] } }
    {
        self.entries.clear();
        self.row = [0; MOST_PARTS];
    }

    /// The settled row: a code for each of the n parts.
    // Stays a row of bytes: pickers are shown it, and callers' rows are filled from it.
    #[tactic(auto, using(crate::proofs::Stacking::row_front, search::proofs::Settled::length_row))]
    pub fn row(&self) -> &[u8]
        ensures { result.now ≡ row_of self.now.n self.now.entries }
    {
        &self.row[..self.n]
    }

    // The code of a part; 0 where it is open, or is above n.
    fn code(&self, part: usize) -> u8
        ensures { result ≡ slice_index (row_of self.now.n self.now.entries) (part - 1) }
    {
        self.row().get(part.saturating_sub(1)).copied().unwrap_or(0)
    }

    /// The side on which a part is settled; nothing where it is open, or is no part.
    #[tactic(auto, using(std::proofs::lemmas::Grind::common_steps, search::proofs::Settled::length_row, search::proofs::Settled::row_at, crate::proofs::Stacking::open_outside))]
    pub fn settled(&self, part: usize) -> Option<Side>
        ensures { result ≡ settled self.now.entries part }
    {
        let code = *self.row.get(part.checked_sub(1)?)?;
        Side::try_from(u64::from(code)).ok()
    }

    /// Settles a part of the n that is open, and returns whether it was.
    // Stays a bool, as the insertion into a set: there is no value to return beside it.
    #[tactic(auto, using(std::proofs::lemmas::Grind::common_steps, crate::proofs::Stacking::grown, crate::proofs::Stacking::room))]
    pub fn settle(&mut self, mark: Mark, kind: Kind) -> bool
        ensures answer { result ≡ can_settle self.old mark }
        ensures after { self.new ≡ (if result
            then (record self.old {
              entries = record { mark = mark; kind = kind }
                  ∷ self.old.entries;
            })
            else self.old) }
    {
        if !self.can_settle(mark) {
            return false;
        }
        self.entries.push(Entry { mark, kind });
        self.row[mark.part - 1] = u8::from(mark.side);
        true
    }

    // Whether a mark may be settled.
    fn can_settle(&self, mark: Mark) -> bool
        ensures { result ≡ can_settle self.now mark }
    {
        (1..=self.n).contains(&mark.part) && self.settled(mark.part).is_none()
    }

    /// Takes the newest entry off, and returns it; nothing where nothing is settled.
    #[tactic(auto, using(std::proofs::lemmas::Grind::common_steps, crate::proofs::Stacking::popped, crate::proofs::Stacking::vacated))]
    pub fn pop(&mut self) -> Option<Entry>
        ensures value { result ≡ newest self.old.entries }
        ensures after { self.new ≡ record self.old { entries = older self.old.entries } }
        ensures vacant { IfSome result (λ e. IsTrue (can_settle self.new e.mark)) }
    {
        let entry = self.entries.pop()?;
        self.row[entry.mark.part - 1] = 0;
        Some(entry)
    }

    /// Whether a place is a reason on the trail.
    #[tactic(auto, unfolding(search::specs::Machine::needed))]
    pub fn needed(&self, place: usize) -> bool
        ensures { result ≡ is_needed self.now.entries place }
    {
        let by_place = Kind::Forced(Reason::Shelf(place));
        self.entries
            .iter()
            .rev()
            .any(|entry| entry.kind == by_place)
    }

    /// The reason of a part that is forced; nothing where it is not.
    #[tactic(auto, unfolding(search::specs::Trail::reason_of))]
    pub fn reason_of(&self, part: usize) -> Option<Reason>
        ensures { result ≡ reason_of self.now.entries part }
    {
        self.entries
            .iter()
            .rev()
            .find(|entry| entry.mark.part == part)
            .and_then(|entry| entry.kind.reason())
    }

    /// The reason of the earliest of the holds that is settled on the other side for a reason.
    pub fn crossed(&self, holds: &[Mark]) -> Option<Reason>
        ensures { result ≡ reason_of_crossed (row_of self.now.n self.now.entries)
            self.now.entries holds.now }
    {
        self.reason_of(self.first_crossed(holds)?.part)
    }

    // The first of the marks that is false for a reason.
    fn first_crossed(&self, marks: &[Mark]) -> Option<Mark>
        ensures { result ≡ find (is_crossed (row_of self.now.n self.now.entries)
            self.now.entries) marks.now }
    {
        marks.iter().copied().find(|mark| self.is_crossed(*mark))
    }

    // Whether a mark is false for a reason.
    fn is_crossed(&self, mark: Mark) -> bool
        ensures { result ≡ is_crossed (row_of self.now.n self.now.entries) self.now.entries mark }
    {
        self.is_false(mark) && self.reason_of(mark.part).is_some()
    }

    // Whether a mark is false.
    fn is_false(&self, mark: Mark) -> bool
        ensures { result ≡ says_false (truth (row_of self.now.n self.now.entries) mark) }
    {
        let code = self.code(mark.part);
        code != 0 && code != u8::from(mark.side)
    }

    /// The earliest of the holds whose part is open.
    pub fn first_open(&self, holds: &[Mark]) -> Option<Mark>
        ensures { result
            ≡ find (λ h. says_open (truth (row_of self.now.n self.now.entries) h)) holds.now }
    {
        holds.iter().copied().find(|hold| self.is_open(*hold))
    }

    /// Whether a mark is open: its part is not settled.
    pub fn is_open(&self, mark: Mark) -> bool
        ensures { result ≡ says_open (truth (row_of self.now.n self.now.entries) mark) }
    {
        self.code(mark.part) == 0
    }
}

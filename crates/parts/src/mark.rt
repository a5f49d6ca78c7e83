//! Marks: a part and the side that it is put on.
ghost use Rattle.std.specs.Prelude.{◌≡◌, ◌↔◌, IsTrue};
ghost use Rattle.parts.specs.declared.side.Side.TheVariants.{In};
ghost use Rattle.parts.specs.Marks.{mark_from, opposite_of};

use crate::side::Side;

/// A part (a variable), counted from 1, and the side that it is put on (together: a literal).
#[derive(Clone, Copy, Debug, PartialEq, Eq)]
pub struct Mark {
    pub part: usize,
    pub side: Side,
}

/// Part 1 in: no default makes a mark of a part that there is not.
impl Default for Mark {
    ghost is_default = { λ mark. mark ≡ record { part = 1; side = In } };

    fn default() -> Mark {
        Mark {
            part: 1,
            side: Side::In,
        }
    }
}

/// The mark that a signed number stands for: 7 is part 7 in, -7 is part 7 out.
impl From<i16> for Mark {
    ghost from_gives = { λ number mark. mark ≡ mark_from number };

    fn from(number: i16) -> Mark {
        Mark {
            part: usize::from(number.unsigned_abs()),
            side: if number < 0 { Side::Out } else { Side::In },
        }
    }
}

impl Mark {
    /// The mark of the same part on the other side (the literal's negation).
    pub fn opposite(self) -> Mark
        ensures { result ≡ opposite_of self }
    {
        Mark {
            part: self.part,
            side: self.side.opposite(),
        }
    }

    /// Whether two marks are the same in part and side, by `==`.
    pub fn is_same(&self, other: &Mark) -> bool
        ensures { IsTrue result ↔ (self.now ≡ other.now) }
    {
        self == other
    }
}

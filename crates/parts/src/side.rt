//! Sides: where a mark puts its part.
ghost use Rattle.std.specs.Prelude.{◌≡◌, Some};
ghost use Rattle.std.specs.Option.{ok_or};
ghost use Rattle.parts.specs.declared.refusal.Refusal.TheVariants.{NoSide};
ghost use Rattle.parts.specs.Codes.{code_of, side_of, side_text};
ghost use Rattle.parts.specs.Marks.{other_side};

use crate::refusal::Refusal;
use std::fmt;

/// Where a mark puts its part (the literal's sign), by its code in a row: 1 in, 2 out; 0 is left for an open part.
/// The default, as that of a mark, only fills what a table has not used yet.
#[derive(Clone, Copy, Debug, Default, PartialEq, Eq)]
pub enum Side {
    #[default]
    In = 1,
    Out = 2,
}

/// The code of a side.
impl From<Side> for u8 {
    ghost from_gives = { λ side code. code ≡ code_of side };

    fn from(side: Side) -> u8 {
        side as u8
    }
}

/// The side that a code stands for: 1 in, 2 out; refused with 18 for any other code.
impl TryFrom<u64> for Side {
    type Error = Refusal;

    ghost try_from_gives = { λ code side. side ≡ ok_or (side_of code) NoSide };

    fn try_from(code: u64) -> Result<Side, Refusal> {
        match code {
            1 => Ok(Side::In),
            2 => Ok(Side::Out),
            _ => Err(Refusal::NoSide),
        }
    }
}

/// `in` or `out`.
impl fmt::Display for Side {
    ghost output = { λ side. Some (side_text side) };

    fn fmt<W: fmt::Write>(&self, f: &mut fmt::Formatter<W>) -> fmt::Result {
        f.write_str(match self {
            Side::In => "in",
            Side::Out => "out",
        })
    }
}

impl Side {
    /// The side that this one is not.
    pub fn opposite(self) -> Side
        ensures { result ≡ other_side self }
    {
        match self {
            Side::In => Side::Out,
            Side::Out => Side::In,
        }
    }
}

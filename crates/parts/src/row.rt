//! Rows of codes: a code a part, 0 open or not named, 1 in, 2 out (a partial assignment, or a set of marks).
ghost use Rattle.std.specs.Prelude.{◌≡◌, ◌-◌, slice_set};
ghost use Rattle.parts.specs.Codes.{is_row};
ghost use Rattle.parts.specs.Rows.{names_mark, is_full};

use crate::mark::Mark;

/// Whether the codes are a row of n parts: n of them, and each 0, 1 or 2.
pub fn is_row(codes: &[u8], n: usize) -> bool
    ensures { result ≡ is_row n codes.now }
{
    codes.len() == n && codes.iter().all(|code| *code <= 2)
}

/// Whether no part of a row is open.
#[tactic(auto, using(crate::proofs::RowWords::none_open))]
pub fn is_full(row: &[u8]) -> bool
    ensures { result ≡ is_full row.now }
{
    !row.contains(&0)
}

/// Whether a row names a mark.
#[tactic(auto, unfolding(crate::specs::Rows::names_mark))]
pub fn names(row: &[u8], mark: Mark) -> bool
    ensures { result ≡ names_mark row.now mark }
{
    let Some(i) = mark.part.checked_sub(1) else {
        return false;
    };
    row.get(i).is_some_and(|code| *code == u8::from(mark.side))
}

/// Writes the code of a part into a row, if the row has that part; part 0, which no mark has, counts as part 1.
// Stays a code, 0 where the part is taken out: it is the byte that is written, and an Option of a side would be turned into it at each call.
pub fn write(row: &mut [u8], part: usize, code: u8)
    ensures { row.new ≡ slice_set row.old (part - 1) code }
{
    // Stays a test and an index: nothing is known of a row once a place that `get_mut` lent is written.
    let i = part.saturating_sub(1);
    if i < row.len() {
        row[i] = code;
    }
}

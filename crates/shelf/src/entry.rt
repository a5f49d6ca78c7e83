//! How a place of a shelf stands in its block of n + 1 entries:
//! what kind of entry they are, and how a row is written there and read.
ghost use Rattle.std.specs.Prelude.{◌≡◌, ℕ, ◌+◌, ◌-◌, ◌<◌, ◌≤◌, Bool, IsTrue, List, ◌∷◌, ◌++◌, length, drop, Some, None, Option, slice_index};
ghost use Rattle.std.specs.Option.{option_map, option_and_then};
ghost use Rattle.parts.specs.Codes.{is_row};
ghost use Rattle.parts.specs.Rows.{Row, row_marks};
ghost use Rattle.parts.specs.Lists.{at_place};
ghost use Rattle.shelf.specs.Meaning.{sound_place};
ghost use Rattle.shelf.specs.Table.{parts_of};

use parts::Mark;
use parts::limits::MOST_PARTS;

/// An entry of a shelf's table.
pub trait Entry: Copy {
    // what stands first in the block of an empty place
    ghost EMPTY: { Self };

    // the row of n codes in a block; nothing where the block is empty
    ghost row_in: { ℕ → List Self → Option Row };

    // whether a block is well formed for n parts;
    // only such blocks are read, and what stands in one is a row
    ghost formed: { ℕ → List Self → Bool };

    // the entries that a row is written as
    ghost block_of: { Row → List Self };

    ghost sound: { (n : ℕ) (block : List Self) → IsTrue (formed n block)
        → IsTrue (sound_place n (row_in n block)) };

    /// What stands first in the block of an empty place.
    const EMPTY: Self;

    /// The code of a block's row for a part; nothing where the block is empty.
    // Stays a fact that each answer asks for: a block is lent for one answer,
    // and a struct around it would be put on and off for each, so it would be no plainer.
    fn code(block: &[Self], part: usize) -> Option<u8>
        requires kept { IsTrue (formed (parts_of block.now) block.now) }
        requires there { (1 ≤ part) × (part < length block.now) }
        ensures { result ≡ option_map (λ row. slice_index row (part - 1))
            (row_in (parts_of block.now) block.now) };

    /// How many marks a block's row names; nothing where the block is empty.
    fn marks(block: &[Self]) -> Option<usize>
        requires kept { IsTrue (formed (parts_of block.now) block.now) }
        ensures { result ≡ option_map (λ row. length (row_marks row))
            (row_in (parts_of block.now) block.now) };

    /// The k-th mark of a block's row, by rising part; nothing where there is none.
    fn mark(block: &[Self], k: usize) -> Option<Mark>
        requires kept { IsTrue (formed (parts_of block.now) block.now) }
        ensures { result ≡ option_and_then (λ row. at_place (row_marks row) k)
            (row_in (parts_of block.now) block.now) };

    /// Writes a row into a block, whatever stood there;
    /// what stands after the row's entries stays.
    fn write_row(block: &mut [Self], row: &[u8])
        requires long { length block.old ≡ length row.now + 1 }
        requires row { IsTrue (is_row (length row.now) row.now) }
        requires few { length row.now ≤ MOST_PARTS }
        ensures row { row_in (length row.now) block.new ≡ Some row.now }
        ensures kept { IsTrue (formed (length row.now) block.new) }
        ensures entries { block.new
            ≡ block_of row.now ++ drop (length (block_of row.now)) block.old };

    // a block that begins so is empty and well formed, whatever stands after
    ghost reads_empty: { (n : ℕ) (rest : List Self) → row_in n (EMPTY ∷ rest) ≡ None };

    ghost empty_formed: { (n : ℕ) (rest : List Self) → IsTrue (formed n (EMPTY ∷ rest)) };

    // a copy of it is made without fail, and is the same
    ghost copied: { Self.is_infallible EMPTY
        × ((other : Self) → Self.is_clone EMPTY other → other ≡ EMPTY) };
}

//! A shelf as a grid of codes: for each place a byte that is 0 where it is empty, and then n codes.
ghost use Rattle.std.specs.Prelude.{◌≡◌, ◌<◌, length, Some, None, refl, MatchOption};
ghost use Rattle.shelf.specs.Grid.{read_codes, formed_codes, grid_block};

use crate::entry::Entry;
use crate::table::TableShelf;
use parts::{Mark, Side};

/// A shelf over a table of bytes that it owns.
pub type GridShelf = TableShelf<u8>;

// What stands before a row's codes.
// Stays a flag byte: it is the layout of the table that a caller hands in.
const FULL: u8 = 1;

impl Entry for u8 {
    ghost EMPTY = { 0 };

    ghost row_in = { λ n block. read_codes block };

    ghost formed = { formed_codes };

    ghost block_of = { grid_block };

    ghost sound = { λ n block h. h };

    const EMPTY: u8 = 0;

    fn code(block: &[u8], part: usize) -> Option<u8> {
        if block[0] == u8::EMPTY {
            return None;
        }
        Some(block[part])
    }

    fn marks(block: &[u8]) -> Option<usize> {
        // Stays a loop: counted by a chain of iterators, a full grid takes a sixth longer.
        // The walk that every shelf has asks for each code by place and part.
        let row = codes(block)?;
        let mut marks = 0;
        for code in row {
            if *code != 0 {
                marks += 1;
            }
        }
        Some(marks)
    }

    fn mark(block: &[u8], k: usize) -> Option<Mark> {
        // Stays a loop: through a chain of iterators the answer takes a third longer. It stays
        // beside the walk that every shelf has, which asks for each code by place and part.
        let row = codes(block)?;
        let mut left = k;
        for (i, code) in row.iter().enumerate() {
            if let Ok(side) = Side::try_from(u64::from(*code)) {
                if left == 1 {
                    return Some(Mark { part: i + 1, side });
                }
                left = left.saturating_sub(1);
            }
        }
        None
    }

    fn write_row(block: &mut [u8], row: &[u8]) {
        block[1..].copy_from_slice(row);
        block[0] = FULL;
    }

    ghost reads_empty = { λ n rest. refl };

    ghost empty_formed = { λ n rest. refl };

    ghost copied = { (tt, λ other h. h) };
}

// The codes in a block; nothing where the block is empty.
fn codes(block: &[u8]) -> Option<&[u8]>
    ensures { MatchOption result
        (read_codes block.now ≡ None)
        (λ codes. (read_codes block.now ≡ Some codes.now) × (length codes.now < length block.now)) }
{
    let (head, codes) = block.split_first()?;
    if *head == u8::EMPTY {
        return None;
    }
    Some(codes)
}

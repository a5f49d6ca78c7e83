//! A shelf as lists of marks: for each place a number that is 0 where it is empty,
//! else 1 more than how many marks its row names, and then these marks, by rising part.
ghost use Rattle.std.specs.Prelude.{◌≡◌, ◌+◌, ◌≤◌, ℕ, map, length, slice_index, refl, MatchOption};
ghost use Rattle.shelf.specs.Listed.{entry_of, mark_of_entry, block_marks, code_in, formed_marks, list_block, read_marks};
ghost use Rattle.shelf.specs.Proved.{list_sound, zero_formed};

use crate::entry::Entry;
use crate::table::TableShelf;
use parts::limits::MOST_PARTS;
use parts::{Mark, Side};

/// A shelf over a table of numbers that it owns.
pub type ListShelf = TableShelf<u16>;

impl Entry for u16 {
    ghost EMPTY = { 0 };

    ghost row_in = { read_marks };

    ghost formed = { formed_marks };

    ghost block_of = { list_block };

    ghost sound = { λ n block h. list_sound n block };

    const EMPTY: u16 = 0;

    #[tactic(auto, using(crate::proofs::Marks::code_at_part, std::proofs::lemmas::Bool::Decides::nat_tests))]
    fn code(block: &[u16], part: usize) -> Option<u8> {
        Some(code_in(numbers(block)?, part))
    }

    #[tactic(auto, using(crate::proofs::Marks::marks_back, std::proofs::lemmas::Grind::common_steps, std::proofs::lemmas::Bool::Decides::nat_tests))]
    fn marks(block: &[u16]) -> Option<usize> {
        Some(numbers(block)?.len())
    }

    #[tactic(auto, using(crate::proofs::Marks::marks_back, crate::proofs::Marks::mapped, std::proofs::lemmas::Bool::Decides::nat_tests))]
    fn mark(block: &[u16], k: usize) -> Option<Mark> {
        let number = numbers(block)?.get(k.checked_sub(1)?)?;
        Some(mark_of_entry(*number))
    }

    // Stays a count of its own: it says where each mark goes, and in the end it is the block's
    // first entry; a filtered chain would have to be counted once more.
    #[tactic(auto, using(crate::proofs::Marks::marks_push, crate::proofs::Marks::entries_back, crate::proofs::Marks::codes_back, crate::proofs::Marks::marks_rise, std::proofs::lemmas::Bool::Decides::nat_tests, std::proofs::lemmas::Grind::common_steps))]
    fn write_row(block: &mut [u16], row: &[u8]) {
        let mut head = 1;
        for (i, code) in row.iter().enumerate() {
            if let Ok(side) = Side::try_from(u64::from(*code)) {
                block[head] = entry_of(Mark { part: i + 1, side });
                head += 1;
            }
        }
        block[0] = head as u16;
    }

    ghost reads_empty = { λ n rest. refl };

    ghost empty_formed = { zero_formed };

    ghost copied = { (tt, λ other h. h) };
}

// The numbers of a block's marks; nothing where the block is empty.
fn numbers(block: &[u16]) -> Option<&[u16]>
    requires { slice_index block.now 0 ≤ length block.now }
    ensures { MatchOption result
        (slice_index block.now 0 ≡ 0)
        (λ r. (1 ≤ slice_index block.now 0) × (map mark_of_entry r.now ≡ block_marks block.now)) }
{
    let (head, rest) = block.split_first()?;
    let marks = usize::from(*head).checked_sub(1)?;
    Some(&rest[..marks])
}

// A mark as a number: twice its part, and 1 more where it is out.
// Stays a function, and so does the way back: entries are bare numbers of a caller's table,
// and a type for them would be put on and off at each use.
fn entry_of(mark: Mark) -> u16
    requires { mark.part ≤ MOST_PARTS }
    ensures { result ≡ entry_of mark }
{
    let twice = mark.part as u16 * 2;
    match mark.side {
        Side::In => twice,
        Side::Out => twice + 1,
    }
}

// The mark that a number stands for.
fn mark_of_entry(entry: u16) -> Mark
    ensures { result ≡ mark_of_entry entry }
{
    let part = usize::from(entry / 2);
    let side = if entry % 2 == 0 { Side::In } else { Side::Out };
    Mark { part, side }
}

// The code that marks give a part: 0 where none names it.
// Stays a code: it is the byte that the row has for the part, and 0 is one.
fn code_in(numbers: &[u16], part: usize) -> u8
    ensures { result ≡ code_in (map mark_of_entry numbers.now) part }
{
    numbers
        .iter()
        .map(|number| mark_of_entry(*number))
        .find(|mark| mark.part == part)
        .map_or(0, |mark| u8::from(mark.side))
}

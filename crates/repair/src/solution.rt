//! The solution of a book under holds.
ghost use Rattle.std.specs.Prelude.{◌≡◌, ◌≤◌, IsTrue, length};
ghost use Rattle.parts.specs.Distinct.{is_distinct};
ghost use Rattle.shelf.specs.Table.{entries_of};
ghost use Rattle.repair.specs.Promise.{SolvedUnder, blank};

use book::Book;
use parts::Mark;
use parts::limits::{MOST_BUDGET, MOST_TABLE_PLACES};
use picker::Lowest;
use search::{Forgetting, Report};
use session::solve;
use shelf::ListShelf;

/// What the search reports, and the row that it filled: with a choice that fits, or with the holds that leave none.
#[derive(Drop)]
pub struct Solution {
    pub report: Report,
    pub row: Vec<u8>,
}

// Searches for a choice of a book under holds: the lowest open part first, all lessons kept on a shelf of lists over the table, one run.
// The row is filled with what the verdict shows.
pub(crate) fn solve_under<B: Book + Drop>(
    book: B,
    table: Vec<u16>,
    row: Vec<u8>,
    holds: &[Mark],
) -> Solution
    requires room { entries_of (B.meaning book).n MOST_TABLE_PLACES ≤ length table.items }
    requires blank { row.items ≡ blank (B.meaning book).n }
    requires held { IsTrue (is_distinct (B.meaning book).n holds.now) }
    ensures { SolvedUnder (B.meaning book) holds.now result }
{
    let n = book.n();
    let Ok(picker) = Lowest::new(n) else {
        unreachable();
    };
    let Ok(shelf) = ListShelf::new(n, MOST_TABLE_PLACES, table) else {
        unreachable();
    };
    let mut row = row;
    let solved = solve(
        book,
        picker,
        shelf,
        Forgetting::KeepAll,
        holds,
        MOST_BUDGET,
        &mut row,
    );
    let Ok(report) = solved.reply else {
        unreachable();
    };
    Solution { report, row }
}

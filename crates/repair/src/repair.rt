//! A repair, from its two texts.
ghost use Rattle.std.specs.Prelude.{◌≤◌, length};
ghost use Rattle.parts.specs.declared.limits.TheConstants.{MOST_PARTS};

use crate::solution::{Solution, solve_under};
use crate::workspace::Workspace;
use book::Book;
use parts::Fault;
use reading::load_over;
use sheet::Sheet;

/// A sheet, and the solution of its book under its holds.
#[derive(Drop)]
pub struct Repair<'a> {
    pub sheet: Sheet<'a>,
    pub solution: Solution,
    ghost few: { length sheet.names ≤ MOST_PARTS },
}

impl<'a> Repair<'a> {
    ghost use Rattle.std.specs.Prelude.{MatchResult};
    ghost use Rattle.repair.specs.Promise.{Repaired, Refused};

    /// Reads a book and a sheet of its parts, and searches for a choice under the sheet's holds.
    /// Refused as the book's text is, else as the sheet is; there is no other way out.
    pub fn of(workspace: Workspace, text: &[u8], sheet: &'a [u8]) -> Result<Repair<'a>, Fault>
        ensures { MatchResult result (Repaired text.now sheet.now) (Refused text.now sheet.now) }
    {
        let Workspace {
            tables,
            shelf,
            mut row,
        } = workspace;
        let book = match load_over(tables, text) {
            Ok(book) => book,
            Err(refused) => return Err(refused.fault),
        };
        let sheet = Sheet::read(sheet, &book)?;
        row.truncate(book.n());
        let solution = solve_under(book, shelf, row, sheet.holds());
        Ok(Repair { sheet, solution })
    }
}

//! How a repair is printed, or a refusal.
ghost use Rattle.std.specs.Prelude.{◌≡◌, ◌+◌, ◌*◌, ◌++◌, ◌≤◌, [], length, map};
ghost use Rattle.std.specs.Option.{option_map, unwrap_or};
ghost use Rattle.arrayvec.specs.ArrayString.{array_string_len};
ghost use Rattle.parts.specs.Codes.{side_text};
ghost use Rattle.parts.specs.Numbers.{fault_text};
ghost use Rattle.search.specs.Words.{answer_text};
ghost use Rattle.sheet.specs.Views.{name_of};
ghost use Rattle.repair.specs.declared.page.TheConstants.{PAGE_BYTES, LINE_BYTES, FRONT_BYTES};
ghost use Rattle.repair.specs.Printing.{report_text, side_line, part_text, parts_text, word_text, refused_text};
ghost use Rattle.repair.specs.Fitting.{fit_text};

use crate::page::{FRONT_BYTES, LINE_BYTES, PAGE_BYTES, Page, put_number};
use crate::repair::Repair;
use crate::workspace::Workspace;
use parts::{Fault, Side};
use search::{Answer, Report};
use sheet::Name;

/// The whole text that is printed of the bytes of a book's file and of a sheet's: the repair, or the
/// first refusal. A file that is not there counts as empty.
#[tactic(auto, using(crate::proofs::Fitted::repaired_is, crate::proofs::Fitted::refused_is))]
pub fn fit_text(workspace: Workspace, book: Option<&[u8]>, sheet: Option<&[u8]>) -> Page
    ensures { result.bytes ≡ fit_text
        (option_map (λ b. b.now) book.entry) (option_map (λ s. s.now) sheet.entry) }
{
    match Repair::of(workspace, bytes_or_none(book), bytes_or_none(sheet)) {
        Ok(repair) => repair.text(),
        Err(fault) => refused_text(fault),
    }
}

// The bytes of a file; none where it is not there.
fn bytes_or_none(file: Option<&[u8]>) -> &[u8]
    ensures { result.now ≡ unwrap_or (option_map (λ b. b.now) file.entry) [] }
{
    match file {
        Some(bytes) => bytes,
        None => b"",
    }
}

impl Repair<'_> {
    ghost use Rattle.repair.specs.Printing.{repair_text};

    /// Verdict, steps and turns, a line each; then a line for each part that the row names.
    pub fn text(&self) -> Page
        ensures { result.bytes ≡ repair_text self.now }
    {
        let report = self.solution.report;
        let mut page = Page::new();
        put_report(&mut page, report);
        put_parts(
            &mut page,
            word(report.answer),
            &self.solution.row,
            self.sheet.names(),
        );
        page
    }
}

// The line of a refusal.
fn refused_text(fault: Fault) -> Page
    ensures { result.bytes ≡ refused_text fault }
{
    let mut page = Page::new();
    page.push_str("refused\t");
    put_number(&mut page, usize::from(u8::from(fault.refusal)));
    page.push_str("\t");
    put_number(&mut page, fault.byte);
    page.push_str("\t");
    put_number(&mut page, fault.rule);
    page.push_str("\n");
    page
}

// The lines of a report.
fn put_report(page: &mut Page, report: Report)
    requires { array_string_len page.old + FRONT_BYTES ≤ PAGE_BYTES }
    ensures text { page.new.bytes ≡ page.old.bytes ++ report_text report }
    ensures short { array_string_len page.new ≤ array_string_len page.old + FRONT_BYTES }
{
    page.push_str("verdict\t");
    page.push_str(answer_word(report.answer));
    page.push_str("\nsteps\t");
    put_number(page, report.steps);
    page.push_str("\nturns\t");
    put_number(page, report.turns);
    page.push_str("\n");
}

// The lines of the parts that a row names, by rising part.
fn put_parts(page: &mut Page, word: &str, row: &[u8], names: &[Name<'_>])
    requires word { length word.now ≤ 4 }
    requires room { array_string_len page.old + LINE_BYTES * length names.now ≤ PAGE_BYTES }
    ensures { page.new.bytes
        ≡ page.old.bytes ++ parts_text word.now row.now 0 (map name_of names.now) }
{
    for (i, name) in names.iter().enumerate() {
        let code = row.get(i).copied().unwrap_or(0);
        put_part(page, word, i + 1, code, *name);
    }
}

// The line of a part that a row names; nothing for a part that it does not name.
fn put_part(page: &mut Page, word: &str, part: usize, code: u8, name: Name<'_>)
    requires word { length word.now ≤ 4 }
    requires room { array_string_len page.old + LINE_BYTES ≤ PAGE_BYTES }
    ensures text { page.new.bytes
        ≡ page.old.bytes ++ part_text word.now part code name.entry.text.now }
    ensures short { array_string_len page.new ≤ array_string_len page.old + LINE_BYTES }
{
    if let Ok(side) = Side::try_from(u64::from(code)) {
        put_line(page, word, part, side, name);
    }
}

// Word, number, side and name.
#[tactic(auto, using(std::proofs::lemmas::Bool::Decides::nat_tests))]
fn put_line(page: &mut Page, word: &str, part: usize, side: Side, name: Name<'_>)
    requires word { length word.now ≤ 4 }
    requires room { array_string_len page.old + LINE_BYTES ≤ PAGE_BYTES }
    ensures text { page.new.bytes
        ≡ page.old.bytes ++ side_line word.now part name.entry.text.now side }
    ensures short { array_string_len page.new ≤ array_string_len page.old + LINE_BYTES }
{
    page.push_str(word);
    page.push_str("\t");
    put_number(page, part);
    page.push_str("\t");
    page.push_str(side_word(side));
    page.push_str("\t");
    page.push_str(name.text);
    page.push_str("\n");
}

// What begins the line of a part.
fn word(answer: Answer) -> &'static str
    ensures text { result.now ≡ word_text answer }
    ensures short { length result.now ≤ 4 }
{
    match answer {
        Answer::Fits => "part",
        Answer::NoneFits | Answer::Spent => "held",
    }
}

// An answer in a word, as `Display` has it.
fn answer_word(answer: Answer) -> &'static str
    ensures text { result.now ≡ answer_text answer }
    ensures short { length result.now ≤ 5 }
{
    match answer {
        Answer::Fits => "fits",
        Answer::NoneFits => "none",
        Answer::Spent => "spent",
    }
}

// A side in a word, as `Display` has it.
fn side_word(side: Side) -> &'static str
    ensures text { result.now ≡ side_text side }
    ensures short { length result.now ≤ 3 }
{
    match side {
        Side::In => "in",
        Side::Out => "out",
    }
}

//! The first pass of a reading: it judges the text field by field, and touches no table.
ghost use Rattle.std.specs.Prelude.{◌≡◌, ◌+◌, ◌<◌, ◌≤◌, true, [], length, slice_set, Err, IfOk, MatchResult};
ghost use Rattle.parts.specs.declared.limits.TheConstants.{MOST_PARTS, MOST_TEXT_MARKS};
ghost use Rattle.reading.specs.declared.checking.TheConstants.{MOST_FLAGS};
ghost use Rattle.text.specs.Numbers.{signed as signed_in};
ghost use Rattle.text.specs.Views.{piece_of, fields_left};
ghost use Rattle.book.specs.Meaning.{Rule};
ghost use Rattle.grammar.specs.Reading.{counted, is_table_full, number_or_fault, ended_rule, rule_of, rules_of};
ghost use Rattle.reading.specs.Checks.{count_or_fault, done_or_fault};

use crate::counted::{CountedLines, counted_fields};
use crate::head::Head;
use grammar::{Room, RuleStart};
use parts::limits::{MOST_PARTS, MOST_TEXT_MARKS};
use parts::{Fault, Refusal};
use text::{Fields, Piece, signed};

// A flag for each part, and for the 0 that ends a rule.
pub(crate) const MOST_FLAGS: usize = MOST_PARTS + 1;

// A rule while its line is read: the room that the tables have, what is known where its line
// starts, which parts it has named so far, and how many marks that is.
// Stays a table by part, with which a text of 124 long rules takes 2.3 ms, as ever: with a search
// in the list of its marks it took 3.4.
#[derive(Drop)]
pub(crate) struct OpenRule {
    room: Room,
    start: RuleStart,
    named: [bool; MOST_FLAGS],
    count: usize,
    ghost few: { room.n ≤ MOST_PARTS },
    ghost fits: { start.used + count ≤ MOST_TEXT_MARKS },
    ghost long: { length named ≡ MOST_FLAGS },
}

impl OpenRule {
    ghost use Rattle.reading.specs.Named.{HasNamed};

    // Whether a field finds no entry left: a rule's first field in the table of ends, a mark in the
    // table of marks.
    fn is_table_full(&self, number: i32) -> bool
        ensures { (marks : Rule) → HasNamed self.now marks →
            result ≡ is_table_full self.now.room self.now.start marks number }
    {
        if self.count == 0 && self.start.rule > self.room.ends {
            return true;
        }
        number != 0 && self.start.used + self.count >= self.room.marks.min(MOST_TEXT_MARKS)
    }

    // The number of the rule's next field, or the first fault that applies to it.
    fn check_field(&self, field: Piece<'_>) -> Result<i32, Fault>
        ensures { (marks : Rule) → HasNamed self.now marks → result ≡ number_or_fault
            self.now.room self.now.start marks field.entry.at (signed_in field.entry.bytes.now) }
    {
        let byte = field.at;
        let Some(number) = signed(field.bytes) else {
            return Err(Fault::new(Refusal::MalformedRule, byte, self.start.rule));
        };
        let part = number.unsigned_abs() as usize;
        if part > self.room.n {
            return Err(Fault::new(Refusal::PartAboveN, byte, self.start.rule));
        }
        if self.named[part] {
            return Err(Fault::new(Refusal::PartNamedTwice, byte, self.start.rule));
        }
        if self.is_table_full(number) {
            return Err(Fault::new(Refusal::TableFull, byte, self.start.rule));
        }
        Ok(number)
    }

    // One part more, which the rule may name.
    fn add(&mut self, part: usize)
        requires { (part ≤ MOST_PARTS) × (self.old.start.used + self.old.count < MOST_TEXT_MARKS) }
        ensures named { self.new.named ≡ slice_set self.old.named part true }
        ensures count { self.new.count ≡ self.old.count + 1 }
        ensures same { (self.new.room ≡ self.old.room) × (self.new.start ≡ self.old.start) }
    {
        self.named[part] = true;
        self.count += 1;
    }

    // How many marks the rule has; nothing may follow its 0 on the line.
    fn close(&self, after: Fields<'_>) -> Result<usize, Fault>
        ensures { (marks : Rule) → HasNamed self.now marks →
            result ≡ count_or_fault (ended_rule self.now.start marks (fields_left after.entry)) }
    {
        let mut left = after;
        match left.next() {
            None => Ok(self.count),
            Some(field) => Err(Fault::new(Refusal::MalformedRule, field.at, self.start.rule)),
        }
    }
}

// How many marks the rule on the line has, or its first fault.
fn check_rule(line: Piece<'_>, room: Room, start: RuleStart) -> Result<usize, Fault>
    requires { (room.n ≤ MOST_PARTS) × (start.used ≤ MOST_TEXT_MARKS) }
    ensures value { result ≡ count_or_fault
        (rule_of room start [] (counted (piece_of line.entry))) }
    ensures few { IfOk result (λ count. start.used + count ≤ MOST_TEXT_MARKS) }
{
    let mut open = OpenRule {
        room,
        start,
        named: [false; MOST_FLAGS],
        count: 0,
    };
    let mut fields = counted_fields(line);
    while let Some(field) = fields.next() {
        let number = open.check_field(field)?;
        if number == 0 {
            return open.close(fields);
        }
        open.add(number.unsigned_abs() as usize);
    }
    Err(Fault::new(Refusal::MalformedRule, start.end, start.rule))
}

impl<'a> Head<'a> {
    ghost use Rattle.reading.specs.Counted.{lines_left, text_end};
    ghost use Rattle.reading.specs.Rests.{Leaves};

    // Judges a line for each rule, and returns the lines after them.
    fn check_lines(&self, room: Room) -> Result<CountedLines<'a>, Fault>
        requires { room.n ≤ MOST_PARTS }
        ensures { MatchResult result (Leaves self.now room) (λ e. Err e ≡ done_or_fault (rules_of
            room (text_end self.now.rules) self.now.size.m 0 0 (lines_left self.now.rules))) }
    {
        // Stays a for: the lines that are left go along with the total, and are what is returned.
        let mut lines = self.rules;
        let mut used = 0;
        for done in 0..self.size.m {
            let rule = done + 1;
            let Some(line) = lines.next() else {
                return Err(Fault::new(Refusal::RuleCount, self.rules.end(), rule));
            };
            let start = RuleStart {
                rule,
                used,
                end: line.end(),
            };
            used += check_rule(line, room, start)?;
        }
        Ok(lines)
    }

    // Judges the lines after the head, for tables of so many marks and ends: a line for each rule,
    // and nothing more that counts.
    pub(crate) fn check_rules(&self, marks: usize, ends: usize) -> Result<(), Fault>
        ensures { result ≡ done_or_fault (rules_of
            (record { n = self.now.size.n; marks = marks; ends = ends })
            (text_end self.now.rules) self.now.size.m 0 0 (lines_left self.now.rules)) }
    {
        let room = Room {
            n: self.size.n,
            marks,
            ends,
        };
        let mut after = self.check_lines(room)?;
        let Some(line) = after.next() else {
            return Ok(());
        };
        match counted_fields(line).next() {
            None => Ok(()),
            Some(field) => Err(Fault::new(Refusal::RuleCount, field.at, self.size.m + 1)),
        }
    }
}

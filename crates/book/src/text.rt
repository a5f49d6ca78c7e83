//! A book over two tables: marks as signed numbers, and where each rule's marks end.
ghost use Rattle.std.specs.Prelude.{◌≡◌, ◌≤◌, IsTrue, IsFalse, ◌∷◌, map, length, slice_index, MatchResult};
ghost use Rattle.std.specs.Option.{option_map};
ghost use Rattle.parts.specs.declared.refusal.Refusal.TheVariants.{NotABook};
ghost use Rattle.parts.specs.Distinct.{names};
ghost use Rattle.parts.specs.Lists.{at_place};
ghost use Rattle.parts.specs.Marks.{mark_from};
ghost use Rattle.book.specs.Meaning.{sound_rule, sound_rules};
ghost use Rattle.book.specs.Tables.{cut, rising, marks_limit, has_book, book_in};

use crate::Book;
use parts::limits::{MOST_PARTS, MOST_TEXT_MARKS, MOST_TEXT_RULES};
use parts::{Mark, Refusal, Refused};

/// The two tables of a book.
// Stays two tables of numbers: callers fill them and take them back, so their layout is promised.
#[derive(Drop)]
pub struct Tables {
    pub marks: Vec<i16>,
    pub ends: Vec<u16>,
}

/// A book over two tables that it owns.
#[derive(Drop)]
pub struct TextBook {
    n: usize,
    // Stays a count beside the table of ends: the entries after these are the caller's, and come back as they were.
    rules: usize,
    tables: Tables,
    ghost whole: { IsTrue (has_book n rules tables.marks.items tables.ends.items) },
}

impl TextBook {
    ghost use Rattle.book.specs.Makes.{tables_of, text_book};

    /// A book of n parts over the tables, its rules cut by the first ends; what stands after them is never read.
    /// Refused with 10, and the tables come back, where they have no such book.
    pub fn new(n: usize, rules: usize, tables: Tables) -> Result<TextBook, Refused<Tables>>
        ensures made { MatchResult result
            (λ _. IsTrue (has_book n rules tables.marks.items tables.ends.items))
            (λ _. IsFalse (has_book n rules tables.marks.items tables.ends.items)) }
        ensures value { MatchResult result
            (λ b. (text_book b ≡ book_in n rules tables.marks.items tables.ends.items)
            × (tables_of b ≡ tables))
            (λ e. e ≡ record { refusal = NotABook; back = tables }) }
    {
        if !has_book(n, rules, &tables) {
            return Err(Refused {
                refusal: Refusal::NotABook,
                back: tables,
            });
        }
        Ok(TextBook { n, rules, tables })
    }

    /// The two tables, as they were given.
    pub fn into_tables(self) -> Tables
        ensures { result ≡ tables_of self }
    {
        self.tables
    }

    // The marks of a rule, as they stand in the table; nothing where there is no such rule.
    #[tactic(auto, using(crate::proofs::Spans::cut_at, crate::proofs::Spans::no_rule))]
    fn numbers(&self, rule: usize) -> Option<&[i16]>
        ensures { option_map (λ numbers. map mark_from numbers.now) result
            ≡ at_place (text_book self.now).rules rule }
    {
        if rule == 0 || rule > self.rules {
            return None;
        }
        Some(&self.tables.marks[self.end_after(rule - 1)..self.end_after(rule)])
    }

    // Where the marks of the first rules end in the table.
    fn end_after(&self, rules: usize) -> usize
        requires { rules ≤ self.now.rules }
        ensures { result ≡ slice_index (0 ∷ self.now.tables.ends.items) rules }
    {
        if rules == 0 {
            0
        } else {
            usize::from(self.tables.ends[rules - 1])
        }
    }
}

/// The book's rules are cut from the marks by the ends; each answer is one look-up.
impl Book for TextBook {
    ghost use Rattle.book.specs.Makes.{text_book};
    ghost use Rattle.book.specs.Proved.{book_in_sound};

    ghost meaning = { text_book };

    ghost sound = { λ b. book_in_sound b.n b.rules b.tables.marks.items b.tables.ends.items b.whole };

    fn n(&self) -> usize {
        self.n
    }

    #[tactic(auto, using(crate::proofs::Spans::rules_counted))]
    fn rules(&self) -> usize {
        self.rules
    }

    fn marks(&self, rule: usize) -> Option<usize> {
        Some(self.numbers(rule)?.len())
    }

    fn mark(&self, rule: usize, place: usize) -> Option<Mark> {
        let number = self.numbers(rule)?.get(place.checked_sub(1)?)?;
        Some(Mark::from(*number))
    }
}

// Whether the tables have a book of n parts and so many rules.
fn has_book(n: usize, rules: usize, tables: &Tables) -> bool
    ensures { result ≡ has_book n rules tables.now.marks.items tables.now.ends.items }
{
    if n == 0 || n > MOST_PARTS || rules > MOST_TEXT_RULES || rules > tables.ends.len() {
        return false;
    }
    let marks = &tables.marks;
    let used = &tables.ends[..rules];
    ends_rise(used, MOST_TEXT_MARKS.min(marks.len())) && rules_sound(n, marks, used)
}

// Whether no end falls below the one before, and none passes the limit.
fn ends_rise(ends: &[u16], limit: usize) -> bool
    ensures { result ≡ rising limit 0 ends.now }
{
    ends.is_sorted() && ends.last().is_none_or(|end| usize::from(*end) <= limit)
}

// Whether each rule that the ends cut from the marks is sound.
#[tactic(auto, using(crate::proofs::Spans::rising_more, crate::proofs::Spans::rules_drop))]
fn rules_sound(n: usize, marks: &[i16], ends: &[u16]) -> bool
    requires { IsTrue (rising (marks_limit (length marks.now)) 0 ends.now) }
    ensures { result ≡ sound_rules n (cut 0 ends.now (map mark_from marks.now)) }
{
    // Stays a for: an `all` would carry in its closure where each rule begins.
    let mut from = 0;
    for end in ends {
        let to = usize::from(*end);
        if !rule_sound(n, &marks[from..to]) {
            return false;
        }
        from = to;
    }
    true
}

// Whether each part of a rule is from 1 to n, and none is named twice.
fn rule_sound(n: usize, marks: &[i16]) -> bool
    ensures { result ≡ sound_rule n (map mark_from marks.now) }
{
    let mut rest = marks;
    while let Some((number, later)) = rest.split_first() {
        let part = Mark::from(*number).part;
        if part == 0 || part > n || names_part(later, part) {
            return false;
        }
        rest = later;
    }
    true
}

// Whether one of the marks names the part.
fn names_part(marks: &[i16], part: usize) -> bool
    ensures { result ≡ names (map mark_from marks.now) part }
{
    marks
        .iter()
        .map(|number| Mark::from(*number))
        .any(|mark| mark.part == part)
}

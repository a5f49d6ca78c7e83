//! Finding the first broken rule of a list under a settled row, else the first pressing one.
#![tactic(auto)]

ghost use Rattle.std.specs.Prelude.{◌≡◌, ◌+◌, ◌≤◌, length, drop, IfSome, IfNone, IsSome, ◌↔◌};
ghost use Rattle.scan.specs.Scanning.{first_in, broken_in};

use parts::Mark;
use rules::RuleList;

/// What a scan finds: the first broken rule, else the first pressing one with its open mark, else nothing.
#[derive(Clone, Copy)]
pub enum Scanned {
    Broken(usize),
    Pressing(usize, Mark),
    Quiet,
}

/// A list of rules under a settled row that has a code for each part of theirs.
#[derive(Drop)]
pub struct Scan<'a, R: RuleList> {
    rules: &'a R,
    row: &'a [u8],
    ghost wide: { (R.listed rules.now).n ≤ length row.now },
}

impl<'a, R: RuleList> Scan<'a, R> {
    ghost use Rattle.scan.specs.Under.{rules_of, row_of};

    /// The rules under the row; nothing where the row has fewer codes than the rules have parts.
    pub fn new(rules: &'a R, row: &'a [u8]) -> Option<Scan<'a, R>>
        ensures wide { IsSome result ↔ ((R.listed rules.entry.now).n ≤ length row.entry.now) }
        ensures value { IfSome result
            (λ s. (rules_of s ≡ (R.listed rules.entry.now).rules) × (row_of s ≡ row.entry.now)) }
    {
        if rules.n() > row.len() {
            return None;
        }
        Some(Scan { rules, row })
    }

    /// The first broken rule, else the first pressing one with its open mark, else nothing.
    #[tactic(auto, using(crate::proofs::Scans::part_within, crate::proofs::Scans::steps))]
    pub fn first(&self) -> Scanned
        ensures { result ≡ first_in (row_of self.now) 1 (rules_of self.now) }
    {
        'rules: for before in 0..self.rules.count() {
            let rule = before + 1;
            let Some(marks) = self.rules.marks(rule) else {
                continue 'rules;
            };
            let mut free = None;
            'marks: for passed in 0..marks {
                // There is one: as many were counted.
                let Some(mark) = self.rules.mark(rule, passed + 1) else {
                    continue 'rules;
                };
                let code = self.row[mark.part - 1];
                if code == u8::from(mark.side) {
                    continue 'rules;
                }
                if code != 0 {
                    continue 'marks;
                }
                if free.is_some() {
                    continue 'rules;
                }
                free = Some(mark);
            }
            let Some(mark) = free else {
                return Scanned::Broken(rule);
            };
            // Only a broken rule would come before this one, so that later rules are left at their first mark that is not false.
            return match self.broken_after(rule) {
                Some(broken) => Scanned::Broken(broken),
                None => Scanned::Pressing(rule, mark),
            };
        }
        Scanned::Quiet
    }

    /// The first broken rule; nothing where there is none.
    pub fn first_broken(&self) -> Option<usize>
        ensures { result ≡ broken_in (first_in (row_of self.now) 1 (rules_of self.now)) }
    {
        self.broken_after(0)
    }

    // The first broken rule after so many of the list.
    #[tactic(auto, using(crate::proofs::Scans::part_within, crate::proofs::Scans::mark_step, crate::proofs::Scans::marks_end, crate::proofs::Scans::broken_step))]
    fn broken_after(&self, from: usize) -> Option<usize>
        ensures { result
            ≡ broken_in (first_in (row_of self.now) (from + 1) (drop from (rules_of self.now))) }
    {
        'rules: for before in from..self.rules.count() {
            let rule = before + 1;
            let Some(marks) = self.rules.marks(rule) else {
                continue 'rules;
            };
            for at in 0..marks {
                let Some(mark) = self.rules.mark(rule, at + 1) else {
                    continue 'rules;
                };
                let code = self.row[mark.part - 1];
                // Stays in this order: where the side is known first, the two are one test in the program.
                if code == u8::from(mark.side) || code == 0 {
                    continue 'rules;
                }
            }
            return Some(rule);
        }
        None
    }
}

//! The fault that a reading passes up.
ghost use Rattle.std.specs.Prelude.{◌≡◌, ◌↔◌, Some, IsTrue};
ghost use Rattle.parts.specs.Numbers.{fault_text};

use crate::refusal::Refusal;
use std::error::Error;
use std::fmt;

/// Where a reading was refused: which refusal, its byte from 0, and the rule being read (0 in the head, and in a bench sheet).
#[derive(Clone, Copy, Debug, PartialEq, Eq)]
pub struct Fault {
    pub refusal: Refusal,
    pub byte: usize,
    // Stays 0 in the head: it is a number of the list's format, and an Option would be turned into it wherever a fault is printed.
    pub rule: usize,
}

impl Fault {
    /// The fault of a refusal at a byte, in a rule.
    pub fn new(refusal: Refusal, byte: usize, rule: usize) -> Fault
        ensures { result ≡ record { refusal = refusal; byte = byte; rule = rule } }
    {
        Fault {
            refusal,
            byte,
            rule,
        }
    }

    /// Whether two faults are the same in refusal, byte and rule, by `==`.
    pub fn is_same(&self, other: &Fault) -> bool
        ensures { IsTrue result ↔ (self.now ≡ other.now) }
    {
        self == other
    }
}

/// Number, byte and rule, separated by tabs.
impl fmt::Display for Fault {
    ghost output = { λ fault. Some (fault_text fault) };

    fn fmt<W: fmt::Write>(&self, f: &mut fmt::Formatter<W>) -> fmt::Result {
        write!(f, "{}\t{}\t{}", self.refusal, self.byte, self.rule)
    }
}

impl Error for Fault {}

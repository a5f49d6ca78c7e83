//! The head of a text: "p cnf N M" on the first line that counts.
ghost use Rattle.std.specs.Prelude.{◌≡◌, ◌≤◌, ◌&&◌, length, codes, IfOk, MatchOption, MatchResult};
ghost use Rattle.std.specs.Str.{bytes_eq};
ghost use Rattle.text.specs.Numbers.{number as number_in};
ghost use Rattle.text.specs.Views.{piece_of, fields_left};
ghost use Rattle.grammar.specs.Reading.{counted, size_of, head_of};
ghost use Rattle.reading.specs.Sizes.{InRange};

use crate::counted::{CountedLines, counted_fields};
use grammar::Size;
use parts::limits::{MOST_PARTS, MOST_TEXT_BYTES, MOST_TEXT_RULES};
use parts::{Fault, Refusal};
use text::{Fields, Piece, number};

// A head, and the lines after it, which have the rules.
#[derive(Clone, Copy)]
pub(crate) struct Head<'a> {
    pub(crate) size: Size,
    pub(crate) rules: CountedLines<'a>,
    ghost range: { InRange size },
}

// The fields of a head.
#[derive(Clone, Copy)]
pub(crate) struct HeadFields<'a> {
    pub(crate) p: Piece<'a>,
    pub(crate) cnf: Piece<'a>,
    pub(crate) n: Piece<'a>,
    pub(crate) m: Piece<'a>,
}

impl<'a> HeadFields<'a> {
    ghost use Rattle.reading.specs.Heads.{IsNoHead, FourFields};

    // The four fields, where there are just four.
    fn of(fields: Fields<'a>) -> Option<HeadFields<'a>>
        ensures { MatchOption result
            (IsNoHead (fields_left fields.entry)) (FourFields (fields_left fields.entry)) }
    {
        let mut left = fields;
        let head = HeadFields {
            p: left.next()?,
            cnf: left.next()?,
            n: left.next()?,
            m: left.next()?,
        };
        match left.next() {
            Some(_) => None,
            None => Some(head),
        }
    }

    // Whether the first two fields are those of a head.
    fn is_named(&self) -> bool
        ensures { result ≡ (bytes_eq self.now.p.bytes.now (codes "p")
            && bytes_eq self.now.cnf.bytes.now (codes "cnf")) }
    {
        self.p.bytes == b"p".as_slice() && self.cnf.bytes == b"cnf".as_slice()
    }
}

// The size that two fields of the line at `from` say, if a book may have it.
fn size_of(from: usize, n: Piece<'_>, m: Piece<'_>) -> Result<Size, Fault>
    ensures value { result ≡ size_of from n.entry.at m.entry.at
        (number_in n.entry.bytes.now) (number_in m.entry.bytes.now) }
    ensures range { IfOk result InRange }
{
    let (Some(parts), Some(rules)) = (number(n.bytes), number(m.bytes)) else {
        return Err(Fault::new(Refusal::NoHead, from, 0));
    };
    if parts == 0 || parts > MOST_PARTS {
        return Err(Fault::new(Refusal::SizeOutOfRange, n.at, 0));
    }
    if rules > MOST_TEXT_RULES {
        return Err(Fault::new(Refusal::SizeOutOfRange, m.at, 0));
    }
    Ok(Size { n: parts, m: rules })
}

// The size that the head on the line says.
fn head_size(line: Piece<'_>) -> Result<Size, Fault>
    ensures value { result ≡ head_of line.entry.at (counted (piece_of line.entry)) }
    ensures range { IfOk result InRange }
{
    let Some(head) = HeadFields::of(counted_fields(line)) else {
        return Err(Fault::new(Refusal::NoHead, line.at, 0));
    };
    if !head.is_named() {
        return Err(Fault::new(Refusal::NoHead, line.at, 0));
    }
    size_of(line.at, head.n, head.m)
}

impl<'a> Head<'a> {
    ghost use Rattle.reading.specs.Heads.{Begins, Fails};

    // The head of the text, or the fault that keeps it from being one.
    pub(crate) fn read(text: &'a [u8]) -> Result<Head<'a>, Fault>
        requires { length text.now ≤ MOST_TEXT_BYTES }
        ensures { MatchResult result (Begins text.now) (Fails text.now) }
    {
        let mut lines = CountedLines::new(text);
        let Some(line) = lines.next() else {
            return Err(Fault::new(Refusal::NoHead, text.len(), 0));
        };
        let size = head_size(line)?;
        Ok(Head { size, rules: lines })
    }
}

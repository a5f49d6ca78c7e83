//! Bays, alone and joined, asked through the one trait.
use crate::BayBook;
use book::{Book, Joined};
use parts::{Mark, Refusal, Side};
use std::process::Abort;
use std::test::Fail;

// The part's mark on a side.
fn mark(part: usize, side: Side) -> Option<Mark> {
    Some(Mark { part, side })
}

// The three rules of bays of 2 parts and of 1, from a rule on: 1 2; -1 -2; 3.
fn two_bays<B: Book>(rt: &impl Abort, book: &B, from: usize) {
    assert!(rt; from < 1000);
    assert_eq!(rt; book.n(), 3);
    assert_eq!(rt; book.marks(from), Some(2));
    assert_eq!(rt; book.mark(from, 2), mark(2, Side::In));
    assert_eq!(rt; book.mark(from + 1, 1), mark(1, Side::Out));
    assert_eq!(rt; book.mark(from + 1, 2), mark(2, Side::Out));
    assert_eq!(rt; book.mark(from + 2, 1), mark(3, Side::In));
    assert_eq!(rt; book.mark(from + 2, 2), None);
}

// A book of these bays.
fn bays(widths: Vec<u16>) -> Result<BayBook, Fail> {
    match BayBook::new(widths) {
        Ok(book) => Ok(book),
        Err(_) => Err(Fail::new("fit bays")),
    }
}

#[test]
fn bays_answer(rt: HostRuntime) -> Result<(), Fail> {
    let book = bays([2, 1].to_vec(rt.alloc())?)?;
    two_bays(&rt, &book, 1);
    let Ok(joined) = Joined::new(book, bays([2, 1].to_vec(rt.alloc())?)?) else {
        return Err(Fail::new("as many parts"));
    };
    two_bays(&rt, &joined, 4);
    let Ok(nested) = Joined::new(joined, bays([2, 1].to_vec(rt.alloc())?)?) else {
        return Err(Fail::new("a joined book again"));
    };
    assert_eq!(rt; nested.rules(), 9);
    Ok(())
}

#[test]
fn bays_refuse(rt: HostRuntime) -> Result<(), Fail> {
    let Err(unbuilt) = BayBook::new([3, 21].to_vec(rt.alloc())?) else {
        return Err(Fail::new("21 parts in a bay"));
    };
    assert_eq!(rt; unbuilt.refusal, Refusal::NotABook);
    let Err(unjoined) = Joined::new(
        bays([3].to_vec(rt.alloc())?)?,
        bays([4].to_vec(rt.alloc())?)?,
    ) else {
        return Err(Fail::new("3 parts and 4"));
    };
    assert_eq!(rt; unjoined.refusal, Refusal::JoinPartsDiffer);
    assert_eq!(rt; unjoined.back.1.mark(7, 1), mark(3, Side::Out));
    Ok(())
}

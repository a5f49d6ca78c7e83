//! Both lists, asked through the one trait.
use crate::{BookRules, RuleList, ShelfRules};
use book::{Tables, TextBook};
use parts::{Mark, Side};
use shelf::{GridShelf, Shelf};
use std::process::Abort;
use std::test::Fail;

// Of three rules, the second is 1 -3.
fn answers<R: RuleList>(rt: &impl Abort, list: &R) {
    assert_eq!(rt; list.n(), 3);
    assert_eq!(rt; list.count(), 3);
    assert_eq!(rt; list.marks(2), Some(2));
    let last = Mark {
        part: 3,
        side: Side::Out,
    };
    assert_eq!(rt; list.mark(2, 2), Some(last));
    assert_eq!(rt; list.mark(2, 3), None);
    assert_eq!(rt; list.marks(4), None);
}

#[test]
fn of_a_book(rt: HostRuntime) -> Result<(), Fail> {
    let marks = [2, 1, -3, 3].to_vec(rt.alloc())?;
    let ends = [1, 3, 4].to_vec(rt.alloc())?;
    let Ok(book) = TextBook::new(3, 3, Tables { marks, ends }) else {
        return Err(Fail::new("three rules"));
    };
    answers(&rt, &BookRules(&book));
    assert_eq!(rt; BookRules(&book).marks(1), Some(1));
    Ok(())
}

#[test]
fn of_a_shelf(rt: HostRuntime) -> Result<(), Fail> {
    let table = Vec::from_elem(rt.alloc(), 0u8, 12)?;
    let Ok(mut shelf) = GridShelf::new(3, 3, table) else {
        return Err(Fail::new("a grid"));
    };
    assert!(rt; shelf.write(2, &[1, 0, 2]).is_ok());
    answers(&rt, &ShelfRules(&shelf));
    assert_eq!(rt; ShelfRules(&shelf).marks(1), None);
    Ok(())
}

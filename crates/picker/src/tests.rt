//! Both pickers, asked through the one trait.
use crate::{Lowest, Picker, Ranked};
use parts::{Mark, Refusal, Side};
use std::process::Abort;
use std::test::Fail;

// Each answers the row 1 0 0 by what is expected,
// and rows that are settled, short or no row at all by nothing.
fn answers<P: Picker>(rt: &impl Abort, picker: &P, expected: Mark) {
    assert_eq!(rt; picker.n(), 3);
    assert_eq!(rt; picker.pick(&[1, 0, 0]), Some(expected));
    assert_eq!(rt; picker.pick(&[1, 2, 1]), None);
    assert_eq!(rt; picker.pick(&[1, 0]), None);
    assert_eq!(rt; picker.pick(&[1, 0, 3]), None);
}

#[test]
fn each_picks(rt: HostRuntime) -> Result<(), Fail> {
    let second = Mark {
        part: 2,
        side: Side::Out,
    };
    let third = Mark {
        part: 3,
        side: Side::In,
    };
    let Ok(lowest) = Lowest::new(3) else {
        return Err(Fail::new("three parts"));
    };
    answers(&rt, &lowest, second);
    let first = Mark {
        part: 1,
        side: Side::In,
    };
    let list = [first, third, second].to_vec(rt.alloc())?;
    let Ok(ranked) = Ranked::new(list) else {
        return Err(Fail::new("a ranking"));
    };
    answers(&rt, &ranked, third);
    let list = ranked.into_list();
    assert!(rt; list.len() == 3);
    assert_eq!(rt; list[1], third);
    Ok(())
}

#[test]
fn each_refuses(rt: HostRuntime) -> Result<(), Fail> {
    assert!(rt; Lowest::new(0).is_err() && Lowest::new(121).is_err() && Lowest::new(120).is_ok());
    let first = Mark {
        part: 1,
        side: Side::In,
    };
    let again = Mark {
        part: 1,
        side: Side::Out,
    };
    let list = [first, again].to_vec(rt.alloc())?;
    let Err(unranked) = Ranked::new(list) else {
        return Err(Fail::new("part 1 is named twice"));
    };
    assert_eq!(rt; unranked.refusal, Refusal::NotAPicker);
    assert_eq!(rt; unranked.back.len(), 2);
    Ok(())
}

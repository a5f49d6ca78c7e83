// The lessons at the end of a history, asked of the session and of the shelf that it gives back.
use crate::comparing::{Tally, Trial};
use crate::history::Lesson;
use parts::Refusal;
use shelf::Shelf;
use std::alloc::{AllocError, Global};

// What is found at a place.
type Found = Result<Lesson, Refusal>;

// Compares each lesson with the codes that are told of its place, and finds no place after the last.
pub fn compare_codes<F: Fn(usize, usize) -> Result<Option<u8>, Refusal>>(
    trial: &mut Trial,
    what: &str,
    code: F,
) -> anyhow::Result<()>
    requires { F.IsAlwaysCallable code }
{
    let heap = trial.rt.alloc();
    let opening = &trial.history.opening;
    compare_lessons(trial, what, |place| {
        lesson_by_codes(heap, opening.parts, |part| code(place, part))
    })?;
    let past = opening.places.saturating_add(1);
    let found = lesson_by_codes(heap, opening.parts, |part| code(past, part))?;
    trial.compare(what, past, &Err(&Refusal::ShelfOutOfRange), &found.as_ref())?;
    Ok(())
}

// The codes that a place has for the parts; an empty place has none for any.
fn lesson_by_codes<F: Fn(usize) -> Result<Option<u8>, Refusal>>(
    heap: Global,
    parts: usize,
    code: F,
) -> Result<Found, AllocError>
    requires { F.IsAlwaysCallable code }
{
    let mut row = Vec::new(heap);
    for part in 1..=parts {
        match code(part) {
            Ok(told) => row.extend(told)?,
            Err(refusal) => return Ok(Err(refusal)),
        }
    }
    Ok(Ok(Some(row).filter(|row| !row.is_empty())))
}

// Compares each lesson with the marks that the shelf tells of its place.
pub fn compare_marks<S: Shelf>(trial: &mut Trial, shelf: &S) -> anyhow::Result<()> {
    let heap = trial.rt.alloc();
    compare_lessons(
        trial,
        "marks after closing",
        |place| lesson_by_marks(heap, shelf, place),
    )
}

// The row of the marks that a place has.
fn lesson_by_marks<S: Shelf>(heap: Global, shelf: &S, place: usize) -> Result<Found, AllocError> {
    let Ok(Some(marks)) = shelf.marks(place) else {
        return Ok(Ok(None));
    };
    let mut row = vec![in heap; 0u8; shelf.n()]?;
    Ok(fill(&mut row, shelf, place, marks).map(|()| Some(row)))
}

// Fills a row with the codes of a place's marks; refused where a mark is missing or of no part.
fn fill<S: Shelf>(row: &mut [u8], shelf: &S, place: usize, marks: usize) -> Result<(), Refusal> {
    for k in 1..=marks {
        let mark = shelf.mark(place, k)?.ok_or(Refusal::ShelfOutOfRange)?;
        let code = code_of(row, mark.part).ok_or(Refusal::PartOutOfRange)?;
        *code = u8::from(mark.side);
    }
    Ok(())
}

// The code of a part in a row.
pub fn code_of(row: &mut [u8], part: usize) -> Option<&mut u8> {
    row.get_mut(part.checked_sub(1)?)
}

// Compares each lesson with what is found at its place, and counts.
fn compare_lessons<F: Fn(usize) -> Result<Found, AllocError>>(
    trial: &mut Trial,
    what: &str,
    find: F,
) -> anyhow::Result<()>
    requires { F.IsAlwaysCallable find }
{
    let lessons = &trial.history.lessons;
    for (place, lesson) in (1..).zip(lessons.iter()) {
        let found = find(place)?;
        trial.compare(what, place, &Ok(lesson), &found.as_ref())?;
    }
    trial.tally += Tally::of_lessons(lessons);
    Ok(())
}

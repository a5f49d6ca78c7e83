// The makes of book, picker and shelf that a history is replayed on.
use crate::comparing::{Tally, Trial};
use crate::history::{History, Opening};
use crate::replay::replay;
use anyhow::anyhow;
use book::{Tables, TextBook};
use parts::Refused;
use picker::{Lowest, Ranked};
use shelf::{GridShelf, ListShelf, Shelf, entries};
use std::alloc::Global;

// What each entry of a shelf's table holds before the shelf is made: no empty place.
const UNCLEARED: u8 = 7;

// Replays a history on a grid, and on lists.
pub fn replay_on_both(rt: &HostRuntime, history: &History) -> anyhow::Result<Tally> {
    let mut tally = replay_on(Trial::new(rt, history, "grid"), UNCLEARED, GridShelf::new)?;
    let list = Trial::new(rt, history, "list");
    tally += replay_on(list, u16::from(UNCLEARED), ListShelf::new)?;
    Ok(tally)
}

// Makes the trial's shelf, over a table of such entries, and replays on it with the history's book and picker.
fn replay_on<T, S, F>(trial: Trial, entry: T, new: F) -> anyhow::Result<Tally>
where
    T: Copy,
    S: Shelf + Drop,
    F: FnOnce(usize, usize, Vec<T>) -> Result<S, Refused<Vec<T>>>,
    requires { F.IsAlwaysCallable new }
{
    let heap = trial.rt.alloc();
    let opening = &trial.history.opening;
    let table = vec![in heap; entry; entries(opening.parts, opening.places)]?;
    let shelf = new(opening.parts, opening.places, table).map_err(|refused| anyhow!(
        "no {}: {}",
        trial.make,
        refused.refusal
    ))?;
    let book = make_book(heap, opening)?;
    match &opening.ranking {
        None => {
            let picker = Lowest::new(opening.parts)?;
            replay(trial, book, picker, shelf)
        }
        Some(list) => {
            let picker = Ranked::new(list.to_vec(heap)?).map_err(|refused| anyhow!(
                "no ranking: {}",
                refused.refusal
            ))?;
            replay(trial, book, picker, shelf)
        }
    }
}

fn make_book(heap: Global, opening: &Opening) -> anyhow::Result<TextBook> {
    let Tables { marks, ends } = &opening.tables;
    let tables = Tables {
        marks: marks.to_vec(heap)?,
        ends: ends.to_vec(heap)?,
    };
    TextBook::new(opening.parts, ends.len(), tables).map_err(|refused| anyhow!(
        "no book: {}",
        refused.refusal
    ))
}

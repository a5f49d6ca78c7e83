//! The same calls on each kind of shelf.
ghost use Rattle.std.specs.Prelude.{◌≡◌, IsTrue, IsFalse, drop, vec_len, MatchResult, OnErr};
ghost use Rattle.parts.specs.declared.refusal.Refusal.TheVariants.{NotAShelf};
ghost use Rattle.shelf.specs.Meaning.{can_write, row_written, can_clear, place_emptied, done_or_25};
ghost use Rattle.shelf.specs.Table.{entries_of, can_make, empty_shelf};
ghost use Rattle.shelf.specs.Grid.{read_codes, formed_codes};
ghost use Rattle.shelf.specs.Makes.{grid_meaning, grid_rest, list_meaning, list_rest};

use crate::{GridShelf, ListShelf, Shelf, entries};
use parts::{Mark, Refusal, Refused, Side};
use std::process::Abort;
use std::test::Fail;

const OUTSIDE: Refusal = Refusal::ShelfOutOfRange;

const IN_3: Mark = Mark {
    part: 3,
    side: Side::In,
};

// What a new shelf, a write and a clearing promise, as it reads for a grid of codes.
// Stays beside the same three for lists: one function over any entry would promise
// what the calls do, and here the promises of each kind are shown to follow.
fn new_grid(n: usize, places: usize, table: Vec<u8>) -> Result<GridShelf, Refused<Vec<u8>>>
    ensures made { MatchResult result
        (λ _. IsTrue (can_make n places (vec_len table)))
        (λ _. IsFalse (can_make n places (vec_len table))) }
    ensures value { MatchResult result
        (λ s. (grid_meaning s ≡ empty_shelf n places)
        × (grid_rest s ≡ drop (entries_of n places) table.items))
        (λ e. e ≡ record { refusal = NotAShelf; back = table }) }
{
    GridShelf::new(n, places, table)
}

fn write_grid(shelf: &mut GridShelf, place: usize, row: &[u8]) -> Result<(), Refusal>
    ensures answer { result ≡ done_or_25 (can_write (grid_meaning shelf.old) place row.now) }
    ensures after { grid_meaning shelf.new ≡ row_written (grid_meaning shelf.old) place row.now }
    ensures refused { OnErr result (shelf.new ≡ shelf.old) }
    ensures rest { grid_rest shelf.new ≡ grid_rest shelf.old }
{
    shelf.write(place, row)
}

fn clear_grid(shelf: &mut GridShelf, place: usize) -> Result<(), Refusal>
    ensures answer { result ≡ done_or_25 (can_clear (grid_meaning shelf.old) place) }
    ensures after { grid_meaning shelf.new ≡ place_emptied (grid_meaning shelf.old) place }
    ensures refused { OnErr result (shelf.new ≡ shelf.old) }
    ensures rest { grid_rest shelf.new ≡ grid_rest shelf.old }
{
    shelf.clear(place)
}

// The same, as it reads for lists of marks. Stays, for the reason above.
fn new_list(n: usize, places: usize, table: Vec<u16>) -> Result<ListShelf, Refused<Vec<u16>>>
    ensures made { MatchResult result
        (λ _. IsTrue (can_make n places (vec_len table)))
        (λ _. IsFalse (can_make n places (vec_len table))) }
    ensures value { MatchResult result
        (λ s. (list_meaning s ≡ empty_shelf n places)
        × (list_rest s ≡ drop (entries_of n places) table.items))
        (λ e. e ≡ record { refusal = NotAShelf; back = table }) }
{
    ListShelf::new(n, places, table)
}

fn write_list(shelf: &mut ListShelf, place: usize, row: &[u8]) -> Result<(), Refusal>
    ensures answer { result ≡ done_or_25 (can_write (list_meaning shelf.old) place row.now) }
    ensures after { list_meaning shelf.new ≡ row_written (list_meaning shelf.old) place row.now }
    ensures refused { OnErr result (shelf.new ≡ shelf.old) }
    ensures rest { list_rest shelf.new ≡ list_rest shelf.old }
{
    shelf.write(place, row)
}

fn clear_list(shelf: &mut ListShelf, place: usize) -> Result<(), Refusal>
    ensures answer { result ≡ done_or_25 (can_clear (list_meaning shelf.old) place) }
    ensures after { list_meaning shelf.new ≡ place_emptied (list_meaning shelf.old) place }
    ensures refused { OnErr result (shelf.new ≡ shelf.old) }
    ensures rest { list_rest shelf.new ≡ list_rest shelf.old }
{
    shelf.clear(place)
}

// A grid whose marks come from the walks that every shelf has.
#[derive(Drop)]
struct Walked {
    grid: GridShelf,
}

impl Shelf for Walked {
    ghost use Rattle.shelf.specs.Proved.{table_sound};

    ghost meaning = { λ s. grid_meaning s.grid };

    ghost sound = { λ s. table_sound read_codes s.grid.n (formed_codes s.grid.n) (λ block h. h)
        s.grid.places (vec_len s.grid.table) s.grid.table.items s.grid.sized s.grid.kept };

    fn n(&self) -> usize {
        self.grid.n()
    }

    fn places(&self) -> usize {
        self.grid.places()
    }

    fn code(&self, place: usize, part: usize) -> Result<Option<u8>, Refusal> {
        self.grid.code(place, part)
    }

    fn write(&mut self, place: usize, row: &[u8]) -> Result<(), Refusal> {
        write_grid(&mut self.grid, place, row)
    }

    fn clear(&mut self, place: usize) -> Result<(), Refusal> {
        clear_grid(&mut self.grid, place)
    }
}

// An empty shelf of 3 parts and 4 places, before the first write.
fn starts_empty<S: Shelf>(rt: &impl Abort, shelf: &mut S) {
    assert_eq!(rt; shelf.n(), 3);
    assert_eq!(rt; shelf.places(), 4);
    assert_eq!(rt; shelf.marks(2), Ok(None));
    assert_eq!(rt; shelf.marks(0), Err(OUTSIDE));
    assert_eq!(rt; shelf.mark(5, 1), Err(OUTSIDE));
    assert_eq!(rt; shelf.write(1, &[1, 3, 1]), Err(OUTSIDE));
    assert_eq!(rt; shelf.code(5, 1), Err(OUTSIDE));
}

// A row at the second place, and one that names nothing at the last.
fn keeps_rows<S: Shelf>(rt: &impl Abort, shelf: &mut S) {
    assert_eq!(rt; shelf.write(2, &[2, 0, 1]), Ok(()));
    assert_eq!(rt; shelf.write(4, &[0, 0, 0]), Ok(()));
    assert_eq!(rt; shelf.code(2, 1), Ok(Some(2)));
    assert_eq!(rt; shelf.marks(2), Ok(Some(2)));
    assert_eq!(rt; shelf.mark(2, 2), Ok(Some(IN_3)));
    assert_eq!(rt; shelf.mark(2, 3), Ok(None));
    assert_eq!(rt; shelf.code(3, 1), Ok(None));
}

// The second place is emptied, and the last is as it was.
fn clears_one<S: Shelf>(rt: &impl Abort, shelf: &mut S) {
    assert_eq!(rt; shelf.clear(2), Ok(()));
    assert_eq!(rt; shelf.code(2, 1), Ok(None));
    assert_eq!(rt; shelf.mark(2, 1), Ok(None));
    assert_eq!(rt; shelf.marks(4), Ok(Some(0)));
}

// All of these.
fn serves<S: Shelf>(rt: &impl Abort, shelf: &mut S) {
    starts_empty(rt, shelf);
    keeps_rows(rt, shelf);
    clears_one(rt, shelf);
}

#[test]
fn grid(rt: HostRuntime) -> Result<(), Fail> {
    let table = Vec::from_elem(rt.alloc(), 7u8, 17)?;
    let Ok(mut shelf) = new_grid(3, 4, table) else {
        return Err(Fail::new("no grid"));
    };
    serves(&rt, &mut shelf);
    assert_eq!(rt; shelf.into_table().last().copied(), Some(7));
    Ok(())
}

#[test]
fn by_walks(rt: HostRuntime) -> Result<(), Fail> {
    let table = Vec::from_elem(rt.alloc(), 7u8, 16)?;
    let Ok(grid) = new_grid(3, 4, table) else {
        return Err(Fail::new("no grid"));
    };
    let mut shelf = Walked { grid };
    serves(&rt, &mut shelf);
    Ok(())
}

#[test]
fn list(rt: HostRuntime) -> Result<(), Fail> {
    let table = Vec::from_elem(rt.alloc(), 7u16, 17)?;
    let Ok(mut shelf) = new_list(3, 4, table) else {
        return Err(Fail::new("no list"));
    };
    serves(&rt, &mut shelf);
    assert_eq!(rt; write_list(&mut shelf, 5, &[0, 0, 0]), Err(OUTSIDE));
    assert_eq!(rt; clear_list(&mut shelf, 0), Err(OUTSIDE));
    assert_eq!(rt; shelf.into_table().last().copied(), Some(7));
    Ok(())
}

#[test]
fn too_few_places(rt: HostRuntime) -> Result<(), Fail> {
    let table = Vec::from_elem(rt.alloc(), 7u8, 17)?;
    let Err(refused) = new_grid(4, 3, table) else {
        return Err(Fail::new("a grid"));
    };
    assert_eq!(rt; refused.refusal, Refusal::NotAShelf);
    assert_eq!(rt; refused.back.first().copied(), Some(7));
    Ok(())
}

#[test]
fn table_sizes(rt: HostRuntime) {
    assert_eq!(rt; entries(3, 4), 16);
    assert_eq!(rt; entries(usize::MAX, 2), usize::MAX);
}

//! A shelf over a table that it owns: for each place a block of n + 1 entries.
ghost use Rattle.std.specs.Prelude.{◌≡◌, ◌+◌, ◌-◌, ◌*◌, ◌≤◌, ◌++◌, min, IsTrue, IsFalse, length, drop, replicate, vec_len, MatchResult, OnErr};
ghost use Rattle.std.specs.List.{list_all};
ghost use Rattle.parts.specs.declared.refusal.Refusal.TheVariants.{NotAShelf, ShelfOutOfRange};
ghost use Rattle.shelf.specs.Meaning.{is_place, can_write, row_written, can_clear, place_emptied, done_or_25};
ghost use Rattle.shelf.specs.Table.{Sized, IsBlock, blocks, entries_of, can_make, empty_shelf};

use crate::Shelf;
use crate::entry::Entry;
use parts::limits::{MOST_PARTS, MOST_TABLE_PLACES};
use parts::row::is_row;
use parts::{Mark, Refusal, Refused};

/// A shelf of places that stand in a table as its entries say.
#[derive(Drop)]
pub struct TableShelf<E: Entry> {
    n: usize,
    places: usize,
    // Stays one table beside its sizes: it is a caller's, and comes back as one.
    table: Vec<E>,
    ghost sized: { Sized n places (vec_len table) },
    ghost kept: { IsTrue (list_all (E.formed n) (blocks (n + 1) places (table.items))) },
}

/// How many entries the table of a shelf of n parts and so many places has;
/// the largest number where that is too large for one.
pub fn entries(n: usize, places: usize) -> usize
    ensures { result ≡ min (entries_of n places) usize.MAX }
{
    places.saturating_mul(n.saturating_add(1))
}

// Whether a shelf may be made over so many entries.
fn can_make(n: usize, places: usize, entries: usize) -> bool
    ensures { result ≡ can_make n places entries }
{
    (1..=MOST_PARTS).contains(&n)
        && (n..=MOST_TABLE_PLACES).contains(&places)
        && places * (n + 1) <= entries
}

// Makes each of the first entries what an empty place begins with.
fn fill_front<E: Entry>(entries: &mut [E], count: usize)
    requires { count ≤ length entries.old }
    ensures { entries.new ≡ replicate count E.EMPTY ++ drop count entries.old }
{
    entries[..count].fill(E::EMPTY);
}

impl<E: Entry> TableShelf<E> {
    ghost use Rattle.shelf.specs.Makes.{table_of, table_meaning, table_rest};

    /// An empty shelf over the table; entries past places * (n + 1) are never looked at or changed.
    /// Refused with 13, and the table comes back, where n is 0 or above 120, there are fewer places
    /// than n or more than 256, or the table has too few entries for them.
    #[tactic(auto, using(crate::proofs::Blocks::fresh))]
    pub fn new(n: usize, places: usize, table: Vec<E>) -> Result<TableShelf<E>, Refused<Vec<E>>>
        ensures made { MatchResult result
            (λ _. IsTrue (can_make n places (vec_len table)))
            (λ _. IsFalse (can_make n places (vec_len table))) }
        ensures value { MatchResult result
            (λ s. (table_meaning s ≡ empty_shelf n places)
            × (table_rest s ≡ drop (entries_of n places) table.items)
            × ((table_of s).items
            ≡ replicate (entries_of n places) E.EMPTY ++ drop (entries_of n places) table.items))
            (λ e. e ≡ record { refusal = NotAShelf; back = table }) }
    {
        if !can_make(n, places, table.len()) {
            return Err(Refused {
                refusal: Refusal::NotAShelf,
                back: table,
            });
        }
        let mut table = table;
        fill_front(&mut table, places * (n + 1));
        Ok(TableShelf { n, places, table })
    }

    /// The table, as the shelf left it.
    pub fn into_table(self) -> Vec<E>
        ensures { result ≡ table_of self }
    {
        let TableShelf {
            n: _,
            places: _,
            table,
        } = self;
        table
    }

    // Where a place's block begins.
    fn start(&self, place: usize) -> Result<usize, Refusal>
        ensures { MatchResult result
            (λ at. (1 ≤ place) × (place ≤ self.now.places) × (at ≡ (place - 1) * (self.now.n + 1)))
            (λ e. (e ≡ ShelfOutOfRange) × IsFalse (is_place self.now.places place)) }
    {
        if place == 0 || place > self.places {
            return Err(Refusal::ShelfOutOfRange);
        }
        Ok((place - 1) * (self.n + 1))
    }

    // A place's block.
    fn block(&self, place: usize) -> Result<&[E], Refusal>
        ensures { MatchResult result
            (λ b. IsBlock E.formed self.now.n self.now.places self.now.table.items place b.now)
            (λ e. (e ≡ ShelfOutOfRange) × IsFalse (is_place self.now.places place)) }
    {
        let start = self.start(place)?;
        Ok(&self.table[start..start + self.n + 1])
    }
}

/// Each answer is read from the place's block.
impl<E: Entry> Shelf for TableShelf<E> {
    ghost use Rattle.shelf.specs.Makes.{table_of, table_meaning, table_rest, table_written, table_cleared};
    ghost use Rattle.shelf.specs.Proved.{table_sound};

    ghost meaning = { table_meaning };

    ghost sound = { λ s. table_sound (E.row_in s.n) s.n (E.formed s.n) (E.sound s.n)
        s.places (vec_len s.table) s.table.items s.sized s.kept };

    fn n(&self) -> usize {
        self.n
    }

    #[tactic(auto, using(crate::specs::Proved::length_rows))]
    fn places(&self) -> usize {
        self.places
    }

    #[tactic(auto, using(crate::proofs::Blocks::code_read))]
    fn code(&self, place: usize, part: usize) -> Result<Option<u8>, Refusal> {
        match self.block(place) {
            Ok(block) if 1 <= part && part <= self.n => Ok(E::code(block, part)),
            _ => Err(Refusal::ShelfOutOfRange),
        }
    }

    #[tactic(auto, using(crate::proofs::Blocks::row_read, crate::specs::Proved::length_rows))]
    fn marks(&self, place: usize) -> Result<Option<usize>, Refusal> {
        Ok(E::marks(self.block(place)?))
    }

    #[tactic(auto, using(crate::proofs::Blocks::row_read, crate::specs::Proved::length_rows))]
    fn mark(&self, place: usize, k: usize) -> Result<Option<Mark>, Refusal> {
        Ok(E::mark(self.block(place)?, k))
    }

    #[tactic(auto, using(crate::specs::Proved::length_rows, std::proofs::lemmas::Bool::Decides::nat_tests))]
    fn write(&mut self, place: usize, row: &[u8]) -> Result<(), Refusal>
        ensures answer { result ≡ done_or_25 (can_write (table_meaning self.old) place row.now) }
        ensures after { table_meaning self.new
            ≡ row_written (table_meaning self.old) place row.now }
        ensures refused { OnErr result (self.new ≡ self.old) }
        ensures entries { (table_of self.new).items ≡ table_written self.old place row.now }
        ensures rest { table_rest self.new ≡ table_rest self.old }
    {
        let start = self.start(place)?;
        if !is_row(row, self.n) {
            return Err(Refusal::ShelfOutOfRange);
        }
        E::write_row(&mut self.table[start..start + self.n + 1], row);
        Ok(())
    }

    #[tactic(auto, using(crate::specs::Proved::length_rows, std::proofs::lemmas::Bool::Decides::nat_tests))]
    fn clear(&mut self, place: usize) -> Result<(), Refusal>
        ensures answer { result ≡ done_or_25 (can_clear (table_meaning self.old) place) }
        ensures after { table_meaning self.new ≡ place_emptied (table_meaning self.old) place }
        ensures refused { OnErr result (self.new ≡ self.old) }
        ensures entries { (table_of self.new).items ≡ table_cleared self.old place }
        ensures rest { table_rest self.new ≡ table_rest self.old }
    {
        let start = self.start(place)?;
        self.table[start] = E::EMPTY;
        Ok(())
    }
}

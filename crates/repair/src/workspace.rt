//! All the memory of a repair, asked for in one call that sees no text.
ghost use Rattle.std.specs.Prelude.{◌≡◌, length, replicate};
ghost use Rattle.parts.specs.declared.limits.TheConstants.{MOST_PARTS, MOST_TEXT_MARKS, MOST_TEXT_RULES};
ghost use Rattle.repair.specs.declared.workspace.TheConstants.{SHELF_ENTRIES};

use book::Tables;
use parts::limits::{MOST_PARTS, MOST_TABLE_PLACES};
use reading::tables;
use std::alloc::{AllocError, Global};

// How many entries the table of a shelf for the most parts has.
pub(crate) const SHELF_ENTRIES: usize = MOST_TABLE_PLACES * (MOST_PARTS + 1);

/// The tables of a book, the table of a shelf, and a row, each as long as any book and sheet want it.
#[derive(Drop)]
pub struct Workspace {
    pub(crate) tables: Tables,
    pub(crate) shelf: Vec<u16>,
    pub(crate) row: Vec<u8>,
    ghost marks: { length tables.marks.items ≡ MOST_TEXT_MARKS },
    ghost ends: { length tables.ends.items ≡ MOST_TEXT_RULES },
    ghost places: { length shelf.items ≡ SHELF_ENTRIES },
    ghost blank: { row.items ≡ replicate MOST_PARTS 0 },
}

impl Workspace {
    /// A workspace, where there is memory for it. What is done in it asks for no more.
    pub fn new(heap: Global) -> Result<Workspace, AllocError> {
        Ok(Workspace {
            tables: tables(heap)?,
            shelf: vec![in heap; 0u16; SHELF_ENTRIES]?,
            row: vec![in heap; 0u8; MOST_PARTS]?,
        })
    }
}

//! Loads a book from its text, over tables that take any book of the format.
ghost use Rattle.std.specs.Prelude.{◌≡◌, length, Some, Ok, Err, IfOk, IfErr, MatchResult};
ghost use Rattle.book.specs.Makes.{tables_of, text_book};
ghost use Rattle.grammar.specs.Law.{FaultIsFirst};
ghost use Rattle.grammar.specs.Reading.{read_of};
ghost use Rattle.reading.specs.Loads.{HasZeros, Filled, SameTables, FilledZeros, IsNotLoaded, load_error_text, read_in};
ghost use Rattle.reading.specs.declared.loading.LoadError.TheVariants.{Faulty, NoMemory};

use crate::read;
use book::{Tables, TextBook};
use parts::Fault;
use parts::limits::{MOST_TEXT_MARKS, MOST_TEXT_RULES};
use std::alloc::{AllocError, Global};
use std::error::Error;
use std::fmt;

/// Why no book was loaded: the text's fault, or memory.
#[derive(Clone, Copy, Debug, PartialEq, Eq)]
pub enum LoadError {
    Faulty(Fault),
    NoMemory,
}

/// The fault as it is printed, or `out of memory`.
impl fmt::Display for LoadError {
    ghost output = { λ e. Some (load_error_text e) };

    fn fmt<W: fmt::Write>(&self, f: &mut fmt::Formatter<W>) -> fmt::Result {
        match self {
            LoadError::Faulty(why) => write!(f, "{why}"),
            LoadError::NoMemory => f.write_str("out of memory"),
        }
    }
}

impl Error for LoadError {}

/// No memory was left.
impl From<AllocError> for LoadError {
    ghost from_gives = { λ _ e. e ≡ NoMemory };

    fn from(_error: AllocError) -> LoadError {
        LoadError::NoMemory
    }
}

/// The text was refused.
impl From<Fault> for LoadError {
    ghost from_gives = { λ f e. e ≡ Faulty f };

    fn from(fault: Fault) -> LoadError {
        LoadError::Faulty(fault)
    }
}

/// A text that was refused, and the tables that were to take its book, as they were.
#[derive(Drop)]
pub struct RefusedText {
    pub fault: Fault,
    pub back: Tables,
}

/// The two tables that take any book of the format, all zeros: the only call of a loading that asks
/// for memory, and it sees no text.
pub fn tables(heap: Global) -> Result<Tables, AllocError>
    ensures { IfOk result HasZeros }
{
    Ok(Tables {
        marks: vec![in heap; 0i16; MOST_TEXT_MARKS]?,
        ends: vec![in heap; 0u16; MOST_TEXT_RULES]?,
    })
}

/// The book that the text stands for, over these tables. A text is refused as `read` refuses it for
/// them, and they come back as they were; there is no other way out.
pub fn load_over(tables: Tables, text: &[u8]) -> Result<TextBook, RefusedText>
    ensures value { MatchResult result
        (λ b. read_in tables text.now ≡ Ok (text_book b))
        (λ e. read_in tables text.now ≡ Err e.fault) }
    ensures tables { MatchResult result
        (λ b. Filled (text_book b).rules tables (tables_of b)) (λ e. SameTables tables e.back) }
    ensures faults { IfErr result (λ e. FaultIsFirst
        (length tables.marks.items) (length tables.ends.items) text.now e.fault) }
{
    let Tables {
        mut marks,
        mut ends,
    } = tables;
    let size = match read(text, &mut marks, &mut ends) {
        Ok(size) => size,
        Err(fault) => {
            return Err(RefusedText {
                fault,
                back: Tables { marks, ends },
            })
        }
    };
    let Ok(book) = TextBook::new(size.n, size.m, Tables { marks, ends }) else {
        unreachable();
    };
    Ok(book)
}

/// The book that the text stands for, over tables of its own: memory can fail only before the text
/// is looked at, where these are made, and the rest is `load_over`. A text is refused as `read`
/// refuses it for tables that take any book of the format.
pub fn load(heap: Global, text: &[u8]) -> Result<TextBook, LoadError>
    ensures value { MatchResult result
        (λ b. read_of MOST_TEXT_MARKS MOST_TEXT_RULES text.now ≡ Ok (text_book b))
        (IsNotLoaded text.now) }
    ensures tables { IfOk result (λ b. FilledZeros (text_book b).rules (tables_of b)) }
{
    match load_over(tables(heap)?, text) {
        Ok(book) => Ok(book),
        Err(refused) => Err(LoadError::Faulty(refused.fault)),
    }
}

//! How large books, texts, shelves, budgets and sheets may be. Clauses cite these constants too.
ghost use Rattle.std.specs.Prelude.{◌≡◌};

/// The most parts of a book, a picker or a shelf.
pub const MOST_PARTS: usize = 120;

/// The most rules of a book.
pub const MOST_RULES: usize = 20_000;

/// The most rules of a text, or of a book over two tables.
pub const MOST_TEXT_RULES: usize = 4000;

/// The most marks that the rules of a text have together.
pub const MOST_TEXT_MARKS: usize = 16_000;

/// The most bytes of a book's text.
pub const MOST_TEXT_BYTES: usize = 60_000;

/// The most parts of a bay.
pub const MOST_WIDTH: usize = 20;

/// The most places of any shelf.
pub const MOST_PLACES: usize = 4096;

/// The most places of a shelf that is kept in a table.
pub const MOST_TABLE_PLACES: usize = 256;

/// The most steps that one run may be given.
pub const MOST_BUDGET: usize = 1_000_000;

/// The most steps since the opening or the last accepted hold or release.
pub const MOST_STEPS: usize = 50_000_000;

/// The most bytes of a bench sheet.
pub const MOST_SHEET_BYTES: usize = 8000;

/// The most bytes of a part's name.
pub const MOST_NAME_BYTES: usize = 24;

/// The limits by number: a wrong constant is refused here, since clauses cite the constants.
/// Returns how many there are.
pub fn limits_stand() -> usize
    ensures count { result ≡ 12 }
    ensures parts { (MOST_PARTS ≡ 120) × (MOST_WIDTH ≡ 20) }
    ensures rules { (MOST_RULES ≡ 20000) × (MOST_TEXT_RULES ≡ 4000) × (MOST_TEXT_MARKS ≡ 16000) }
    ensures bytes { (MOST_TEXT_BYTES ≡ 60000) × (MOST_SHEET_BYTES ≡ 8000) × (MOST_NAME_BYTES ≡ 24) }
    ensures places { (MOST_PLACES ≡ 4096) × (MOST_TABLE_PLACES ≡ 256) }
    ensures steps { (MOST_BUDGET ≡ 1000000) × (MOST_STEPS ≡ 50000000) }
{
    12
}

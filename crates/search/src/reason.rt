//! Reasons: why a part is forced.

/// Why a part is forced (its antecedent clause): a rule of the book, or a place on the shelf; both
/// count from 1.
#[derive(Clone, Copy, Debug, PartialEq, Eq)]
pub enum Reason {
    Book(usize),
    Shelf(usize),
}

//! What an opening asks of book, picker and shelf, and how the shelf's places are cleared.
ghost use Rattle.std.specs.Prelude.{◌≡◌};
ghost use Rattle.search.specs.Calls.{emptied, in_range, ok_unless, refuses_open};

use book::Book;
use parts::Refusal;
use parts::limits::MOST_PARTS;
use picker::Picker;
use search::Forgetting;
use shelf::Shelf;

// Whether a session may be opened: book, picker and shelf have one n, and no forgetting number is above 120.
pub(crate) fn check_opening<B: Book, P: Picker, S: Shelf>(
    book: &B,
    picker: &P,
    shelf: &S,
    forget: Forgetting,
) -> Result<(), Refusal>
    ensures { result
        ≡ ok_unless
        (refuses_open (B.meaning book.now).n (P.meaning picker.now).n
        (S.meaning shelf.now).n forget) tt }
{
    let n = book.n();
    if n != picker.n() || n != shelf.n() {
        return Err(Refusal::OpenPartsDiffer);
    }
    if !in_range(forget) {
        return Err(Refusal::ForgettingOutOfRange);
    }
    Ok(())
}

// Whether no number of a forgetting rule is above 120.
fn in_range(forget: Forgetting) -> bool
    ensures { result ≡ in_range forget }
{
    match forget {
        Forgetting::KeepAll => true,
        Forgetting::Size(most) | Forgetting::Relevance(most) | Forgetting::Bounded(most) => {
            most <= MOST_PARTS
        }
        Forgetting::Both(k, m) => k <= MOST_PARTS && m <= MOST_PARTS,
    }
}

// Empties every place.
#[tactic(auto, using(std::proofs::lemmas::Grind::common_steps, shelf::proofs::Filling::fill_more))]
pub(crate) fn clear_all<S: Shelf>(shelf: &mut S)
    ensures { S.Shelf.meaning shelf.new ≡ emptied (S.Shelf.meaning shelf.old) }
{
    for before in 0..shelf.places() {
        let _ = shelf.clear(before + 1);
    }
}

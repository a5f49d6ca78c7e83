//! Forgetting: which lessons are cleared at the end of a turn.
ghost use Rattle.std.specs.Prelude.{◌≡◌, [], Some, Ok};
ghost use Rattle.std.specs.Option.{unwrap_or};
ghost use Rattle.parts.specs.Rows.{row_marks};
ghost use Rattle.shelf.specs.Meaning.{row_at, marks_of_place};
ghost use Rattle.search.specs.Trail.{row as settled_row};
ghost use Rattle.search.specs.Machine.{is_forgotten, open_count, drops, swept};

use search::Forgetting;
use shelf::Shelf;
use trail::Trail;

/// Whether a forgetting rule forgets a lesson of so many marks, so many of them open.
pub fn is_forgotten(forget: Forgetting, marks: usize, unsettled: usize) -> bool
    ensures { result ≡ is_forgotten forget marks unsettled }
{
    match forget {
        Forgetting::KeepAll => false,
        Forgetting::Size(most) => marks > most,
        Forgetting::Relevance(most) => unsettled > most,
        Forgetting::Bounded(least) => marks >= least && unsettled > 1,
        Forgetting::Both(most, least) => marks > most && unsettled >= least,
    }
}

// How many marks of the lesson in a place are open under the trail.
#[tactic(auto, using(crate::proofs::Lessons::open_none, crate::proofs::Lessons::open_end))]
fn open_marks<S: Shelf>(shelf: &S, place: usize, marks: usize, trail: &Trail) -> usize
    requires { Ok (Some marks) ≡ marks_of_place (S.Shelf.meaning shelf.now) place }
    ensures { result ≡ open_count (settled_row trail.now.n trail.now.entries)
        (row_marks (unwrap_or (row_at (S.Shelf.meaning shelf.now) place) [])) }
{
    let mut unsettled = 0;
    for passed in 0..marks {
        // There is one: as many were counted.
        let Ok(Some(mark)) = shelf.mark(place, passed + 1) else {
            break;
        };
        if trail.is_open(mark) {
            unsettled += 1;
        }
    }
    unsettled
}

// Whether the lesson in a place is cleared: it is forgotten, and no reason on the trail.
#[tactic(auto, unfolding(search::specs::Machine::drops))]
fn drops<S: Shelf>(shelf: &S, forget: Forgetting, trail: &Trail, place: usize) -> bool
    ensures { result
        ≡ drops forget (settled_row trail.now.n trail.now.entries) trail.now.entries place
        (row_at (S.Shelf.meaning shelf.now) place) }
{
    let Ok(Some(marks)) = shelf.marks(place) else {
        return false;
    };
    let unsettled = open_marks(shelf, place, marks, trail);
    is_forgotten(forget, marks, unsettled) && !trail.needed(place)
}

/// Clears each lesson that the rule forgets and that is no reason on the trail.
#[tactic(auto, using(crate::proofs::Lessons::all_kept, crate::proofs::Lessons::all_swept), unfolding(search::specs::Machine::swept))]
pub fn sweep<S: Shelf>(shelf: &mut S, forget: Forgetting, trail: &Trail)
    ensures { S.Shelf.meaning shelf.new
        ≡ swept forget (settled_row trail.now.n trail.now.entries) trail.now.entries
        (S.Shelf.meaning shelf.old) }
{
    if forget == Forgetting::KeepAll {
        return;
    }
    for before in 0..shelf.places() {
        if drops(shelf, forget, trail, before + 1) {
            let _ = shelf.clear(before + 1);
        }
    }
}

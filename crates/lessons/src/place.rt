//! The place of the shelf that is written next.
ghost use Rattle.std.specs.Prelude.{◌≡◌, ℕ, ◌^◌, ◌+◌, ◌<◌, Bool, not, length, find};
ghost use Rattle.parts.specs.Lists.{at_place};
ghost use Rattle.search.specs.Machine.{around, is_empty, needed, next_place};

use shelf::Shelf;
use trail::Trail;

/// The place to write: the next empty one after the last written, going round to it; else the next that is no reason on the trail; nothing where all are.
pub fn next_place<S: Shelf>(shelf: &S, last: usize, trail: &Trail) -> Option<usize>
    ensures { result ≡ next_place (S.Shelf.meaning shelf.now).rows last trail.now.entries }
{
    let places = shelf.places();
    first_empty(shelf, last).or_else(|| first_free(places, last, trail))
}

// The next empty place.
fn first_empty<S: Shelf>(shelf: &S, last: usize) -> Option<usize>
    ensures { result ≡ find (λ place. is_empty (at_place (S.Shelf.meaning shelf.now).rows place))
        (around last (length (S.Shelf.meaning shelf.now).rows)) }
{
    first_around(shelf.places(), last, |place| is_empty(shelf, place))
}

// Whether a place is empty; one that is out of range is not.
fn is_empty<S: Shelf>(shelf: &S, place: usize) -> bool
    ensures { result ≡ is_empty (at_place (S.Shelf.meaning shelf.now).rows place) }
{
    matches!(shelf.code(place, 1), Ok(None))
}

// The next of so many places that is no reason on the trail.
fn first_free(places: usize, last: usize, trail: &Trail) -> Option<usize>
    requires { places + 1 < 2 ^ 64 }
    ensures { result ≡ find (λ place. not (needed trail.now.entries place)) (around last places) }
{
    first_around(places, last, |place| !trail.needed(place))
}

// The first place that passes a test, of those after the last written, going round to it.
fn first_around<F: Fn(usize) -> bool>(places: usize, last: usize, passes: F) -> Option<usize>
    requires callable { F.IsAlwaysCallable passes }
    requires few { places + 1 < 2 ^ 64 }
    ensures { (test : ℕ → Bool)
        → ((place : ℕ) (answer : Bool) → F.post passes place answer → answer ≡ test place)
        → result ≡ find test (around last places) }
{
    (last.saturating_add(1)..=places)
        .chain(1..=last)
        .find(|place| passes(*place))
}

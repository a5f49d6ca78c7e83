// The second solver: it tries the sides of the parts in their order, and turns back where a rule is false. It learns nothing and settles nothing ahead.
use book::Book;
use parts::{Mark, Side};
use std::alloc::{AllocError, Global};

// The most settings of a part that are tried.
const MOST_TRIES: usize = 2_000_000;

// What the second solver tells.
#[derive(Clone, Copy, PartialEq, Eq)]
pub enum Outcome {
    SomeChoice,
    NoChoice,
    // when the most settings were tried
    GaveUp,
}

// A start of a choice: the sides of the first parts.
#[derive(Drop)]
struct Start {
    sides: Vec<Side>,
}

// Whether some choice meets every rule of the book and has the parts that the row names on their sides.
pub fn choice_under<B: Book>(heap: Global, book: &B, held: &[u8]) -> Result<Outcome, AllocError> {
    let mut start = Start {
        sides: Vec::new(heap),
    };
    for _ in 0..MOST_TRIES {
        if start.breaks(book) {
            if !start.turn_back(held)? {
                return Ok(Outcome::NoChoice);
            }
        } else if start.sides.len() == book.n() {
            return Ok(Outcome::SomeChoice);
        } else {
            start.go_on(held)?;
        }
    }
    Ok(Outcome::GaveUp)
}

impl Start {
    // Whether some rule is false whatever the other parts are.
    fn breaks<B: Book>(&self, book: &B) -> bool {
        (1..=book.rules()).any(|rule| self.breaks_rule(book, rule))
    }

    // Whether each mark of the rule is of a part on the other side.
    fn breaks_rule<B: Book>(&self, book: &B, rule: usize) -> bool {
        let marks = book.marks(rule).unwrap_or(0);
        (1..=marks).all(|place| book
            .mark(rule, place)
            .is_some_and(|mark| self.is_false(mark)))
    }

    // Whether the mark's part is on the other side.
    fn is_false(&self, mark: Mark) -> bool {
        let place = mark.part.saturating_sub(1);
        self.sides.get(place).is_some_and(|side| *side != mark.side)
    }

    // Settles the next part: as it is held, or else in.
    fn go_on(&mut self, held: &[u8]) -> Result<(), AllocError> {
        let side = held_side(held, self.sides.len()).unwrap_or(Side::In);
        self.sides.push(side)?;
        Ok(())
    }

    // Goes back to the last part that is in and not held, and puts it out; tells whether there is one.
    fn turn_back(&mut self, held: &[u8]) -> Result<bool, AllocError> {
        let places = 0..self.sides.len();
        let Some(place) = places.rev().find(|place| self.can_turn(*place, held)) else {
            return Ok(false);
        };
        self.sides.truncate(place);
        self.sides.push(Side::Out)?;
        Ok(true)
    }

    // Whether the part at a place, counted from 0, is in and not held.
    fn can_turn(&self, place: usize, held: &[u8]) -> bool {
        self.sides.get(place) == Some(&Side::In) && held_side(held, place).is_none()
    }
}

// The side that the part at a place of the row is held on, the places being counted from 0.
fn held_side(held: &[u8], place: usize) -> Option<Side> {
    Side::try_from(u64::from(*held.get(place)?)).ok()
}

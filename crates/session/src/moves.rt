//! What one step may do.
use parts::Mark;
use search::Reason;

// A turn on a rule, the mark that a rule forces, a hold to settle, all parts settled, or a question to the picker.
// Stays an enum that a step matches on: looking borrows the search that the step then changes, so no closure could be handed from one to the other.
#[derive(Clone, Copy)]
pub(crate) enum Move {
    TurnOn(Reason),
    Force(Mark, Reason),
    Settle(Mark),
    Fit,
    Ask,
}

//! Forgetting rules.

/// Which lessons are forgotten at the end of a turn (clause deletion). With s marks, u of them
/// open, a lesson is:
#[derive(Clone, Copy, Debug, PartialEq, Eq)]
pub enum Forgetting {
    /// never
    KeepAll,
    /// i: where s > i
    Size(usize),
    /// m: where u > m
    Relevance(usize),
    /// k: where s ≥ k and u > 1
    Bounded(usize),
    /// k, m: where s > k and u ≥ m
    Both(usize, usize),
}

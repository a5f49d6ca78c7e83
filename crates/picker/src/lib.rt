//! Pickers: which open part to settle next, and on what side.
#![tactic(auto)]

ghost use Rattle.std.specs.Prelude.{◌≡◌};
ghost use Rattle.picker.specs.Meaning.{Picks, Sound, picked};

mod lowest;
mod ranked;
#[cfg(test)]
mod tests;

pub use lowest::Lowest;
use parts::Mark;
pub use ranked::Ranked;

/// A picker over n parts (a branching heuristic). A question changes nothing.
pub trait Picker {
    // what the picker means
    ghost meaning: { Self → Picks };

    // 1 to 120 parts, and each chosen part is one of them and open
    ghost sound: { (p : Self) → Sound (meaning p) };

    /// How many parts there are.
    fn n(&self) -> usize
        ensures { result ≡ (meaning self.now).n };

    /// The mark to settle next in a row of n codes with an open part; nothing for any other row.
    fn pick(&self, row: &[u8]) -> Option<Mark>
        ensures { result ≡ picked (meaning self.now) row.now };
}

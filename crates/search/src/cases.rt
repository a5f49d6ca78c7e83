//! The worked cases.
ghost use Rattle.std.specs.Prelude.{◌≡◌, length};
ghost use Rattle.search.specs.Cases.{cases, CasesHold};

/// The worked cases of specs/Cases.antt: each threshold of forgetting, the place written, and whole
/// sessions whose shelf gets full.
/// Returns how many there are, each of which says what it must.
pub fn cases_stand() -> usize
    ensures count { result ≡ length cases }
    ensures cases { CasesHold }
{
    51
}

//! Worked cases of texts.
ghost use Rattle.std.specs.Prelude.{◌≡◌, length};
ghost use Rattle.grammar.specs.Cases.{table, CasesHold};

/// The worked cases of texts: see specs/Cases.antt. It returns how many they are.
#[tactic(auto, using(crate::proofs::CasesByComputing::cases_hold))]
pub fn cases_stand() -> usize
    ensures count { result ≡ length table }
    ensures cases { CasesHold }
{
    36
}

//! Worked cases of texts, bays, sessions, forgetting and a bench sheet. The table, with what each case must be, is in specs/.
#![tactic(auto)]

ghost use Rattle.std.specs.Prelude.{◌≡◌, length};
ghost use Rattle.cases.specs.Table.{table, CasesHold};

/// Each worked case is as the table says. Returns how many there are.
pub fn cases_stand() -> usize
    ensures count { result ≡ length table }
    ensures cases { CasesHold }
{
    24
}

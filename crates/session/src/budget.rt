//! The budget of a run.
ghost use Rattle.std.specs.Prelude.{◌≡◌, None};
ghost use Rattle.search.specs.Calls.{ok_unless, refuses_budget};

use parts::Refusal;
use parts::limits::MOST_BUDGET;

/// Accepts a budget from 1 to 1,000,000 steps; refuses any other with 21.
pub fn check_budget(budget: usize) -> Result<(), Refusal>
    ensures { result ≡ ok_unless (refuses_budget budget None) tt }
{
    if budget == 0 || budget > MOST_BUDGET {
        return Err(Refusal::BudgetOutOfRange);
    }
    Ok(())
}

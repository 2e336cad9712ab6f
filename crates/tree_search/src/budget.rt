//! The budget of nodes of a search.
ghost use Rattle.std.specs.Prelude.{◌≡◌, ◌<◌, ◌≤◌, IfSome, MatchOption};
ghost use Rattle.tree_search.specs.Answer.{IsWithin};
ghost use Rattle.tree_search.specs.Budget.{max_budget, budget_in};

use branch_tree::MAX_TREE_NUMBERS;
use instance_store::Instance;

/// The budget of nodes of a search where none is given, unless it is past the greatest one.
pub const DEFAULT_BUDGET: u32 = 20_000;

/// The budget in force where this one is given, or none; None where one is given that is past the
/// greatest, `max_nodes`.
pub fn budget_in(inst: &Instance, given: Option<u32>) -> Option<u32>
    ensures exact { MatchOption result (max_budget inst.now < budget_in inst.now given)
        (λ budget. budget ≡ budget_in inst.now given) }
    ensures small { IfSome result (λ budget. budget ≤ max_budget inst.now) }
    ensures within { IfSome result (IsWithin inst.now) }
{
    let greatest = max_nodes(inst);
    let budget = given.unwrap_or(greatest.min(DEFAULT_BUDGET));
    if budget > greatest {
        None
    } else {
        Some(budget)
    }
}

/// The greatest number of nodes of a tree from which a search of this instance starts, and the greatest
/// budget.
pub fn max_nodes(inst: &Instance) -> u32
    ensures exact { result ≡ max_budget inst.now }
    ensures within { IsWithin inst.now result }
{
    let duals = inst.sites() as u64 + inst.custs() as u64;
    (MAX_TREE_NUMBERS / (2 * duals)) as u32
}

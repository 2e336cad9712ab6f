//! What an answer shows: its claim, and the plan and the tree that show it.
ghost use Rattle.std.specs.Prelude.{◌≡◌, IfSome};
ghost use Rattle.std.specs.Option.{option_copied};
ghost use Rattle.location_terms.specs.Plan.{IsFeasible};
ghost use Rattle.tree_search.specs.Answer.{claim_in, cost_in, made_in, plan_in, tree_in};

use crate::Answer;
use crate::incumbent::plan_cost;
use branch_tree::Tree;
use instance_store::Instance;
use location_terms::Claim;
use plan_meaning::Plan;

impl Answer {
    /// What is claimed of the instance that was searched.
    pub fn claim(&self, inst: &Instance) -> Claim
        requires { IfSome (plan_in self.now) (IsFeasible inst.now) }
        ensures { result ≡ claim_in inst.now self.now }
    {
        match self {
            Answer::Optimal { cost, .. } => Claim::Optimal(*cost),
            Answer::Infeasible { .. } => Claim::Infeasible,
            Answer::Bracket { low, plan, .. } => Claim::Bracket {
                low: *low,
                high: cost_of(inst, plan.as_ref()),
            },
        }
    }

    /// The plan, if there is one.
    pub fn plan(&self) -> Option<&Plan>
        ensures { option_copied result ≡ plan_in self.now }
    {
        match self {
            Answer::Optimal { plan, .. } => Some(plan),
            Answer::Infeasible { .. } => None,
            Answer::Bracket { plan, .. } => plan.as_ref(),
        }
    }

    /// The tree.
    pub fn tree(&self) -> &Tree
        ensures { result.now ≡ tree_in self.now }
    {
        match self {
            Answer::Optimal { tree, .. }
            | Answer::Infeasible { tree, .. }
            | Answer::Bracket { tree, .. } => tree,
        }
    }

    /// How many nodes the splits of the search made.
    pub fn made(&self) -> u32
        ensures { result ≡ made_in self.now }
    {
        match self {
            Answer::Optimal { made, .. }
            | Answer::Infeasible { made, .. }
            | Answer::Bracket { made, .. } => *made,
        }
    }
}

// What a plan costs, where there is one.
fn cost_of(inst: &Instance, plan: Option<&Plan>) -> Option<u64>
    requires { IfSome (option_copied plan) (IsFeasible inst.now) }
    ensures { result ≡ cost_in inst.now (option_copied plan.entry) }
{
    match plan {
        Some(plan) => Some(plan_cost(inst, plan)),
        None => None,
    }
}

//! The search for a center.
ghost use Rattle.std.specs.Prelude.{ℕ, ◌+◌, ◌^◌, ◌≤◌, IfOk};
ghost use Rattle.location_terms.specs.Instance.{IsValid};
ghost use Rattle.location_terms.specs.Plan.{IsFeasible};
ghost use Rattle.tree_search.specs.Answer.{IsWithin, most_decisions};
ghost use Rattle.center_solve.specs.declared.probe.Finding.TheVariants.{Open as StaysOpen};
ghost use Rattle.center_solve.specs.Center.{IsJustAboveLanes, IsCenterAnswer, CenterHolds, HasEndedSearch};
ghost use Rattle.center_solve.specs.Probing.{IsProbeOf};

use crate::CenterAnswer;
use crate::greatest::above_lanes;
use crate::known::{Known, narrowed};
use crate::lane_costs::lane_costs;
use crate::probe::{Finding, probe};
use crate::ray::tree_within;
use crate::reach::{at_nothing, farthest};
use instance_store::{Instance, NoMemory};
use plan_meaning::Plan;
use plan_radius::radius_of;
use std::alloc::Global;
use tree_search::Tree;

/// Seeks the plan that makes the farthest customer as near as can be, whatever it costs: a feasible plan of
/// the least radius.
///
/// Probes ask whether some plan's radius is below a cost, first below more than every lane costs, and then
/// by bisection over the costs of lanes. Each is a search of its own, of at most `budget` nodes, and the first
/// that its budget ends without an answer ends the whole. Where that is the first of all, no plan is known, and of
/// the best radius nothing. It fails only where memory runs out.
pub fn center(alloc: Global, inst: &Instance, budget: u32) -> Result<CenterAnswer, NoMemory>
    requires { IsWithin inst.now budget }
    ensures shown { IfOk result (IsCenterAnswer inst.now budget) }
    ensures holds { IfOk result (CenterHolds inst.now) }
    ensures settled { 2 ^ (most_decisions inst.now + 1) ≤ budget → IfOk result HasEndedSearch }
{
    // An instance is valid.
    let _sites = inst.sites();
    let answer = sought(alloc, inst, budget)?;
    Ok(answer)
}

// What the probes come to.
fn sought(alloc: Global, inst: &Instance, budget: u32) -> Result<CenterAnswer, NoMemory>
    requires within { IsWithin inst.now budget }
    requires valid { IsValid inst.now }
    ensures shown { IfOk result (IsCenterAnswer inst.now budget) }
    ensures settled { 2 ^ (most_decisions inst.now + 1) ≤ budget → IfOk result HasEndedSearch }
{
    let at = above_lanes(inst);
    match probe(alloc, inst, at, budget)? {
        Finding::Found(plan) => found(alloc, inst, plan, budget),
        Finding::Empty(tree) => Ok(CenterAnswer::Infeasible { tree }),
        Finding::Open(tree) => {
            let answer = open_at_first(alloc, inst, at, tree)?;
            Ok(answer)
        }
    }
}

// The answer where a feasible plan is known.
fn found(alloc: Global, inst: &Instance, plan: Plan, budget: u32) -> Result<CenterAnswer, NoMemory>
    requires within { IsWithin inst.now budget }
    requires valid { IsValid inst.now }
    requires feasible { IsFeasible inst.now plan }
    ensures answer { IfOk result (IsCenterAnswer inst.now budget) }
    ensures settled { 2 ^ (most_decisions inst.now + 1) ≤ budget → IfOk result HasEndedSearch }
{
    let radius = radius_of(inst, &plan);
    // No radius is below the cost of the cheapest lane to any customer.
    let reach = farthest(inst);
    let tree = tree_within(alloc, inst, reach)?;
    let costs = lane_costs(alloc, inst)?;
    let known = Known {
        low: reach.cost,
        tree,
        radius,
        plan,
    };
    narrowed(alloc, inst, &costs, known, budget)
}

// The answer where the first probe stayed open.
fn open_at_first(
    alloc: Global,
    inst: &Instance,
    at: u64,
    probe: Tree,
) -> Result<CenterAnswer, NoMemory>
    requires valid { IsValid inst.now }
    requires just { IsJustAboveLanes inst.now at }
    ensures { IfOk result (λ answer. (budget : ℕ) → IsProbeOf inst.now at budget (StaysOpen probe) → IsCenterAnswer inst.now budget answer) }
{
    let reach = at_nothing(inst);
    let tree = tree_within(alloc, inst, reach)?;
    Ok(CenterAnswer::Open {
        low: reach.cost,
        plan: None,
        tree,
        at,
        probe,
    })
}

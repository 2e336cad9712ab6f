//! The radius of a plan.
ghost use Rattle.std.specs.Prelude.{◌≡◌, ◌≤◌};
ghost use Rattle.location_terms.specs.Instance.{IsValid};
ghost use Rattle.location_terms.specs.Plan.{IsFeasible};
ghost use Rattle.location_terms.specs.declared.limits.TheConstants.{MAX_AMOUNT};
ghost use Rattle.plan_meaning.specs.PlanFault.{ServesEachOnce, UsesLanes};
ghost use Rattle.plan_radius.specs.Radius.{radius_of};

use instance_store::Instance;
use plan_meaning::{Plan, lane_used};

/// The radius of a feasible plan: the greatest cost of a lane that it uses, in millionths.
pub fn radius_of(inst: &Instance, plan: &Plan) -> u64
    requires { IsFeasible inst.now plan.now }
    ensures exact { result ≡ radius_of inst.now plan.now }
    ensures small { result ≤ MAX_AMOUNT }
{
    // An instance is valid, so that amounts are within their limit.
    let _sites = inst.sites();
    greatest_used(inst, plan)
}

// The greatest cost of a lane that the plan uses.
fn greatest_used(inst: &Instance, plan: &Plan) -> u64
    requires valid { IsValid inst.now }
    requires once { ServesEachOnce inst.now plan.now }
    requires lanes { UsesLanes inst.now plan.now }
    ensures exact { result ≡ radius_of inst.now plan.now }
    ensures small { result ≤ MAX_AMOUNT }
{
    let mut greatest = 0_u64;
    for k in 0..plan.serve_count() {
        let cost = lane_used(inst, plan, k).unwrap();
        greatest = greatest.max(cost);
    }
    greatest
}

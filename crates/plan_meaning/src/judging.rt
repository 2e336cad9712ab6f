ghost use Rattle.std.specs.Prelude.{◌≡◌, IfOk, IfErr};
ghost use Rattle.location_terms.specs.Plan.{IsFeasible, cost_of};
ghost use Rattle.plan_meaning.specs.PlanFault.{IsFirstFault};

use crate::amounts::cost;
use crate::parts::{
    keeps_caps, keeps_count, keeps_statuses, knows_sites, serves_each_once, serves_from_open,
    uses_lanes,
};
use crate::{Plan, PlanFault};
use instance_store::Instance;

/// What the plan costs, in millionths, if it is feasible for the instance.
///
/// Otherwise the first part of feasibility that fails, in the order of `PlanFault`.
pub fn judge(inst: &Instance, plan: &Plan) -> Result<u64, PlanFault>
    ensures feasible { IfOk result (λ _. IsFeasible inst.now plan.now) }
    ensures cost { IfOk result (λ cost. cost ≡ cost_of inst.now plan.now) }
    ensures fault { IfErr result (λ fault. IsFirstFault inst.now plan.now fault) }
{
    if !knows_sites(inst, plan) {
        return Err(PlanFault::UnknownSite);
    }
    if !serves_each_once(inst, plan) {
        return Err(PlanFault::NotEachCustomerOnce);
    }
    if !serves_from_open(plan) {
        return Err(PlanFault::ServedByClosed);
    }
    if !uses_lanes(inst, plan) {
        return Err(PlanFault::NoLane);
    }
    if !keeps_caps(inst, plan) {
        return Err(PlanFault::OverCapacity);
    }
    if !keeps_count(inst, plan) {
        return Err(PlanFault::SiteCount);
    }
    if !keeps_statuses(inst, plan) {
        return Err(PlanFault::StatusBroken);
    }
    Ok(cost(inst, plan))
}

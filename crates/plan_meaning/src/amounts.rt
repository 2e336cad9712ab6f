//! What a site serves and what a plan costs, in millionths, by the places of the instance.
ghost use Rattle.std.specs.Prelude.{◌≡◌, ℕ, ◌+◌, ◌*◌, ◌<◌, ◌≤◌, length, sum_by, unwrap_or, Contains, IfSome};
ghost use Rattle.location_terms.specs.Instance.{IsValid, site_ids, lane, fixed_of};
ghost use Rattle.location_terms.specs.Plan.{cost_of, load_of};
ghost use Rattle.location_terms.specs.declared.limits.TheConstants.{MAX_AMOUNT, MAX_SITES, MAX_CUSTOMERS};
ghost use Rattle.plan_meaning.specs.Plan.{serve_at};
ghost use Rattle.plan_meaning.specs.PlanFault.{KnowsSites, ServesEachOnce, UsesLanes, KeepsCount};

use crate::Plan;
use instance_store::{Instance, SiteId};

/// The lane by which the customer at place `k` is served, which stands at that place of the
/// instance too.
pub fn lane_used(inst: &Instance, plan: &Plan, k: usize) -> Option<u64>
    requires place { k < length plan.now.serves }
    requires valid { IsValid inst.now }
    requires once { ServesEachOnce inst.now plan.now }
    ensures exact { result ≡ lane inst.now (serve_at plan.now k).1 (serve_at plan.now k).0 }
    ensures small { IfSome result (λ cost. cost ≤ MAX_AMOUNT) }
{
    let (_, site) = plan.serve(k);
    match inst.site_at(site) {
        None => None,
        Some(i) => inst.lane(i, k),
    }
}

/// The demands that the site serves, together.
pub fn load(inst: &Instance, plan: &Plan, site: SiteId) -> u64
    requires valid { IsValid inst.now }
    requires once { ServesEachOnce inst.now plan.now }
    ensures { result ≡ load_of inst.now plan.now site }
{
    let mut load = 0;
    for k in 0..plan.serve_count() {
        let (_, from) = plan.serve(k);
        if from == site {
            load += inst.demand(k);
        }
    }
    load
}

/// What a feasible plan costs.
pub fn cost(inst: &Instance, plan: &Plan) -> u64
    requires valid { IsValid inst.now }
    requires known { KnowsSites inst.now plan.now }
    requires once { ServesEachOnce inst.now plan.now }
    requires lanes { UsesLanes inst.now plan.now }
    requires count { KeepsCount inst.now plan.now }
    ensures { result ≡ cost_of inst.now plan.now }
{
    fixed_costs(inst, plan) + lane_costs(inst, plan)
}

fn fixed_costs(inst: &Instance, plan: &Plan) -> u64
    requires valid { IsValid inst.now }
    requires known { KnowsSites inst.now plan.now }
    requires count { KeepsCount inst.now plan.now }
    ensures exact { result ≡ sum_by (fixed_of inst.now) plan.now.sites }
    ensures small { result ≤ MAX_SITES * MAX_AMOUNT }
{
    let mut cost = 0;
    for k in 0..plan.site_count() {
        cost += fixed_cost(inst, plan.site(k));
    }
    cost
}

/// What it costs to open a site of the instance, in millionths.
pub fn fixed_cost(inst: &Instance, site: SiteId) -> u64
    requires valid { IsValid inst.now }
    requires known { Contains (site_ids inst.now) site }
    ensures exact { result ≡ fixed_of inst.now site }
    ensures small { result ≤ MAX_AMOUNT }
{
    let i = inst.site_at(site).unwrap();
    inst.fixed(i)
}

fn lane_costs(inst: &Instance, plan: &Plan) -> u64
    requires valid { IsValid inst.now }
    requires once { ServesEachOnce inst.now plan.now }
    requires lanes { UsesLanes inst.now plan.now }
    ensures exact { result ≡ sum_by (λ v. unwrap_or (lane inst.now v.1 v.0) 0) plan.now.serves }
    ensures small { result ≤ MAX_CUSTOMERS * MAX_AMOUNT }
{
    let mut cost = 0;
    for k in 0..plan.serve_count() {
        cost += lane_used(inst, plan, k).unwrap();
    }
    cost
}

//! The ranges of costs.
ghost use Rattle.std.specs.Prelude.{◌≡◌, ℕ, ◌≤◌, ◌<◌, ◌==◌, ◌&&◌, Contains, IsSome, IfOk, IfErr, length};
ghost use Rattle.std.specs.List.{list_any};
ghost use Rattle.location_terms.specs.declared.limits.TheConstants.{MAX_AMOUNT};
ghost use Rattle.location_terms.specs.Instance.{site_at, customer_at, site_ids, lane, fixed_of};
ghost use Rattle.location_terms.specs.Optimal.{IsOptimal};
ghost use Rattle.instance_store.specs.Changes.{with_fixed};
ghost use Rattle.range_scan.specs.Prices.{with_lane_costing, lane_cost_of};
ghost use Rattle.range_scan.specs.Range.{IsProvedOptimal, IsInRange, IsCostRange, IsFixedRefusal, IsLaneRefusal};
ghost use Rattle.range_scan.specs.Short.{IsFixedLack, IsLaneLack, far_end, range_short};

use crate::lacking::lack;
use crate::{Range, RangeRefusal};
use branch_tree::Tree;
use instance_store::{CustId, Instance, NoMemory, SiteId};
use location_terms::MAX_AMOUNT;
use plan_meaning::Plan;
use std::alloc::Global;

/// How far the fixed cost of a site may move while the tree, which proves the plan optimal now, still
/// does: the greatest range of amounts around the present one, in millionths. At each of them the plan is
/// optimal. A cost that the plan pays may always fall, and one that it doesn't pay may always rise. It
/// fails where there is no such site, or where memory runs out.
pub fn fixed_range(
    alloc: Global,
    inst: &Instance,
    tree: &Tree,
    plan: &Plan,
    site: SiteId,
) -> Result<Range, RangeRefusal>
    requires { IsProvedOptimal inst.now tree.now plan.now }
    ensures range { IfOk result (IsCostRange (with_fixed inst.now site) (fixed_of inst.now site) tree.now plan.now) }
    ensures optimal { IfOk result (λ range. (x : ℕ) → IsInRange range x → IsOptimal (with_fixed inst.now site x) plan.now) }
    ensures known { IfOk result (λ _. Contains (site_ids inst.now) site) }
    ensures refused { IfErr result (IsFixedRefusal inst.now site) }
{
    let _valid = inst.sites();
    let Some(place) = inst.site_at(site) else {
        return Err(RangeRefusal::NoSite);
    };
    let is_open = plan.opens(site);
    let lack = fixed_lack(alloc, inst, tree, plan, place, far_end(is_open))?;
    Ok(range_short(is_open, lack))
}

/// How far the cost of a lane may move while the tree, which proves the plan optimal now, still does: the
/// greatest range of amounts around the present one, in millionths. At each of them the plan is optimal. A
/// cost that the plan pays may always fall, and one that it doesn't pay may always rise. It fails where
/// there is no such site, customer or lane, or where memory runs out.
pub fn lane_range(
    alloc: Global,
    inst: &Instance,
    tree: &Tree,
    plan: &Plan,
    site: SiteId,
    cust: CustId,
) -> Result<Range, RangeRefusal>
    requires { IsProvedOptimal inst.now tree.now plan.now }
    ensures range { IfOk result (IsCostRange (with_lane_costing inst.now site cust) (lane_cost_of inst.now site cust) tree.now plan.now) }
    ensures optimal { IfOk result (λ range. (x : ℕ) → IsInRange range x → IsOptimal (with_lane_costing inst.now site cust x) plan.now) }
    ensures known { IfOk result (λ _. IsSome (lane inst.now site cust)) }
    ensures refused { IfErr result (IsLaneRefusal inst.now site cust) }
{
    let _valid = inst.sites();
    let Some(from) = inst.site_at(site) else {
        return Err(RangeRefusal::NoSite);
    };
    let Some(to) = inst.cust_at(cust) else {
        return Err(RangeRefusal::NoCustomer);
    };
    if inst.lane(from, to).is_none() {
        return Err(RangeRefusal::NoLane);
    }
    let is_used = uses_lane(plan, site, cust);
    let lack = lane_lack(alloc, inst, tree, plan, from, to, far_end(is_used))?;
    Ok(range_short(is_used, lack))
}

// What the leaves lack where the site at place `site` costs so much to open.
fn fixed_lack(
    alloc: Global,
    inst: &Instance,
    tree: &Tree,
    plan: &Plan,
    site: usize,
    cost: u64,
) -> Result<u128, NoMemory>
    requires proved { IsProvedOptimal inst.now tree.now plan.now }
    requires place { site < length inst.now.sites }
    requires small { cost ≤ MAX_AMOUNT }
    ensures { IfOk result (IsFixedLack inst.now tree.now plan.now (site_at inst.now site).id cost) }
{
    let _valid = inst.sites();
    let mut moved = inst.copied(alloc)?;
    moved.set_fixed(site, cost);
    lack(alloc, &moved, tree, plan)
}

// What the leaves lack where the lane from the site at place `site` to the customer at place `cust` costs
// so much.
fn lane_lack(
    alloc: Global,
    inst: &Instance,
    tree: &Tree,
    plan: &Plan,
    site: usize,
    cust: usize,
    cost: u64,
) -> Result<u128, NoMemory>
    requires proved { IsProvedOptimal inst.now tree.now plan.now }
    requires site { site < length inst.now.sites }
    requires customer { cust < length inst.now.customers }
    requires there { IsSome (lane inst.now (site_at inst.now site).id (customer_at inst.now cust).id) }
    requires small { cost ≤ MAX_AMOUNT }
    ensures { IfOk result (IsLaneLack inst.now tree.now plan.now (site_at inst.now site).id (customer_at inst.now cust).id cost) }
{
    let _valid = inst.sites();
    let mut moved = inst.copied(alloc)?;
    moved.set_lane(site, cust, Some(cost));
    lack(alloc, &moved, tree, plan)
}

// Whether the plan serves the customer from the site.
fn uses_lane(plan: &Plan, site: SiteId, cust: CustId) -> bool
    ensures { result ≡ list_any (λ v. (v.1 == site) && (v.0 == cust)) plan.now.serves }
{
    match plan.server(cust) {
        Some(from) => from == site,
        None => false,
    }
}

// How far a cost may move at most: up where the plan pays it, and down where it doesn't.
fn far_end(is_paid: bool) -> u64
    ensures exact { result ≡ far_end is_paid }
    ensures small { result ≤ MAX_AMOUNT }
{
    if is_paid { MAX_AMOUNT } else { 0 }
}

// The range, where leaves lack so much with the cost at its far end.
fn range_short(is_paid: bool, lack: u128) -> Range
    requires { lack ≤ MAX_AMOUNT }
    ensures { result ≡ range_short is_paid lack }
{
    let lack = lack as u64;
    if is_paid {
        Range {
            least: 0,
            greatest: MAX_AMOUNT - lack,
        }
    } else {
        Range {
            least: lack,
            greatest: MAX_AMOUNT,
        }
    }
}

//! Good plans in a box.
ghost use Rattle.std.specs.Prelude.{◌≡◌, ◌⊎◌, ◌<◌, ◌≤◌, IfOk, IfSome, Some};
ghost use Rattle.location_terms.specs.Plan.{IsFeasible, cost_of};
ghost use Rattle.location_terms.specs.Box.{IsInBox};
ghost use Rattle.lane_order.specs.Order.{IsOrderOf};
ghost use Rattle.plan_search.specs.InBox.{IsPathOf, HasNoCaps, SettlesSites, IsNoWorse, IsBestIn};
ghost use Rattle.plan_search.specs.Packed.{packed};

use crate::caps::has_no_caps;
use crate::chosen::chosen;
use crate::local::LocalSearch;
use crate::packing::pack;
use assignment_search::{assigned_plan, seated_plan};
use dual_value::{Path, PreparedBox};
use instance_store::{Instance, NoMemory, SiteId};
use lane_order::LaneOrder;
use plan_meaning::{Plan, cost};
use std::alloc::Global;

/// A plan in the box of the path. It costs at most as much as what is packed for the hint, and none is
/// given only where none is packed. Where no site has a capacity and each is opened or closed in the box,
/// it is a cheapest plan of the box, and none is given only where the box holds none.
///
/// It fails only where memory runs out.
pub fn best_seen(
    alloc: Global,
    inst: &Instance,
    order: &LaneOrder,
    path: &Path,
    hint: &[SiteId],
) -> Result<Option<Plan>, NoMemory>
    requires order { IsOrderOf order.now inst.now }
    requires path { IsPathOf inst.now path.now }
    ensures feasible { IfOk result (λ plan. IfSome plan (IsFeasible inst.now)) }
    ensures in_box { IfOk result (λ plan. IfSome plan (λ P. IsInBox P path.now)) }
    ensures packed { IfOk result (λ plan. IsNoWorse inst.now plan (packed inst.now path.now hint.now)) }
    ensures cheapest { HasNoCaps inst.now → SettlesSites inst.now path.now → IfOk result (IsBestIn inst.now path.now) }
{
    let boxed = PreparedBox::of(alloc, inst, path)?;
    best_in(alloc, &boxed, order, hint)
}

// The same in a box that is prepared.
fn best_in(
    alloc: Global,
    boxed: &PreparedBox,
    order: &LaneOrder,
    hint: &[SiteId],
) -> Result<Option<Plan>, NoMemory>
    requires order { IsOrderOf order.now boxed.now.instance }
    requires path { IsPathOf boxed.now.instance boxed.now.path }
    ensures feasible { IfOk result (λ plan. IfSome plan (IsFeasible boxed.now.instance)) }
    ensures in_box { IfOk result (λ plan. IfSome plan (λ P. IsInBox P boxed.now.path)) }
    ensures packed { IfOk result (λ plan. IsNoWorse boxed.now.instance plan (packed boxed.now.instance boxed.now.path hint.now)) }
    ensures cheapest { HasNoCaps boxed.now.instance → SettlesSites boxed.now.instance boxed.now.path → IfOk result (IsBestIn boxed.now.instance boxed.now.path) }
{
    let flags = chosen(alloc, boxed, hint)?;
    let mut work = LocalSearch::of(alloc, boxed.instance())?;
    let found = improved_set(alloc, boxed, order, &mut work, &flags, None)?;
    let packed = packed_in(alloc, boxed, order, hint)?;
    Ok(cheaper(boxed, packed, found))
}

/// The plan that is packed for the hint in a box that is prepared, with no search behind it: what
/// `best_seen` begins with.
pub fn packed_in(
    alloc: Global,
    boxed: &PreparedBox,
    order: &LaneOrder,
    hint: &[SiteId],
) -> Result<Option<Plan>, NoMemory>
    requires order { IsOrderOf order.now boxed.now.instance }
    requires path { IsPathOf boxed.now.instance boxed.now.path }
    ensures exact { IfOk result (λ plan. plan ≡ packed boxed.now.instance boxed.now.path hint.now) }
    ensures feasible { IfOk result (λ plan. IfSome plan (IsFeasible boxed.now.instance)) }
    ensures in_box { IfOk result (λ plan. IfSome plan (λ P. IsInBox P boxed.now.path)) }
    ensures cheapest { HasNoCaps boxed.now.instance → SettlesSites boxed.now.instance boxed.now.path → IfOk result (IsBestIn boxed.now.instance boxed.now.path) }
{
    let plan = pack(alloc, boxed, order, hint)?;
    Ok(plan)
}

/// A plan in the box that is sought from a set of open sites: the free sites that are flagged, by place,
/// and those that are opened in the box. Sites are opened, closed and exchanged from there while that
/// saves, and under capacities customers are assigned to the open ones. It is for sets of any size: too few
/// or too many open sites are brought within the instance's count.
///
/// The plan is only proposed: that none is given says nothing of the box. With a limit it costs less than
/// that many millionths. It fails only where memory runs out.
pub fn improved_set(
    alloc: Global,
    boxed: &PreparedBox,
    order: &LaneOrder,
    work: &mut LocalSearch,
    flags: &[bool],
    limit: Option<u64>,
) -> Result<Option<Plan>, NoMemory>
    requires order { IsOrderOf order.now boxed.now.instance }
    requires path { IsPathOf boxed.now.instance boxed.now.path }
    ensures feasible { IfOk result (λ plan. IfSome plan (IsFeasible boxed.now.instance)) }
    ensures in_box { IfOk result (λ plan. IfSome plan (λ P. IsInBox P boxed.now.path)) }
    ensures limited { IfSome limit (λ most. IfOk result (λ plan. IfSome plan (λ P. cost_of boxed.now.instance P < most))) }
{
    let inst = boxed.instance();
    if !has_no_caps(inst) {
        let plan = assigned_plan(alloc, boxed, &mut work.assignment, flags)?;
        return Ok(below(inst, plan, limit));
    }
    work.search(boxed, order, flags)?;
    if work.cost() >= limit.unwrap_or(u64::MAX) {
        return Ok(None);
    }
    let hint = work.open_sites(alloc, inst)?;
    let plan = packed_in(alloc, boxed, order, &hint)?;
    Ok(below(inst, plan, limit))
}

/// A feasible plan, sought in a box without free sites around a site that is named for each customer, by place.
/// Nothing says that it is in the box, and that none is given says nothing of the box. It fails only where
/// memory runs out.
pub fn plan_around(
    alloc: Global,
    boxed: &PreparedBox,
    work: &mut LocalSearch,
    named: &[usize],
) -> Result<Option<Plan>, NoMemory>
    ensures { IfOk result (λ plan. IfSome plan (IsFeasible boxed.now.instance)) }
{
    let plan = seated_plan(alloc, boxed, &mut work.assignment, named)?;
    Ok(plan)
}

// The feasible plan, where it costs less than the limit, if there is one.
fn below(inst: &Instance, plan: Option<Plan>, limit: Option<u64>) -> Option<Plan>
    requires { IfSome plan (IsFeasible inst.now) }
    ensures same { IfSome result (λ P. plan ≡ Some P) }
    ensures limited { IfSome limit (λ most. IfSome result (λ P. cost_of inst.now P < most)) }
{
    let Some(limit) = limit else {
        return plan;
    };
    let _sites = inst.sites();
    let plan = plan?;
    if cost(inst, &plan) < limit {
        Some(plan)
    } else {
        None
    }
}

// The one of two plans of the box that costs less, and the first where they cost the same.
fn cheaper(boxed: &PreparedBox, plan: Option<Plan>, other: Option<Plan>) -> Option<Plan>
    requires plan_feasible { IfSome plan (IsFeasible boxed.now.instance) }
    requires plan_in_box { IfSome plan (λ P. IsInBox P boxed.now.path) }
    requires other_feasible { IfSome other (IsFeasible boxed.now.instance) }
    requires other_in_box { IfSome other (λ P. IsInBox P boxed.now.path) }
    ensures feasible { IfSome result (IsFeasible boxed.now.instance) }
    ensures in_box { IfSome result (λ P. IsInBox P boxed.now.path) }
    ensures no_worse { IsNoWorse boxed.now.instance result plan }
{
    match (plan, other) {
        (None, other) => other,
        (Some(plan), None) => Some(plan),
        (Some(plan), Some(other)) => Some(cheaper_plan(boxed.instance(), plan, other)),
    }
}

// The one of two feasible plans that costs less, and the first where they cost the same.
fn cheaper_plan(inst: &Instance, plan: Plan, other: Plan) -> Plan
    requires plan { IsFeasible inst.now plan }
    requires other { IsFeasible inst.now other }
    ensures either { (result ≡ plan) ⊎ (result ≡ other) }
    ensures cost { cost_of inst.now result ≤ cost_of inst.now plan }
{
    let _sites = inst.sites();
    if cost(inst, &other) < cost(inst, &plan) {
        other
    } else {
        plan
    }
}

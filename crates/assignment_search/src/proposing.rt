//! Plans from assignments that were only proposed: each is judged before it is given.
ghost use Rattle.std.specs.Prelude.{IfOk, IfSome};
ghost use Rattle.location_terms.specs.Plan.{IsFeasible};
ghost use Rattle.location_terms.specs.Box.{IsInBox};

use crate::assignment::Assignment;
use crate::within::is_in_box;
use dual_value::PreparedBox;
use instance_store::{CustId, Instance, NoMemory, SiteId};
use plan_meaning::{Plan, judge};
use std::alloc::Global;

/// A plan in the box, by a search among assignments from a set of open sites: the free sites that are
/// flagged, by place, and those that are opened in the box. None is given where none was found. It fails
/// only where memory runs out.
pub fn assigned_plan(
    alloc: Global,
    boxed: &PreparedBox,
    work: &mut Assignment,
    flags: &[bool],
) -> Result<Option<Plan>, NoMemory>
    ensures feasible { IfOk result (λ plan. IfSome plan (IsFeasible boxed.now.instance)) }
    ensures in_box { IfOk result (λ plan. IfSome plan (λ P. IsInBox P boxed.now.path)) }
{
    work.search(boxed, flags)?;
    found(alloc, boxed, work)
}

/// A plan in the box that opens just the sites which are opened there: each customer is served from the site
/// that is named for it, by place, as far as there is room, and the others are assigned beside them. None is
/// given where none was found. It fails only where memory runs out.
pub fn seated_plan(
    alloc: Global,
    boxed: &PreparedBox,
    work: &mut Assignment,
    named: &[usize],
) -> Result<Option<Plan>, NoMemory>
    ensures feasible { IfOk result (λ plan. IfSome plan (IsFeasible boxed.now.instance)) }
    ensures in_box { IfOk result (λ plan. IfSome plan (λ P. IsInBox P boxed.now.path)) }
{
    work.seat(boxed, named)?;
    found(alloc, boxed, work)
}

// What the search found, where it is a plan in the box.
fn found(alloc: Global, boxed: &PreparedBox, work: &Assignment) -> Result<Option<Plan>, NoMemory>
    ensures feasible { IfOk result (λ plan. IfSome plan (IsFeasible boxed.now.instance)) }
    ensures in_box { IfOk result (λ plan. IfSome plan (λ P. IsInBox P boxed.now.path)) }
{
    let sites = open_ids(alloc, boxed.instance(), work)?;
    let serves = services(alloc, boxed.instance(), work)?;
    Ok(judged(boxed, Plan::new(sites, serves)))
}

// The plan, where it is feasible and in the box.
fn judged(boxed: &PreparedBox, plan: Option<Plan>) -> Option<Plan>
    ensures feasible { IfSome result (IsFeasible boxed.now.instance) }
    ensures in_box { IfSome result (λ P. IsInBox P boxed.now.path) }
{
    let plan = plan?;
    if judge(boxed.instance(), &plan).is_ok() && is_in_box(&plan, boxed.path()) {
        Some(plan)
    } else {
        None
    }
}

fn open_ids(alloc: Global, inst: &Instance, work: &Assignment) -> Result<Vec<SiteId>, NoMemory> {
    let mut ids = Vec::new(alloc);
    for site in 0..inst.sites() {
        if work.is_open(site) {
            ids.push(inst.site_id(site))?;
        }
    }
    Ok(ids)
}

fn services(
    alloc: Global,
    inst: &Instance,
    work: &Assignment,
) -> Result<Vec<(CustId, SiteId)>, NoMemory> {
    let mut serves = Vec::with_capacity(alloc, inst.custs())?;
    for cust in 0..inst.custs() {
        if let Some(site) = work.site_of(cust) {
            if site < inst.sites() {
                serves.push((inst.cust_id(cust), inst.site_id(site)))?;
            }
        }
    }
    Ok(serves)
}

//! Each part of feasibility as a test.
ghost use Rattle.std.specs.Prelude.{ℕ, ◌<◌, ◌↔◌, length, IsTrue};
ghost use Rattle.location_terms.specs.Instance.{IsValid, site_at};
ghost use Rattle.location_terms.specs.Plan.{IsPlan, KeepsStatus};
ghost use Rattle.plan_meaning.specs.PlanFault.{KnowsSites, ServesEachOnce, ServesFromOpen, UsesLanes, KeepsCap, KeepsCaps, KeepsCount, KeepsStatuses};

use crate::Plan;
use crate::amounts::{lane_used, load};
use instance_store::{Instance, SiteId, SiteStatus};

pub fn knows_sites(inst: &Instance, plan: &Plan) -> bool
    ensures { IsTrue result ↔ KnowsSites inst.now plan.now }
{
    for k in 0..plan.site_count() {
        if inst.site_at(plan.site(k)).is_none() {
            return false;
        }
    }
    true
}

// Also says what every instance and every plan are, for the tests below it.
pub fn serves_each_once(inst: &Instance, plan: &Plan) -> bool
    ensures once { IsTrue result ↔ ServesEachOnce inst.now plan.now }
    ensures valid { IsValid inst.now }
    ensures plan { IsPlan plan.now }
{
    let custs = inst.custs();
    if plan.serve_count() != custs {
        return false;
    }
    for k in 0..custs {
        let (cust, _) = plan.serve(k);
        if cust != inst.cust_id(k) {
            return false;
        }
    }
    true
}

pub fn serves_from_open(plan: &Plan) -> bool
    ensures { IsTrue result ↔ ServesFromOpen plan.now }
{
    for k in 0..plan.serve_count() {
        let (_, site) = plan.serve(k);
        if !plan.opens(site) {
            return false;
        }
    }
    true
}

pub fn uses_lanes(inst: &Instance, plan: &Plan) -> bool
    requires valid { IsValid inst.now }
    requires once { ServesEachOnce inst.now plan.now }
    ensures { IsTrue result ↔ UsesLanes inst.now plan.now }
{
    for k in 0..plan.serve_count() {
        if lane_used(inst, plan, k).is_none() {
            return false;
        }
    }
    true
}

pub fn keeps_caps(inst: &Instance, plan: &Plan) -> bool
    requires valid { IsValid inst.now }
    requires once { ServesEachOnce inst.now plan.now }
    ensures { IsTrue result ↔ KeepsCaps inst.now plan.now }
{
    for i in 0..inst.sites() {
        if !keeps_cap(inst, plan, i) {
            return false;
        }
    }
    true
}

fn keeps_cap(inst: &Instance, plan: &Plan, i: usize) -> bool
    requires place { i < length inst.now.sites }
    requires valid { IsValid inst.now }
    requires once { ServesEachOnce inst.now plan.now }
    ensures { IsTrue result ↔ KeepsCap inst.now plan.now (site_at inst.now i) }
{
    let site = inst.site_id(i);
    match inst.cap(i) {
        None => true,
        Some(cap) => !plan.opens(site) || load(inst, plan, site) <= cap,
    }
}

pub fn keeps_count(inst: &Instance, plan: &Plan) -> bool
    ensures { IsTrue result ↔ KeepsCount inst.now plan.now }
{
    let (lo, hi) = inst.count();
    let open = plan.site_count();
    lo as usize <= open && open <= hi as usize
}

pub fn keeps_statuses(inst: &Instance, plan: &Plan) -> bool
    ensures { IsTrue result ↔ KeepsStatuses inst.now plan.now }
{
    for i in 0..inst.sites() {
        if !keeps_status(plan, inst.site_id(i), inst.status(i)) {
            return false;
        }
    }
    true
}

pub fn keeps_status(plan: &Plan, site: SiteId, status: SiteStatus) -> bool
    ensures { IsTrue result ↔ KeepsStatus plan.now site status }
{
    match status {
        SiteStatus::Free => true,
        SiteStatus::MustOpen => plan.opens(site),
        SiteStatus::MustClose => !plan.opens(site),
    }
}

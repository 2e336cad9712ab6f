//! The walk over all sets of sites, and the plan that it ends in.
ghost use Rattle.std.specs.Prelude.{◌≡◌, ℕ, ◌^◌, ◌<◌, ◌≤◌, length, map, All, IfOk};
ghost use Rattle.location_terms.specs.Instance.{customer_ids, IsValid};
ghost use Rattle.location_terms.specs.Plan.{cost_of};
ghost use Rattle.location_terms.specs.Optimal.{IsOptimal};
ghost use Rattle.location_terms.specs.Plain.{IsPlain};
ghost use Rattle.set_walk.specs.Set.{opened, cost_on, IsNearest};

use crate::MAX_WALK_SITES;
use crate::pricing::{nearest_site, set_cost};
use crate::site_set::SiteSet;
use instance_store::{CustId, Instance, NoMemory, SiteId};
use plan_meaning::Plan;
use std::alloc::Global;

/// A plan of least cost, and its cost in millionths.
#[derive(Debug, Drop)]
pub struct Cheapest {
    pub plan: Plan,
    pub cost: u64,
}

// A set of sites, and what it costs to open them and to serve each customer from the nearest.
#[derive(Clone, Copy)]
struct PricedSet {
    set: SiteSet,
    cost: u64,
}

/// A plan of least cost for an instance of at most `MAX_WALK_SITES` sites, where each site may be
/// opened and serve every customer. The time doubles with each site.
///
/// Only want of memory fails.
pub fn cheapest_plan(alloc: Global, inst: &Instance) -> Result<Cheapest, NoMemory>
    requires plain { IsPlain inst.now }
    requires few { length inst.now.sites ≤ MAX_WALK_SITES }
    ensures optimal { IfOk result (λ found. IsOptimal inst.now found.plan) }
    ensures cost { IfOk result (λ found. found.cost ≡ cost_of inst.now found.plan) }
{
    let best = least_set(inst);
    let sites = open_sites(alloc, inst, best.set)?;
    let serves = nearest_serves(alloc, inst, best.set)?;
    let plan = Plan::new(sites, serves).unwrap();
    Ok(Cheapest {
        plan,
        cost: best.cost,
    })
}

// The first set of least cost, of all sets that are not empty.
fn least_set(inst: &Instance) -> PricedSet
    requires plain { IsPlain inst.now }
    requires few { length inst.now.sites ≤ MAX_WALK_SITES }
    ensures some { 1 ≤ length (opened inst.now result.set.bits) }
    ensures cost { result.cost ≡ cost_on inst.now (opened inst.now result.set.bits) }
    ensures valid { IsValid inst.now }
    ensures least { (bits : ℕ) → 1 ≤ bits → bits < 2 ^ length inst.now.sites → result.cost ≤ cost_on inst.now (opened inst.now bits) }
{
    let sets = 1 << inst.sites();
    let first = SiteSet { bits: 1 };
    let mut best = PricedSet {
        set: first,
        cost: set_cost(inst, first),
    };
    for bits in 2..sets {
        let set = SiteSet { bits };
        let cost = set_cost(inst, set);
        if cost < best.cost {
            best = PricedSet { set, cost };
        }
    }
    best
}

// The ids of the sites of the set.
fn open_sites(alloc: Global, inst: &Instance, set: SiteSet) -> Result<Vec<SiteId>, NoMemory>
    requires { length inst.now.sites ≤ MAX_WALK_SITES }
    ensures { IfOk result (λ sites. sites.items ≡ opened inst.now set.bits) }
{
    let mut sites = Vec::new(alloc);
    for place in 0..inst.sites() {
        if set.has(place) {
            sites.push(inst.site_id(place))?;
        }
    }
    Ok(sites)
}

// Each customer with the nearest site of the set, by their ids.
fn nearest_serves(
    alloc: Global,
    inst: &Instance,
    set: SiteSet,
) -> Result<Vec<(CustId, SiteId)>, NoMemory>
    requires plain { IsPlain inst.now }
    requires few { length inst.now.sites ≤ MAX_WALK_SITES }
    requires some { 1 ≤ length (opened inst.now set.bits) }
    ensures each_once { IfOk result (λ serves. map (λ v. v.0) serves.items ≡ customer_ids inst.now) }
    ensures nearest { IfOk result (λ serves. All (λ v. IsNearest inst.now (opened inst.now set.bits) v.0 v.1) serves.items) }
{
    let mut serves = Vec::with_capacity(alloc, inst.custs())?;
    for customer in 0..inst.custs() {
        let nearest = nearest_site(inst, set, customer);
        serves.push((inst.cust_id(customer), inst.site_id(nearest.site)))?;
    }
    Ok(serves)
}

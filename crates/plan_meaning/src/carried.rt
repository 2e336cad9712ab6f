//! The parts of a plan that is carried over to an instance that was edited.
ghost use Rattle.std.specs.Prelude.{◌≡◌, ◌<◌, ◌==◌, ◌&&◌, [], ◌∷◌, ◌++◌, length, map, find, filter_map, option_map, is_some, All, IfOk};
ghost use Rattle.std.specs.List.Sorted.{IsStrictlyIncreasing};
ghost use Rattle.location_terms.specs.Instance.{IsValid, site_at, customer_at, customer_ids, lane};
ghost use Rattle.location_terms.specs.Carried.{is_listed, is_carried as carries, carried_sites as carried_of, former_site as former_of, cheapest_site as cheapest_of, carried_site as site_of};
ghost use Rattle.plan_meaning.specs.Carried.{IsAt, nearer_of};

use crate::Plan;
use instance_store::{CustId, Instance, NoMemory, SiteId, SiteStatus};
use std::alloc::Global;

/// The open sites, each with its place in the instance: those of the plan that are still there and that
/// no status closes, and those that must be open.
pub fn carried_places(
    alloc: Global,
    inst: &Instance,
    plan: &Plan,
) -> Result<Vec<(SiteId, usize)>, NoMemory>
    ensures sites { IfOk result (λ opened. map (λ x. x.0) opened.items ≡ carried_of inst.now plan.now) }
    ensures places { IfOk result (λ opened. All (IsAt inst.now) opened.items) }
    ensures valid { IsValid inst.now }
{
    let mut opened = Vec::new(alloc);
    for i in 0..inst.sites() {
        if is_carried(inst, plan, i) {
            opened.push((inst.site_id(i), i))?;
        }
    }
    Ok(opened)
}

fn is_carried(inst: &Instance, plan: &Plan, i: usize) -> bool
    requires { i < length inst.now.sites }
    ensures { result ≡ carries plan.now (site_at inst.now i) }
{
    match inst.status(i) {
        SiteStatus::Free => plan.opens(inst.site_id(i)),
        SiteStatus::MustOpen => true,
        SiteStatus::MustClose => false,
    }
}

/// The ids of the open sites.
pub fn carried_sites(alloc: Global, opened: &[(SiteId, usize)]) -> Result<Vec<SiteId>, NoMemory>
    ensures { IfOk result (λ sites. sites.items ≡ map (λ x. x.0) opened.now) }
{
    let sites = opened.iter().map(|site| site.0).collect(alloc)?;
    Ok(sites)
}

/// Each customer of the instance with the site that serves it, without those whom no open site has a
/// lane to. The open sites stand with their places, in the order of their ids.
pub fn carried_serves(
    alloc: Global,
    inst: &Instance,
    plan: &Plan,
    opened: &[(SiteId, usize)],
) -> Result<Vec<(CustId, SiteId)>, NoMemory>
    requires places { All (IsAt inst.now) opened.now }
    requires rising { IsStrictlyIncreasing (map (λ x. x.0) opened.now) }
    ensures { IfOk result (λ serves. serves.items ≡ filter_map (λ c. option_map (λ s. (c, s)) (site_of inst.now plan.now (map (λ x. x.0) opened.now) c)) (customer_ids inst.now)) }
{
    let custs = inst.custs();
    let mut serves = Vec::with_capacity(alloc, custs)?;
    for j in 0..custs {
        push_serve(
            &mut serves,
            inst.cust_id(j),
            carried_site(inst, plan, opened, j),
        )?;
    }
    Ok(serves)
}

fn push_serve(
    serves: &mut Vec<(CustId, SiteId)>,
    cust: CustId,
    site: Option<SiteId>,
) -> Result<(), NoMemory>
    ensures { IfOk result (λ _. serves.new.items ≡ serves.old.items ++ filter_map (λ c. option_map (λ s. (c, s)) site) (cust ∷ [])) }
{
    if let Some(site) = site {
        serves.push((cust, site))?;
    }
    Ok(())
}

// The site that serves the customer at place `j`: the former one, or else that of the cheapest lane.
fn carried_site(
    inst: &Instance,
    plan: &Plan,
    opened: &[(SiteId, usize)],
    j: usize,
) -> Option<SiteId>
    requires place { j < length inst.now.customers }
    requires places { All (IsAt inst.now) opened.now }
    requires rising { IsStrictlyIncreasing (map (λ x. x.0) opened.now) }
    ensures { result ≡ site_of inst.now plan.now (map (λ x. x.0) opened.now) (customer_at inst.now j).id }
{
    match former_site(inst, plan, opened, j) {
        Some(site) => Some(site),
        None => cheapest_site(inst, opened, j),
    }
}

fn former_site(inst: &Instance, plan: &Plan, opened: &[(SiteId, usize)], j: usize) -> Option<SiteId>
    requires place { j < length inst.now.customers }
    requires places { All (IsAt inst.now) opened.now }
    requires rising { IsStrictlyIncreasing (map (λ x. x.0) opened.now) }
    ensures { result ≡ former_of inst.now plan.now (map (λ x. x.0) opened.now) (customer_at inst.now j).id }
{
    let site = plan.server(inst.cust_id(j))?;
    if is_served_from(inst, opened, site, j) {
        Some(site)
    } else {
        None
    }
}

// Whether the site is open and has a lane to the customer at place `j`.
fn is_served_from(inst: &Instance, opened: &[(SiteId, usize)], site: SiteId, j: usize) -> bool
    requires place { j < length inst.now.customers }
    requires places { All (IsAt inst.now) opened.now }
    requires rising { IsStrictlyIncreasing (map (λ x. x.0) opened.now) }
    ensures { result ≡ (is_listed (map (λ x. x.0) opened.now) site && is_some (lane inst.now site (customer_at inst.now j).id)) }
{
    match open_site(opened, site) {
        None => false,
        Some(found) => lane_from(inst, found, j).is_some(),
    }
}

// The open site of this id with its place.
fn open_site(opened: &[(SiteId, usize)], id: SiteId) -> Option<(SiteId, usize)>
    requires rising { IsStrictlyIncreasing (map (λ x. x.0) opened.now) }
    ensures { result ≡ find (λ x. x.0 == id) opened.now }
{
    let k = opened.partition_point(|site| site.0 < id);
    let found = *opened.get(k)?;
    if found.0 == id { Some(found) } else { None }
}

fn cheapest_site(inst: &Instance, opened: &[(SiteId, usize)], j: usize) -> Option<SiteId>
    requires place { j < length inst.now.customers }
    requires places { All (IsAt inst.now) opened.now }
    ensures { result ≡ cheapest_of inst.now (map (λ x. x.0) opened.now) (customer_at inst.now j).id }
{
    let mut best = None;
    for k in 0..opened.len() {
        let site = opened[k];
        best = nearer_of(best, site.0, lane_from(inst, site, j));
    }
    best.map(|nearest| nearest.0)
}

// Of the nearest site so far and one more, each with what its lane costs in millionths, the nearer
// one: the first where both cost as much, or where the other has no lane.
fn nearer_of(best: Option<(SiteId, u64)>, site: SiteId, lane: Option<u64>) -> Option<(SiteId, u64)>
    ensures { result ≡ nearer_of best site lane }
{
    let Some(cost) = lane else {
        return best;
    };
    match best {
        None => Some((site, cost)),
        Some(former) => {
            if cost < former.1 {
                Some((site, cost))
            } else {
                Some(former)
            }
        }
    }
}

// The lane from the open site to the customer at place `j`.
fn lane_from(inst: &Instance, site: (SiteId, usize), j: usize) -> Option<u64>
    requires place { j < length inst.now.customers }
    requires at { IsAt inst.now site }
    ensures { result ≡ lane inst.now site.0 (customer_at inst.now j).id }
{
    inst.lane(site.1, j)
}

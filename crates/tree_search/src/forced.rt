//! Customers that are forced to one site, and the ray of a site that can't hold them.
ghost use Rattle.std.specs.Prelude.{◌≡◌, ℕ, ◌<◌, pos, slice_index, if◌then◌else◌, Some, IfNone, IfOk, IfSome, IsFalse, IsTrue, length};
ghost use Rattle.location_terms.specs.Instance.{site_at, customer_at};
ghost use Rattle.location_terms.specs.Box.{holds_demand, is_opened};
ghost use Rattle.lane_order.specs.Order.{IsOrderOf};
ghost use Rattle.tree_search.specs.Rays.{is_forced, forced_demand, forced_ray, IsRayIn};
ghost use Rattle.tree_search.specs.Service.{only_site};

use crate::serving::{Service, service_of};
use dual_value::{Duals, PreparedBox};
use instance_store::NoMemory;
use lane_order::LaneOrder;
use plan_search::has_no_caps;
use std::alloc::Global;

/// The ray of a box in which an opened site holds less than its forced customers demand. It fails only
/// where memory runs out.
pub(crate) fn full_ray(
    alloc: Global,
    boxed: &PreparedBox<'_>,
    order: &LaneOrder,
) -> Result<Option<Duals>, NoMemory>
    requires order { IsOrderOf order.now boxed.now.instance }
    ensures ray { IfOk result (λ ray. IfSome ray (IsRayIn boxed.now.instance boxed.now.path)) }
    ensures held { IfOk result (λ ray. IfNone ray ((i : ℕ) → i < length boxed.now.instance.sites →
        IsTrue (is_opened boxed.now.path (site_at boxed.now.instance i)) →
        IsTrue (holds_demand (site_at boxed.now.instance i).cap (forced_demand boxed.now.instance boxed.now.path i)))) }
{
    if has_no_caps(boxed.instance()) {
        return Ok(None);
    }
    // An instance is valid, so that its demands are small.
    let _custs = boxed.instance().custs();
    let loads = forced_demands(alloc, boxed, order)?;
    match overfull(boxed, &loads) {
        None => Ok(None),
        Some(site) => Ok(Some(ray_of(alloc, boxed, order, site)?)),
    }
}

// What the customers that are forced to each site demand together, by its place.
fn forced_demands(
    alloc: Global,
    boxed: &PreparedBox<'_>,
    order: &LaneOrder,
) -> Result<Vec<u64>, NoMemory>
    requires order { IsOrderOf order.now boxed.now.instance }
    ensures long { IfOk result (λ loads. length loads.items ≡ length boxed.now.instance.sites) }
    ensures exact { IfOk result (λ loads. (i : ℕ) → i < length boxed.now.instance.sites →
        slice_index loads.items i ≡ forced_demand boxed.now.instance boxed.now.path i) }
{
    let mut loads = vec![in alloc; 0u64; boxed.instance().sites()]?;
    add_forced(boxed, order, &mut loads);
    Ok(loads)
}

fn add_forced(boxed: &PreparedBox<'_>, order: &LaneOrder, loads: &mut [u64])
    requires order { IsOrderOf order.now boxed.now.instance }
    requires long { length loads.old ≡ length boxed.now.instance.sites }
    requires zero { (i : ℕ) → i < length loads.old → slice_index loads.old i ≡ 0 }
    ensures long { length loads.new ≡ length loads.old }
    ensures exact { (i : ℕ) → i < length loads.old → slice_index loads.new i ≡ forced_demand boxed.now.instance boxed.now.path i }
{
    for cust in 0..boxed.instance().custs() {
        match only_server(boxed, order, cust) {
            None => {}
            Some(site) => loads[site] += boxed.instance().demand(cust),
        }
    }
}

// The place of the site that the customer at place `cust` is forced to, where there is one.
fn only_server(boxed: &PreparedBox<'_>, order: &LaneOrder, cust: usize) -> Option<usize>
    requires order { IsOrderOf order.now boxed.now.instance }
    requires customer { cust < length boxed.now.instance.customers }
    ensures within { IfSome result (λ i. i < length boxed.now.instance.sites) }
    ensures forced { IfSome result (λ i. IsTrue (is_forced boxed.now.instance boxed.now.path i cust)) }
    ensures alone { (i : ℕ) → i < length boxed.now.instance.sites → IsTrue (is_forced boxed.now.instance boxed.now.path i cust) → result ≡ Some i }
{
    only_site(service_of(boxed, order, cust))
}

fn only_site(service: Service) -> Option<usize>
    ensures { result ≡ only_site service }
{
    match service {
        Service::Nowhere | Service::Several(_) => None,
        Service::Only(site) => Some(site),
    }
}

// The place of the first opened site that holds less than its load.
fn overfull(boxed: &PreparedBox<'_>, loads: &[u64]) -> Option<usize>
    requires { length loads.now ≡ length boxed.now.instance.sites }
    ensures none { IfNone result ((i : ℕ) → i < length boxed.now.instance.sites →
        IsTrue (is_opened boxed.now.path (site_at boxed.now.instance i)) →
        IsTrue (holds_demand (site_at boxed.now.instance i).cap (slice_index loads.now i))) }
    ensures within { IfSome result (λ i. i < length boxed.now.instance.sites) }
    ensures opened { IfSome result (λ i. IsTrue (is_opened boxed.now.path (site_at boxed.now.instance i))) }
    ensures over { IfSome result (λ i. IsFalse (holds_demand (site_at boxed.now.instance i).cap (slice_index loads.now i))) }
{
    for site in 0..loads.len() {
        if boxed.is_opened(site) && !holds(boxed.instance().cap(site), loads[site]) {
            return Some(site);
        }
    }
    None
}

fn holds(cap: Option<u64>, load: u64) -> bool
    ensures { result ≡ holds_demand cap load }
{
    match cap {
        None => true,
        Some(most) => load <= most,
    }
}

// The ray of the site: the price of its capacity is 1, and each dual is what a forced customer demands.
fn ray_of(
    alloc: Global,
    boxed: &PreparedBox<'_>,
    order: &LaneOrder,
    site: usize,
) -> Result<Duals, NoMemory>
    requires order { IsOrderOf order.now boxed.now.instance }
    requires site { site < length boxed.now.instance.sites }
    ensures { IfOk result (λ d. d ≡ forced_ray boxed.now.instance boxed.now.path site) }
{
    let inst = boxed.instance();
    let mut values = Vec::with_capacity(alloc, inst.custs())?;
    for cust in 0..inst.custs() {
        values.push(forced_value(boxed, order, site, cust))?;
    }
    let mut prices = vec![in alloc; 0u64; inst.sites()]?;
    prices[site] = 1;
    Ok(Duals::from_lists(0, 0, values, prices))
}

// What the customer at place `cust` demands where it is forced to the site, and else 0.
fn forced_value(boxed: &PreparedBox<'_>, order: &LaneOrder, site: usize, cust: usize) -> i128
    requires order { IsOrderOf order.now boxed.now.instance }
    requires site { site < length boxed.now.instance.sites }
    requires customer { cust < length boxed.now.instance.customers }
    ensures { result ≡ (if is_forced boxed.now.instance boxed.now.path site cust then pos (customer_at boxed.now.instance cust).demand else pos 0) }
{
    match only_server(boxed, order, cust) {
        None => 0,
        Some(only) => {
            if only == site {
                i128::from(boxed.instance().demand(cust))
            } else {
                0
            }
        }
    }
}

//! Rays: duals of scale 0 that show a box to be empty by counting alone.
ghost use Rattle.std.specs.Prelude.{◌≡◌, ◌≢◌, ◌↔◌, ℕ, ◌<◌, ◌≤◌, not, unsigned_abs, slice_index, All, IfOk, IfNone, IfSome, IsTrue, None, length};
ghost use Rattle.location_terms.specs.Instance.{site_at};
ghost use Rattle.location_terms.specs.Box.{is_closed};
ghost use Rattle.location_terms.specs.declared.limits.TheConstants.{MAX_MULTIPLIER, MAX_VALUE};
ghost use Rattle.lane_order.specs.Order.{IsOrderOf};
ghost use Rattle.dual_ascent.specs.Levels.{servers};
ghost use Rattle.plan_search.specs.Packed.{opened_places};
ghost use Rattle.tree_search.specs.Made.{AreServed};
ghost use Rattle.tree_search.specs.Rays.{possible_count, count_ray, IsRayIn, IsRayless};
ghost use Rattle.tree_search.specs.declared.serving.Service.TheVariants.{Nowhere};

use crate::forced::full_ray;
use crate::serving::{Service, service_of};
use dual_value::{Duals, PreparedBox, SiteState, bound, closes};
use instance_store::{Instance, NoMemory};
use lane_order::LaneOrder;
use plan_search::opened_count;
use std::alloc::Global;

/// A ray that closes the box, where counting alone shows it to be empty: a customer has no allowed lane,
/// an opened site holds less than its forced customers demand, too many sites are opened or too few are
/// possible, or, where something is decided, all possible sites together hold less than is demanded. It
/// fails only where memory runs out.
pub(crate) fn ray(
    alloc: Global,
    boxed: &PreparedBox<'_>,
    order: &LaneOrder,
) -> Result<Option<Duals>, NoMemory>
    requires order { IsOrderOf order.now boxed.now.instance }
    ensures ray { IfOk result (λ ray. IfSome ray (IsRayIn boxed.now.instance boxed.now.path)) }
    ensures none { IfOk result (λ ray. IfNone ray (IsRayless boxed.now.instance boxed.now.path)) }
{
    if let Some(ray) = simple_ray(alloc, boxed, order)? {
        return Ok(Some(ray));
    }
    if boxed.path().steps() == 0 {
        return Ok(None);
    }
    total_ray(alloc, boxed)
}

// A ray that one customer, one site or the number of sites gives.
fn simple_ray(
    alloc: Global,
    boxed: &PreparedBox<'_>,
    order: &LaneOrder,
) -> Result<Option<Duals>, NoMemory>
    requires order { IsOrderOf order.now boxed.now.instance }
    ensures ray { IfOk result (λ ray. IfSome ray (IsRayIn boxed.now.instance boxed.now.path)) }
    ensures none { IfOk result (λ ray. IfNone ray (IsRayless boxed.now.instance boxed.now.path)) }
{
    if let Some(cust) = first_unserved(boxed, order) {
        return Ok(Some(unserved_ray(alloc, boxed, cust)?));
    }
    if let Some(ray) = count_ray(alloc, boxed)? {
        return Ok(Some(ray));
    }
    full_ray(alloc, boxed, order)
}

/// The place of the first customer without an allowed lane in the box.
pub(crate) fn first_unserved(boxed: &PreparedBox<'_>, order: &LaneOrder) -> Option<usize>
    requires order { IsOrderOf order.now boxed.now.instance }
    ensures none { IfNone result (AreServed boxed.now.instance boxed.now.path) }
    ensures some { IfSome result (λ j. j < length boxed.now.instance.customers) }
    ensures unserved { IfSome result (λ j. length (servers boxed.now.instance boxed.now.path j) ≡ 0) }
{
    for cust in 0..boxed.instance().custs() {
        if is_unserved(service_of(boxed, order, cust)) {
            return Some(cust);
        }
    }
    None
}

fn is_unserved(service: Service) -> bool
    ensures { IsTrue result ↔ (service ≡ Nowhere) }
{
    match service {
        Service::Nowhere => true,
        Service::Only(_) | Service::Several(_) => false,
    }
}

/// The ray that shows a box to be empty in which the customer at place `cust` has no allowed lane: its
/// dual is 1 at scale 0. It fails only where memory runs out.
pub(crate) fn unserved_ray(
    alloc: Global,
    boxed: &PreparedBox<'_>,
    cust: usize,
) -> Result<Duals, NoMemory>
    requires customer { cust < length boxed.now.instance.customers }
    requires unserved { length (servers boxed.now.instance boxed.now.path cust) ≡ 0 }
    ensures { IfOk result (IsRayIn boxed.now.instance boxed.now.path) }
{
    let mut ray = Duals::zeros(alloc, boxed.instance(), 0)?;
    ray.set_v(cust, 1);
    Ok(ray)
}

// The ray of a box in which more sites are opened, or fewer possible, than a plan may open: the price on
// the number of sites is 1 or -1.
fn count_ray(alloc: Global, boxed: &PreparedBox<'_>) -> Result<Option<Duals>, NoMemory>
    ensures ray { IfOk result (λ ray. IfSome ray (IsRayIn boxed.now.instance boxed.now.path)) }
    ensures few { IfOk result (λ ray. IfNone ray (length (opened_places boxed.now.instance boxed.now.path) ≤ boxed.now.instance.hi)) }
    ensures enough { IfOk result (λ ray. IfNone ray (boxed.now.instance.lo ≤ possible_count boxed.now.instance boxed.now.path)) }
{
    let (lo, hi) = boxed.instance().count();
    if opened_count(boxed) > hi as usize {
        return Ok(Some(priced_zeros(alloc, boxed.instance(), 1)?));
    }
    if possible_count(boxed) < lo as usize {
        return Ok(Some(priced_zeros(alloc, boxed.instance(), -1)?));
    }
    Ok(None)
}

fn priced_zeros(alloc: Global, inst: &Instance, nu: i128) -> Result<Duals, NoMemory>
    ensures { IfOk result (λ d. d ≡ count_ray inst.now nu) }
{
    Ok(Duals::from_lists(
        0,
        nu,
        vec![in alloc; 0; inst.custs()]?,
        vec![in alloc; 0; inst.sites()]?,
    ))
}

// How many sites aren't closed in the box.
fn possible_count(boxed: &PreparedBox<'_>) -> usize
    ensures { result ≡ possible_count boxed.now.instance boxed.now.path }
{
    let mut count = 0;
    for site in 0..boxed.instance().sites() {
        if is_possible(boxed, site) {
            count += 1;
        }
    }
    count
}

fn is_possible(boxed: &PreparedBox<'_>, site: usize) -> bool
    requires { site < length boxed.now.instance.sites }
    ensures { result ≡ not (is_closed boxed.now.path (site_at boxed.now.instance site)) }
{
    match boxed.state(site) {
        SiteState::Opened | SiteState::Free => true,
        SiteState::Closed => false,
    }
}

// The ray of a box in which all possible sites together hold less than all customers demand, as far as
// the bound shows it: each price of a capacity is 1, and each dual is the customer's demand.
fn total_ray(alloc: Global, boxed: &PreparedBox<'_>) -> Result<Option<Duals>, NoMemory>
    ensures ray { IfOk result (λ ray. IfSome ray (IsRayIn boxed.now.instance boxed.now.path)) }
{
    let inst = boxed.instance();
    if !demand_is_greater(boxed) {
        return Ok(None);
    }
    let ray = Duals::from_lists(0, 0, demands(alloc, inst)?, cap_prices(alloc, inst)?);
    if closes(bound(inst, boxed.path(), &ray), 0, None) {
        return Ok(Some(ray));
    }
    Ok(None)
}

fn demands(alloc: Global, inst: &Instance) -> Result<Vec<i128>, NoMemory>
    ensures long { IfOk result (λ values. length values.items ≡ length inst.now.customers) }
    ensures small { IfOk result (λ values. All (λ v. unsigned_abs v ≤ MAX_VALUE) values.items) }
{
    let mut values = Vec::with_capacity(alloc, inst.custs())?;
    for cust in 0..inst.custs() {
        values.push(i128::from(inst.demand(cust)))?;
    }
    Ok(values)
}

fn cap_prices(alloc: Global, inst: &Instance) -> Result<Vec<u64>, NoMemory>
    ensures long { IfOk result (λ prices. length prices.items ≡ length inst.now.sites) }
    ensures small { IfOk result (λ prices. All (λ u. u ≤ MAX_MULTIPLIER) prices.items) }
    ensures unpriced { IfOk result (λ prices. (i : ℕ) → i < length inst.now.sites → (site_at inst.now i).cap ≡ None → slice_index prices.items i ≡ 0) }
{
    let mut prices = Vec::with_capacity(alloc, inst.sites())?;
    for site in 0..inst.sites() {
        prices.push(u64::from(inst.cap(site).is_some()))?;
    }
    Ok(prices)
}

// Whether all customers demand more than all possible sites hold.
fn demand_is_greater(boxed: &PreparedBox<'_>) -> bool {
    let inst = boxed.instance();
    let mut room = 0u64;
    for site in 0..inst.sites() {
        match boxed.state(site) {
            SiteState::Closed => {}
            SiteState::Opened | SiteState::Free => match inst.cap(site) {
                None => return false,
                Some(cap) => room = room.saturating_add(cap),
            },
        }
    }
    let mut demand = 0u64;
    for cust in 0..inst.custs() {
        demand = demand.saturating_add(inst.demand(cust));
    }
    demand > room
}

//! Sites that open and close: the customers that this touches, and what they count for at the sites.
ghost use Rattle.std.specs.Prelude.{◌≡◌, ◌<◌, length};
ghost use Rattle.lane_order.specs.Order.{IsOrderOf};

use crate::prospects::{Nearest, Prospect};
use dual_value::PreparedBox;
use lane_order::LaneOrder;
use location_terms::MAX_AMOUNT;

// What a customer counts for that no open site serves: more than any lane costs.
const UNSERVED: u64 = MAX_AMOUNT + 1;

/// Finds what each customer counts for where these sites are open.
pub(crate) fn serve_all(order: &LaneOrder, sites: &mut [Prospect], custs: &mut [Nearest])
    requires sites { length sites.old ≡ length order.now.sites }
    requires custs { length custs.old ≡ length order.now.lanes }
    ensures sites { length sites.new ≡ length sites.old }
    ensures custs { length custs.new ≡ length custs.old }
{
    for cust in 0..custs.len() {
        custs[cust] = Nearest::none(0);
        let near = nearest(order, sites, cust);
        replace(order, sites, custs, cust, &near);
    }
}

/// Opens the site at place `site`.
pub(crate) fn open(
    boxed: &PreparedBox,
    order: &LaneOrder,
    sites: &mut [Prospect],
    custs: &mut [Nearest],
    site: usize,
)
    requires order { IsOrderOf order.now boxed.now.instance }
    requires sites { length sites.old ≡ length boxed.now.instance.sites }
    requires custs { length custs.old ≡ length boxed.now.instance.customers }
    requires site { site < length boxed.now.instance.sites }
    ensures sites { length sites.new ≡ length sites.old }
    ensures custs { length custs.new ≡ length custs.old }
{
    sites[site].is_open = true;
    sites[site].is_changed = true;
    for cust in 0..boxed.instance().custs() {
        if let Some(cost) = cost_below(boxed, site, cust, custs[cust].second) {
            let near = custs[cust].with(site as u32, cost);
            replace(order, sites, custs, cust, &near);
        }
    }
}

/// Closes the site at place `site`.
pub(crate) fn close(order: &LaneOrder, sites: &mut [Prospect], custs: &mut [Nearest], site: usize)
    requires sites { length sites.old ≡ length order.now.sites }
    requires custs { length custs.old ≡ length order.now.lanes }
    requires site { site < length order.now.sites }
    ensures sites { length sites.new ≡ length sites.old }
    ensures custs { length custs.new ≡ length custs.old }
{
    sites[site].is_open = false;
    for cust in 0..custs.len() {
        if custs[cust].has(site) {
            let near = nearest(order, sites, cust);
            replace(order, sites, custs, cust, &near);
        }
    }
}

// The cost of the lane from the site to the customer, where it is below this.
fn cost_below(boxed: &PreparedBox, site: usize, cust: usize, limit: u64) -> Option<u64>
    requires site { site < length boxed.now.instance.sites }
    requires customer { cust < length boxed.now.instance.customers }
{
    let inst = boxed.instance();
    match inst.lane(site, cust) {
        Some(cost) if cost < limit => Some(cost),
        _ => None,
    }
}

// Puts these sites in the place of the customer's nearest ones.
fn replace(
    order: &LaneOrder,
    sites: &mut [Prospect],
    custs: &mut [Nearest],
    cust: usize,
    near: &Nearest,
)
    requires sites { length sites.old ≡ length order.now.sites }
    requires custs { length custs.old ≡ length order.now.lanes }
    requires customer { cust < length order.now.lanes }
    ensures sites { length sites.new ≡ length sites.old }
    ensures custs { length custs.new ≡ length custs.old }
{
    let before = custs[cust];
    weigh(order, sites, cust, &before, near);
    custs[cust] = *near;
}

// The customer's nearest two open sites.
fn nearest(order: &LaneOrder, sites: &[Prospect], cust: usize) -> Nearest
    requires customer { cust < length order.now.lanes }
    requires sites { length sites.now ≡ length order.now.sites }
{
    let mut near = Nearest::none(UNSERVED);
    for lane in order.lanes(cust) {
        let site = lane.site as usize;
        if sites[site].is_open {
            near = near.with(lane.site, lane.cost);
            if near.second_site.is_some() {
                return near;
            }
        }
    }
    near
}

// Lets the customer count for what these nearest sites say, in the place of those before: at its nearest open
// site how much more the second one costs, and at each site that costs less than the nearest how much less
// that is.
fn weigh(order: &LaneOrder, sites: &mut [Prospect], cust: usize, before: &Nearest, near: &Nearest)
    requires customer { cust < length order.now.lanes }
    requires sites { length sites.old ≡ length order.now.sites }
    ensures { length sites.new ≡ length sites.old }
{
    weigh_nearest(sites, before, false);
    weigh_nearest(sites, near, true);
    if before.cost == near.cost {
        return;
    }
    let most = before.cost.max(near.cost);
    for lane in order.lanes(cust) {
        if lane.cost >= most {
            return;
        }
        let site = lane.site as usize;
        let less = near.cost.saturating_sub(lane.cost);
        let lanes = sites[site].lanes.wrapping_add(less);
        sites[site].lanes = lanes.wrapping_sub(before.cost.saturating_sub(lane.cost));
    }
}

fn weigh_nearest(sites: &mut [Prospect], near: &Nearest, adds: bool)
    ensures { length sites.new ≡ length sites.old }
{
    if let Some(place) = near.site {
        let site = place as usize;
        if site < sites.len() {
            let more = near.second.saturating_sub(near.cost);
            sites[site].lanes = changed(sites[site].lanes, more, adds);
            sites[site].is_changed = true;
        }
    }
}

// What was added is taken off again, so that no sum is above that of all customers or below 0.
#[inline(always)]
fn changed(sum: u64, amount: u64, adds: bool) -> u64 {
    if adds {
        sum.wrapping_add(amount)
    } else {
        sum.wrapping_sub(amount)
    }
}

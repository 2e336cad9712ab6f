//! The best exchange of each open site: which other site is opened in its place. After Whitaker, INFOR 21
//! (1983), and Resende and Werneck, European Journal of Operational Research 174 (2006): what the opening
//! of one site and the closing of another save together is the sum of what each saves alone and of an extra
//! amount, to which only lanes count that cost less than a customer's second nearest open site.
ghost use Rattle.std.specs.Prelude.{◌≡◌, ◌<◌, length};

use crate::prospects::{Exchange, Look, Nearest, Prospect};
use lane_order::LaneOrder;

/// Finds the best exchange of each open site whose exchanges are to be looked at anew.
pub(crate) fn look_anew(
    order: &LaneOrder,
    sites: &mut [Prospect],
    custs: &mut [Nearest],
    step: usize,
)
    requires sites { length sites.old ≡ length order.now.sites }
    requires custs { length custs.old ≡ length order.now.lanes }
    ensures sites { length sites.new ≡ length sites.old }
    ensures custs { length custs.new ≡ length custs.old }
{
    unlink(sites);
    link(sites, custs);
    for site in 0..sites.len() {
        if sites[site].is_changed && sites[site].may_leave() {
            let look = Look { step, leaves: site };
            sites[site].exchange = best_exchange(order, sites, custs, &look);
        }
        sites[site].is_changed = false;
    }
}

/// Has all exchanges looked at anew.
pub(crate) fn mark_all(sites: &mut [Prospect])
    ensures { length sites.new ≡ length sites.old }
{
    for site in 0..sites.len() {
        sites[site].is_changed = true;
    }
}

fn unlink(sites: &mut [Prospect])
    ensures { length sites.new ≡ length sites.old }
{
    for site in 0..sites.len() {
        sites[site].first = None;
    }
}

// Chains the customers of each open site.
fn link(sites: &mut [Prospect], custs: &mut [Nearest])
    ensures sites { length sites.new ≡ length sites.old }
    ensures custs { length custs.new ≡ length custs.old }
{
    for cust in 0..custs.len() {
        if let Some(place) = custs[cust].site {
            let site = place as usize;
            if site < sites.len() {
                custs[cust].next = sites[site].first;
                sites[site].first = u32::try_from(cust).ok();
            }
        }
    }
}

// The best exchange of the site, of those to which its customers count.
fn best_exchange(
    order: &LaneOrder,
    sites: &mut [Prospect],
    custs: &[Nearest],
    look: &Look,
) -> Option<Exchange>
    requires sites { length sites.old ≡ length order.now.sites }
    requires custs { length custs.now ≡ length order.now.lanes }
    requires leaves { look.now.leaves < length order.now.sites }
    ensures { length sites.new ≡ length sites.old }
{
    let mut best = None;
    let mut next = sites[look.leaves].first;
    for _ in 0..custs.len() {
        let cust = match next {
            None => return best,
            Some(place) => place as usize,
        };
        if cust >= custs.len() {
            return best;
        }
        best = best_over(order, sites, &custs[cust], cust, look, best);
        next = custs[cust].next;
    }
    best
}

// The best exchange with one more customer of the site that leaves. Extra amounts only grow here, so that
// each is compared at its greatest.
fn best_over(
    order: &LaneOrder,
    sites: &mut [Prospect],
    near: &Nearest,
    cust: usize,
    look: &Look,
    before: Option<Exchange>,
) -> Option<Exchange>
    requires sites { length sites.old ≡ length order.now.sites }
    requires customer { cust < length order.now.lanes }
    ensures { length sites.new ≡ length sites.old }
{
    let mut best = before;
    for lane in order.lanes(cust) {
        if lane.cost >= near.second {
            return best;
        }
        let site = lane.site as usize;
        if sites[site].may_join() {
            let more = near.second.saturating_sub(lane.cost.max(near.cost));
            let extra = sites[site].extra.with(look, more);
            sites[site].extra = extra;
            let saved = sites[site].opening_saves(extra.amount);
            best = Exchange::better(best, site, extra.amount, saved);
        }
    }
    best
}

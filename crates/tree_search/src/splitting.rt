//! The site or the lane on which a box is split.
ghost use Rattle.std.specs.Prelude.{◌≡◌, ◌<◌, IfNone, IfSome, IsTrue, length};
ghost use Rattle.location_terms.specs.Instance.{site_at};
ghost use Rattle.location_terms.specs.Box.{is_free};
ghost use Rattle.lane_order.specs.Order.{IsOrderOf};
ghost use Rattle.tree_search.specs.Made.{has_cap, IsOpenSplit};
ghost use Rattle.tree_search.specs.Working.{HasNoFreeSite, IsSettled};

use crate::serving::{Service, service_of};
use branch_tree::Split;
use dual_value::{PreparedBox, SiteState};
use lane_order::LaneOrder;
use plan_search::has_no_caps;
use strategy_port::Wish;

/// The split on a lane of a box without free sites: the wished one, where the box allows it and another one to
/// its customer; else the cheapest lane of the first customer that has two. None where nothing is left to
/// decide.
pub(crate) fn split_lane(
    boxed: &PreparedBox<'_>,
    order: &LaneOrder,
    wish: Option<Wish>,
) -> Option<Split>
    requires order { IsOrderOf order.now boxed.now.instance }
    requires none_free { HasNoFreeSite boxed.now.instance boxed.now.path }
    ensures some { IfSome result (IsOpenSplit boxed.now.instance boxed.now.path) }
    ensures none { IfNone result (IsSettled boxed.now.instance boxed.now.path) }
{
    if has_no_caps(boxed.instance()) {
        return None;
    }
    match split_on(boxed, order, wish) {
        None => split_first(boxed, order),
        Some(split) => Some(split),
    }
}

// The split on the wished lane, where the box allows it and another one to its customer.
fn split_on(boxed: &PreparedBox<'_>, order: &LaneOrder, wish: Option<Wish>) -> Option<Split>
    requires order { IsOrderOf order.now boxed.now.instance }
    requires none_free { HasNoFreeSite boxed.now.instance boxed.now.path }
    requires capacitated { IsTrue (has_cap boxed.now.instance) }
    ensures some { IfSome result (IsOpenSplit boxed.now.instance boxed.now.path) }
{
    let Some(Wish::Lane { site, cust }) = wish else {
        return None;
    };
    let inst = boxed.instance();
    if site >= inst.sites() || cust >= inst.custs() {
        return None;
    }
    let Service::Several(_) = service_of(boxed, order, cust) else {
        return None;
    };
    let _cost = inst.lane(site, cust)?;
    if boxed.admits(site, cust, inst.demand(cust)) {
        return Some(Split::Lane(inst.site_id(site), inst.cust_id(cust)));
    }
    None
}

// The split on the cheapest lane of the first customer that has two.
fn split_first(boxed: &PreparedBox<'_>, order: &LaneOrder) -> Option<Split>
    requires order { IsOrderOf order.now boxed.now.instance }
    requires none_free { HasNoFreeSite boxed.now.instance boxed.now.path }
    requires capacitated { IsTrue (has_cap boxed.now.instance) }
    ensures some { IfSome result (IsOpenSplit boxed.now.instance boxed.now.path) }
    ensures none { IfNone result (IsSettled boxed.now.instance boxed.now.path) }
{
    let inst = boxed.instance();
    for cust in 0..inst.custs() {
        if let Service::Several(site) = service_of(boxed, order, cust) {
            return Some(Split::Lane(inst.site_id(site), inst.cust_id(cust)));
        }
    }
    None
}

/// The place of the free site on which the box is split: the wished one, where it is free; else as by
/// `tightest_place`. None where no site is free. The slacks are by place, in millionths times a scale.
pub(crate) fn split_place(
    boxed: &PreparedBox<'_>,
    slacks: &[i128],
    wish: Option<Wish>,
) -> Option<usize>
    requires { length slacks.now ≡ length boxed.now.instance.sites }
    ensures within { IfSome result (λ i. i < length boxed.now.instance.sites) }
    ensures free { IfSome result (λ i. IsTrue (is_free boxed.now.path (site_at boxed.now.instance i))) }
    ensures none { IfNone result (HasNoFreeSite boxed.now.instance boxed.now.path) }
{
    match free_place(boxed, wish) {
        None => tightest_place(boxed, slacks),
        Some(place) => Some(place),
    }
}

// The place of the wished site, where it is free.
fn free_place(boxed: &PreparedBox<'_>, wish: Option<Wish>) -> Option<usize>
    ensures within { IfSome result (λ i. i < length boxed.now.instance.sites) }
    ensures free { IfSome result (λ i. IsTrue (is_free boxed.now.path (site_at boxed.now.instance i))) }
{
    let Some(Wish::Site(site)) = wish else {
        return None;
    };
    if site < boxed.instance().sites() && is_free(boxed, site) {
        return Some(site);
    }
    None
}

// Of the free sites the first with no slack left, and where each has some, the first of those with the
// least. None where no site is free. The slacks are by place, in millionths times a scale.
fn tightest_place(boxed: &PreparedBox<'_>, slacks: &[i128]) -> Option<usize>
    requires { length slacks.now ≡ length boxed.now.instance.sites }
    ensures within { IfSome result (λ i. i < length boxed.now.instance.sites) }
    ensures free { IfSome result (λ i. IsTrue (is_free boxed.now.path (site_at boxed.now.instance i))) }
    ensures none { IfNone result (HasNoFreeSite boxed.now.instance boxed.now.path) }
{
    let mut best = None;
    for site in 0..slacks.len() {
        if is_free(boxed, site) && is_tighter(slacks, site, best) {
            best = Some(site);
        }
    }
    best
}

fn is_free(boxed: &PreparedBox<'_>, site: usize) -> bool
    requires { site < length boxed.now.instance.sites }
    ensures { result ≡ is_free boxed.now.path (site_at boxed.now.instance site) }
{
    match boxed.state(site) {
        SiteState::Free => true,
        SiteState::Opened | SiteState::Closed => false,
    }
}

// Whether the site has less slack left than the best one so far, or there is none yet.
fn is_tighter(slacks: &[i128], site: usize, best: Option<usize>) -> bool
    requires site { site < length slacks.now }
    requires best { IfSome best (λ i. i < length slacks.now) }
    ensures { IfNone best (IsTrue result) }
{
    match best {
        None => true,
        Some(best) => slacks[site].max(0) < slacks[best].max(0),
    }
}

//! How far a customer's dual rises, or what blocks it: one look at its lanes from the cheapest on.
ghost use Rattle.std.specs.Prelude.{◌≡◌, ◌↔◌, ◌*◌, ◌<◌, ◌≤◌, IsTrue, All, MatchOption, Some, length, map, pos, ◌+ℤ◌, ◌≤ℤ◌, unsigned_abs, int_le, ◌||◌};
ghost use Rattle.location_terms.specs.Instance.{IsValid, site_at, customer_at, lane as lane_cost};
ghost use Rattle.location_terms.specs.Box.{is_opened};
ghost use Rattle.location_terms.specs.Fit.{DualsFit};
ghost use Rattle.location_terms.specs.declared.limits.TheConstants.{MAX_AMOUNT, MAX_VALUE};
ghost use Rattle.lane_order.specs.Order.{IsOrderOf, lanes_to};
ghost use Rattle.lane_order.specs.Placed.{named};
ghost use Rattle.dual_value.specs.Slacks.{AreSlacks};
ghost use Rattle.dual_ascent.specs.Ascent.{lesser};
ghost use Rattle.dual_ascent.specs.Steps.{IsOffer, IsOutlook, shown};
ghost use Rattle.dual_ascent.specs.Walk.{IsLaneWalk};

use dual_value::{Duals, PreparedBox, level};
use lane_order::{LaneOrder, PlacedLane};

// What a lane does to a rise of its customer's dual.
#[derive(Clone, Copy)]
pub(crate) enum Offer {
    // Nothing: the box doesn't allow the lane.
    Barred,
    // It stops the rise at once: the dual reaches the site, which pays for no more.
    Blocks,
    // It lets the dual rise by this and no more.
    UpTo(i128),
}

// What a look at a customer's lanes shows.
#[derive(Clone, Copy)]
pub(crate) enum Outlook {
    // The dual rises by this.
    Rises(i128),
    // It doesn't, because of the site at this place, or for want of an allowed lane.
    Blocked(Option<u32>),
}

/// `q` times what a lane costs.
#[inline(always)]
pub(crate) fn scaled(q: u32, cost: u64) -> i128
    requires { cost ≤ MAX_AMOUNT }
    ensures { result ≡ pos (q * cost) }
{
    i128::from(q) * i128::from(cost)
}

/// The lanes to the customer at place `cust`, from the cheapest on.
#[inline(always)]
pub(crate) fn lanes_of<'a>(
    boxed: &PreparedBox<'_>,
    order: &'a LaneOrder,
    cust: usize,
) -> &'a [PlacedLane]
    requires valid { IsValid boxed.now.instance }
    requires order { IsOrderOf order.now boxed.now.instance }
    requires customer { cust < length boxed.now.instance.customers }
    ensures walk { IsLaneWalk boxed.now.instance cust result.now }
    ensures exact { map (named order.now.sites) result.now ≡ lanes_to order.now cust }
    ensures known { All (λ lane. lane.site < length order.now.sites) result.now }
{
    order.lanes(cust)
}

/// How far the dual of the customer at place `cust` rises, or what blocks it.
pub(crate) fn look(
    boxed: &PreparedBox<'_>,
    order: &LaneOrder,
    duals: &Duals,
    slacks: &[i128],
    cust: usize,
) -> Outlook
    requires valid { IsValid boxed.now.instance }
    requires order { IsOrderOf order.now boxed.now.instance }
    requires fit { DualsFit boxed.now.instance duals.now }
    requires slacks { AreSlacks boxed.now.instance boxed.now.path duals.now slacks.now }
    requires customer { cust < length boxed.now.instance.customers }
    ensures { IsOutlook boxed.now.instance boxed.now.path duals.now cust result }
{
    let value = duals.v(cust);
    let q = duals.q();
    let demand = boxed.instance().demand(cust);
    let lanes = lanes_of(boxed, order, cust);
    let mut least = None;
    for lane in lanes {
        if is_within(least, scaled(q, lane.cost), value) {
            return shown(least);
        }
        match offered(boxed, duals, slacks, cust, *lane, demand) {
            Offer::Barred => {}
            Offer::Blocks => return Outlook::Blocked(Some(lane.site)),
            Offer::UpTo(rise) => least = Some(lesser(least, rise)),
        }
    }
    shown(least)
}

// The look's outcome where no lane stops the dual at once.
fn shown(least: Option<i128>) -> Outlook
    ensures { result ≡ shown least }
{
    match least {
        None => Outlook::Blocked(None),
        Some(rise) => Outlook::Rises(rise),
    }
}

// Whether a dual that rises by the least so far stays within this level or a higher one.
#[inline(always)]
pub(crate) fn is_within(least: Option<i128>, level: i128, value: i128) -> bool
    requires level { unsigned_abs level ≤ MAX_VALUE }
    requires value { unsigned_abs value ≤ MAX_VALUE }
    ensures { IsTrue result ↔ MatchOption least ⊥ (λ rise. (value +ℤ rise) ≤ℤ level) }
{
    match least {
        None => false,
        Some(rise) => rise <= level - value,
    }
}

#[inline(always)]
pub(crate) fn lesser(least: Option<i128>, rise: i128) -> i128
    ensures { Some result ≡ lesser least (Some rise) }
{
    match least {
        None => rise,
        Some(other) => other.min(rise),
    }
}

// What the lane to the customer, which demands `demand`, does to a rise of its dual.
#[inline(always)]
fn offered(
    boxed: &PreparedBox<'_>,
    duals: &Duals,
    slacks: &[i128],
    cust: usize,
    lane: PlacedLane,
    demand: u64,
) -> Offer
    requires valid { IsValid boxed.now.instance }
    requires fit { DualsFit boxed.now.instance duals.now }
    requires slacks { AreSlacks boxed.now.instance boxed.now.path duals.now slacks.now }
    requires site { lane.site < length boxed.now.instance.sites }
    requires customer { cust < length boxed.now.instance.customers }
    requires lane { lane_cost boxed.now.instance (site_at boxed.now.instance lane.site).id (customer_at boxed.now.instance cust).id ≡ Some lane.cost }
    requires demand { demand ≡ (customer_at boxed.now.instance cust).demand }
    ensures { IsOffer boxed.now.instance boxed.now.path duals.now cust lane.site result }
{
    let site = lane.site as usize;
    if !boxed.admits(site, cust, demand) {
        return Offer::Barred;
    }
    let above = level(duals.q(), lane.cost, duals.u(site), demand) - duals.v(cust);
    if above > 0 {
        return Offer::UpTo(above);
    }
    let slack = slacks[site];
    if is_spent(boxed, slack, site) {
        return Offer::Blocks;
    }
    Offer::UpTo(slack)
}

/// Whether the site at place `site`, which has this slack, pays for no further rise.
#[inline(always)]
pub(crate) fn is_spent(boxed: &PreparedBox<'_>, slack: i128, site: usize) -> bool
    requires { site < length boxed.now.instance.sites }
    ensures { result ≡ (is_opened boxed.now.path (site_at boxed.now.instance site) || int_le slack (pos 0)) }
{
    slack <= 0 || boxed.is_opened(site)
}

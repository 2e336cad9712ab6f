//! How far a customer's dual is lowered, found out by a walk over the customer's lanes from the
//! cheapest on.
ghost use Rattle.std.specs.Prelude.{◌≡◌, ◌*◌, ◌<◌, ◌≤◌, false, true, length, pos, int_le, MatchOption};
ghost use Rattle.location_terms.specs.Instance.{site_at, customer_at, lane};
ghost use Rattle.location_terms.specs.Bound.{v_at};
ghost use Rattle.location_terms.specs.Fit.{DualsFit};
ghost use Rattle.location_terms.specs.declared.limits.TheConstants.{MAX_AMOUNT};
ghost use Rattle.lane_order.specs.Order.{IsOrderOf};
ghost use Rattle.dual_value.specs.Slacks.{AreSlacks};
ghost use Rattle.dual_adjust.specs.Slackness.{tight_sites, is_violating};
ghost use Rattle.dual_adjust.specs.Adjustment.{greatest};
ghost use Rattle.dual_adjust.specs.Paid.{is_paid_tight, levels_below, greater_of};
ghost use Rattle.dual_adjust.specs.Walk.{IsLaneWalk};

use crate::slackness::{is_tight, paid_level};
use dual_value::{Duals, PreparedBox};
use lane_order::{LaneOrder, PlacedLane};

/// The level to which the customer's dual is lowered, the greatest below it, and `None` exactly where
/// the customer doesn't pay more than one tight site.
pub(crate) fn lower_level(
    boxed: &PreparedBox<'_>,
    order: &LaneOrder,
    duals: &Duals,
    slacks: &[i128],
    cust: usize,
) -> Option<i128>
    requires order { IsOrderOf order.now boxed.now.instance }
    requires fit { DualsFit boxed.now.instance duals.now }
    requires slacks { AreSlacks boxed.now.instance boxed.now.path duals.now slacks.now }
    requires customer { cust < length boxed.now.instance.customers }
    ensures { MatchOption result
        (is_violating boxed.now.instance boxed.now.path duals.now (tight_sites boxed.now.instance boxed.now.path duals.now) cust ≡ false)
        (λ level. (is_violating boxed.now.instance boxed.now.path duals.now (tight_sites boxed.now.instance boxed.now.path duals.now) cust ≡ true)
        × (greatest (levels_below boxed.now.instance boxed.now.path duals.now cust) ≡ Some level)) }
{
    if !pays_two_tight(boxed, order, duals, slacks, cust) {
        return None;
    }
    level_below(boxed, order, duals, cust)
}

// Whether the customer pays more than one tight site. A lane's level is at least its scaled cost, so no
// lane is paid from the first on that costs as much as the dual.
fn pays_two_tight(
    boxed: &PreparedBox<'_>,
    order: &LaneOrder,
    duals: &Duals,
    slacks: &[i128],
    cust: usize,
) -> bool
    requires order { IsOrderOf order.now boxed.now.instance }
    requires fit { DualsFit boxed.now.instance duals.now }
    requires slacks { AreSlacks boxed.now.instance boxed.now.path duals.now slacks.now }
    requires customer { cust < length boxed.now.instance.customers }
    ensures { result ≡ is_violating boxed.now.instance boxed.now.path duals.now (tight_sites boxed.now.instance boxed.now.path duals.now) cust }
{
    let mut paid = false;
    for lane in lanes_of(boxed, order, cust) {
        if is_dear(duals, cust, lane.cost) {
            return false;
        }
        if pays_tight(boxed, duals, slacks, cust, lane) {
            if paid {
                return true;
            }
            paid = true;
        }
    }
    false
}

// Whether the customer pays the site of the lane, and the site is tight.
#[inline(always)]
fn pays_tight(
    boxed: &PreparedBox<'_>,
    duals: &Duals,
    slacks: &[i128],
    cust: usize,
    placed: &PlacedLane,
) -> bool
    requires fit { DualsFit boxed.now.instance duals.now }
    requires slacks { AreSlacks boxed.now.instance boxed.now.path duals.now slacks.now }
    requires site { placed.now.site < length boxed.now.instance.sites }
    requires customer { cust < length boxed.now.instance.customers }
    requires lane { lane boxed.now.instance (site_at boxed.now.instance placed.now.site).id (customer_at boxed.now.instance cust).id ≡ Some placed.now.cost }
    requires small { placed.now.cost ≤ MAX_AMOUNT }
    ensures { result ≡ is_paid_tight boxed.now.instance boxed.now.path duals.now placed.now.site cust }
{
    let site = placed.site as usize;
    is_tight(boxed, site, slacks[site])
        && paid_level(boxed, duals, site, cust, placed.cost).is_some()
}

// The greatest level below the customer's dual, where there is one.
fn level_below(
    boxed: &PreparedBox<'_>,
    order: &LaneOrder,
    duals: &Duals,
    cust: usize,
) -> Option<i128>
    requires order { IsOrderOf order.now boxed.now.instance }
    requires fit { DualsFit boxed.now.instance duals.now }
    requires customer { cust < length boxed.now.instance.customers }
    ensures { result ≡ greatest (levels_below boxed.now.instance boxed.now.path duals.now cust) }
{
    let mut greatest = None;
    for lane in lanes_of(boxed, order, cust) {
        if is_dear(duals, cust, lane.cost) {
            return greatest;
        }
        let level = paid_level(boxed, duals, lane.site as usize, cust, lane.cost);
        greatest = greater(greatest, level);
    }
    greatest
}

// The customer's lanes, from the cheapest on.
#[inline(always)]
fn lanes_of<'a>(boxed: &PreparedBox<'_>, order: &'a LaneOrder, cust: usize) -> &'a [PlacedLane]
    requires order { IsOrderOf order.now boxed.now.instance }
    requires customer { cust < length boxed.now.instance.customers }
    ensures { IsLaneWalk boxed.now.instance order.now cust result.now }
{
    // An instance is valid, so that lanes are small.
    let _custs = boxed.instance().custs();
    order.lanes(cust)
}

// The greater of two levels, where one may be missing.
#[inline(always)]
fn greater(a: Option<i128>, b: Option<i128>) -> Option<i128>
    ensures { result ≡ greater_of a b }
{
    match (a, b) {
        (None, b) => b,
        (a, None) => a,
        (Some(x), Some(y)) => Some(x.max(y)),
    }
}

// Whether the scaled cost of a lane is as much as the customer's dual.
#[inline(always)]
fn is_dear(duals: &Duals, cust: usize, cost: u64) -> bool
    requires customer { cust < length duals.now.v }
    requires cost { cost ≤ MAX_AMOUNT }
    ensures { result ≡ int_le (v_at duals.now cust) (pos (duals.now.q * cost)) }
{
    duals.v(cust) <= i128::from(duals.q()) * i128::from(cost)
}

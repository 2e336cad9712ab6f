//! The slacks that fall as a customer's dual rises.
ghost use Rattle.std.specs.Prelude.{◌≡◌, ◌↔◌, ◌<◌, IsTrue, Some, false, length, unwrap_or, pos};
ghost use Rattle.location_terms.specs.Instance.{IsValid, site_at, customer_at, lane as lane_cost};
ghost use Rattle.location_terms.specs.Fit.{DualsFit, AreTame};
ghost use Rattle.lane_order.specs.Order.{IsOrderOf};
ghost use Rattle.dual_value.specs.Slacks.{AreSlacks};
ghost use Rattle.dual_ascent.specs.Ascent.{is_blocked, rise_of, raised};
ghost use Rattle.dual_ascent.specs.Steps.{IsReached};

use crate::looking::{lanes_of, scaled};
use dual_value::{Duals, PreparedBox, level};
use lane_order::{LaneOrder, PlacedLane};

/// Takes what the dual of the customer at place `cust` is to rise by from the slack of each site that it
/// reaches.
pub(crate) fn lower_slacks(
    boxed: &PreparedBox<'_>,
    order: &LaneOrder,
    duals: &Duals,
    slacks: &mut [i128],
    cust: usize,
    by: i128,
)
    requires valid { IsValid boxed.now.instance }
    requires order { IsOrderOf order.now boxed.now.instance }
    requires tame { AreTame boxed.now.instance duals.now }
    requires slacks { AreSlacks boxed.now.instance boxed.now.path duals.now slacks.old }
    requires customer { cust < length boxed.now.instance.customers }
    requires free { is_blocked boxed.now.instance boxed.now.path duals.now cust ≡ false }
    requires by { unwrap_or (rise_of boxed.now.instance boxed.now.path duals.now cust) (pos 0) ≡ by }
    ensures { AreSlacks boxed.now.instance boxed.now.path (raised boxed.now.instance boxed.now.path duals.now cust) slacks.new }
{
    let value = duals.v(cust);
    let q = duals.q();
    let demand = boxed.instance().demand(cust);
    let lanes = lanes_of(boxed, order, cust);
    for lane in lanes {
        if value < scaled(q, lane.cost) {
            return;
        }
        if is_reached(boxed, duals, cust, *lane, demand) {
            slacks[lane.site as usize] -= by;
        }
    }
}

// Whether the customer's dual reaches the site by this lane.
#[inline(always)]
fn is_reached(
    boxed: &PreparedBox<'_>,
    duals: &Duals,
    cust: usize,
    lane: PlacedLane,
    demand: u64,
) -> bool
    requires valid { IsValid boxed.now.instance }
    requires fit { DualsFit boxed.now.instance duals.now }
    requires site { lane.site < length boxed.now.instance.sites }
    requires customer { cust < length boxed.now.instance.customers }
    requires lane { lane_cost boxed.now.instance (site_at boxed.now.instance lane.site).id (customer_at boxed.now.instance cust).id ≡ Some lane.cost }
    requires demand { demand ≡ (customer_at boxed.now.instance cust).demand }
    ensures { IsTrue result ↔ IsReached boxed.now.instance boxed.now.path duals.now cust lane.site }
{
    let site = lane.site as usize;
    if !boxed.admits(site, cust, demand) {
        return false;
    }
    level(duals.q(), lane.cost, duals.u(site), demand) <= duals.v(cust)
}

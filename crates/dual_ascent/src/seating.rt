//! Duals below their customers' least levels are set to these levels.
ghost use Rattle.std.specs.Prelude.{◌≡◌, ◌<◌, fold, length};
ghost use Rattle.location_terms.specs.Instance.{IsValid};
ghost use Rattle.location_terms.specs.Fit.{DualsFit, AreTame};
ghost use Rattle.lane_order.specs.Order.{IsOrderOf};
ghost use Rattle.dual_ascent.specs.Levels.{least_level};
ghost use Rattle.dual_ascent.specs.Ascent.{seated};
ghost use Rattle.dual_ascent.specs.Steps.{picks, picked};

use crate::looking::{is_within, lanes_of, lesser, scaled};
use dual_value::{Duals, PreparedBox, level};
use lane_order::LaneOrder;

/// Each dual of a customer that isn't passed over is set to its least level where it is below that.
pub(crate) fn seat_all(
    boxed: &PreparedBox<'_>,
    order: &LaneOrder,
    duals: &mut Duals,
    apart: Option<usize>,
)
    requires order { IsOrderOf order.now boxed.now.instance }
    requires tame { AreTame boxed.now.instance duals.old }
    ensures exact { duals.new ≡ fold (seated boxed.now.instance boxed.now.path) duals.old (picked boxed.now.instance apart) }
    ensures tame { AreTame boxed.now.instance duals.new }
    ensures valid { IsValid boxed.now.instance }
{
    for cust in 0..boxed.instance().custs() {
        if is_picked(apart, cust) {
            seat(boxed, order, duals, cust);
        }
    }
}

/// Whether the customer at place `cust` isn't the one that is passed over.
pub(crate) fn is_picked(apart: Option<usize>, cust: usize) -> bool
    ensures { result ≡ picks apart cust }
{
    match apart {
        None => true,
        Some(other) => cust != other,
    }
}

fn seat(boxed: &PreparedBox<'_>, order: &LaneOrder, duals: &mut Duals, cust: usize)
    requires valid { IsValid boxed.now.instance }
    requires order { IsOrderOf order.now boxed.now.instance }
    requires tame { AreTame boxed.now.instance duals.old }
    requires customer { cust < length boxed.now.instance.customers }
    ensures { duals.new ≡ seated boxed.now.instance boxed.now.path duals.old cust }
{
    if let Some(level) = least_level(boxed, order, duals, cust) {
        if duals.v(cust) < level {
            duals.set_v(cust, level);
        }
    }
}

// The least level of the customer's allowed lanes. No lane costs less than those before it, so the walk
// ends where a lane alone, without the price of its capacity, comes to the least so far.
fn least_level(
    boxed: &PreparedBox<'_>,
    order: &LaneOrder,
    duals: &Duals,
    cust: usize,
) -> Option<i128>
    requires valid { IsValid boxed.now.instance }
    requires order { IsOrderOf order.now boxed.now.instance }
    requires fit { DualsFit boxed.now.instance duals.now }
    requires customer { cust < length boxed.now.instance.customers }
    ensures { result ≡ least_level boxed.now.instance boxed.now.path duals.now cust }
{
    let q = duals.q();
    let demand = boxed.instance().demand(cust);
    let lanes = lanes_of(boxed, order, cust);
    let mut least = None;
    for lane in lanes {
        if is_within(least, scaled(q, lane.cost), 0) {
            return least;
        }
        let site = lane.site as usize;
        if boxed.admits(site, cust, demand) {
            least = Some(lesser(least, level(q, lane.cost, duals.u(site), demand)));
        }
    }
    least
}

//! From where a customer of a box can be served.
ghost use Rattle.std.specs.Prelude.{◌≡◌, ◌<◌, length};
ghost use Rattle.lane_order.specs.Order.{IsOrderOf};
ghost use Rattle.tree_search.specs.Service.{IsServiceOf, only};

use dual_value::PreparedBox;
use lane_order::LaneOrder;

/// From which sites, by place, a box lets a customer be served.
#[derive(Clone, Copy)]
pub(crate) enum Service {
    /// From none.
    Nowhere,
    /// From this one alone.
    Only(usize),
    /// From this one, by its cheapest lane, and from others.
    Several(usize),
}

/// From where the box lets the customer at place `cust` be served, by a walk over its lanes from the
/// cheapest on, up to the second that is allowed.
pub(crate) fn service_of(boxed: &PreparedBox<'_>, order: &LaneOrder, cust: usize) -> Service
    requires order { IsOrderOf order.now boxed.now.instance }
    requires customer { cust < length boxed.now.instance.customers }
    ensures { IsServiceOf boxed.now.instance boxed.now.path cust result }
{
    // An instance is valid, so that a site has one place.
    let _custs = boxed.instance().custs();
    let demand = boxed.instance().demand(cust);
    let mut first = None;
    for lane in order.lanes(cust) {
        if boxed.admits(lane.site as usize, cust, demand) {
            match first {
                None => first = Some(lane.site as usize),
                Some(site) => return Service::Several(site),
            }
        }
    }
    only(first)
}

fn only(first: Option<usize>) -> Service
    ensures { result ≡ only first }
{
    match first {
        None => Service::Nowhere,
        Some(site) => Service::Only(site),
    }
}

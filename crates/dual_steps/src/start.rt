//! What is known of sites and customers before any step.
ghost use Rattle.std.specs.Prelude.{◌≡◌, ◌<◌, length, IfOk};
ghost use Rattle.lane_order.specs.Order.{IsOrderOf};

use crate::customer::{Customer, customer_between};
use crate::site::Site;
use dual_value::SiteState;
use instance_store::{Instance, NoMemory};
use lane_order::{LaneOrder, PlacedLane};
use std::alloc::Global;
use std::num::nearest_u64_to_f64;

/// The sites of the instance, each free. It fails only where memory runs out.
pub fn sites_of(alloc: Global, inst: &Instance) -> Result<Vec<Site>, NoMemory>
    ensures { IfOk result (λ sites. length sites.items ≡ length inst.now.sites) }
{
    let costless = Site {
        state: SiteState::Free,
        fixed: 0.0,
    };
    let mut sites = vec![in alloc; costless; inst.sites()]?;
    fill_fixed(inst, &mut sites);
    Ok(sites)
}

fn fill_fixed(inst: &Instance, sites: &mut [Site])
    requires { length sites.old ≡ length inst.now.sites }
    ensures { length sites.new ≡ length sites.old }
{
    for i in 0..sites.len() {
        sites[i].fixed = nearest_u64_to_f64(inst.fixed(i));
    }
}

/// The customers of the instance. It fails only where memory runs out.
pub fn customers_of(
    alloc: Global,
    inst: &Instance,
    order: &LaneOrder,
) -> Result<Vec<Customer>, NoMemory>
    requires { IsOrderOf order.now inst.now }
    ensures { IfOk result (λ customers. length customers.items ≡ length inst.now.customers) }
{
    let mut customers = vec![in alloc; customer_between(0.0, 0.0); inst.custs()]?;
    fill_customers(inst, order, &mut customers);
    Ok(customers)
}

fn fill_customers(inst: &Instance, order: &LaneOrder, customers: &mut [Customer])
    requires order { IsOrderOf order.now inst.now }
    requires long { length customers.old ≡ length inst.now.customers }
    ensures { length customers.new ≡ length customers.old }
{
    for j in 0..customers.len() {
        customers[j] = first_numbers(inst, order, j);
    }
}

// A dual makes sense from the cost of the customer's cheapest lane on. Where as many sites may open as
// there are, no greater one helps than what it costs to open a site for the customer alone, and else none
// above the cost of its dearest lane. It may rise to twice that on the way.
fn first_numbers(inst: &Instance, order: &LaneOrder, j: usize) -> Customer
    requires order { IsOrderOf order.now inst.now }
    requires customer { j < length inst.now.customers }
{
    let lanes = order.lanes(j);
    let least = lane_cost(lanes.first());
    let (lo, hi) = inst.count();
    let most = if lo > 0 || (hi as usize) < inst.sites() {
        lane_cost(lanes.last())
    } else {
        least_alone(inst, order, j)
    };
    customer_between(least, 2.0 * most)
}

fn lane_cost(lane: Option<&PlacedLane>) -> f64 {
    match lane {
        None => 0.0,
        Some(lane) => nearest_u64_to_f64(lane.cost),
    }
}

// The least cost of opening a site and serving the customer from there.
fn least_alone(inst: &Instance, order: &LaneOrder, j: usize) -> f64
    requires order { IsOrderOf order.now inst.now }
    requires customer { j < length inst.now.customers }
{
    let mut least = u64::MAX;
    for lane in order.lanes(j) {
        if lane.cost >= least {
            return nearest_u64_to_f64(least);
        }
        let alone = lane.cost.saturating_add(inst.fixed(lane.site as usize));
        least = least.min(alone);
    }
    if least == u64::MAX {
        return 0.0;
    }
    nearest_u64_to_f64(least)
}

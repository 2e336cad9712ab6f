//! What the customers' duals pay at each site.
ghost use Rattle.std.specs.Prelude.{◌≡◌, ◌<◌, length, IfOk};

use crate::box_lanes::BoxLanes;
use dual_steps::customer::Customer;
use instance_store::{Instance, NoMemory};
use lane_order::PlacedLane;
use std::alloc::Global;
use std::num::nearest_u64_to_f64;

/// A customer's demand, and by how much it is to be multiplied to divide by it.
#[derive(Clone, Copy)]
pub(crate) struct Demand {
    pub(crate) weight: f64,
    pub(crate) inverse: f64,
}

// A customer without a demand fits everywhere: what it pays counts as this often as much a unit.
const WEIGHTLESS: f64 = 1.0e20;

/// What a customer pays at a site above the cost of its lane.
#[derive(Clone, Copy)]
pub(crate) struct Payment {
    pub(crate) customer: usize,
    pub(crate) profit: f64,
    pub(crate) weight: f64,
    /// The profit for a unit of demand.
    pub(crate) ratio: f64,
}

/// No payment in particular.
pub(crate) const NO_PAYMENT: Payment = Payment {
    customer: 0,
    profit: 0.0,
    weight: 0.0,
    ratio: 0.0,
};

/// What is paid at a site, and which of it fits into the site's capacity.
#[derive(Clone, Copy)]
pub(crate) struct Purse {
    /// The capacity, or more than all demand where there is none.
    pub(crate) room: f64,
    /// Where the site's payments begin among all, and how many they are.
    pub(crate) start: usize,
    pub(crate) count: usize,
    /// The sum of their demands.
    pub(crate) load: f64,
    /// The sum of the profits, and after packing the greatest that fits.
    pub(crate) gain: f64,
    /// The price of the capacity.
    pub(crate) price: f64,
    /// So many of the first payments fit, and such a part of the next one.
    pub(crate) whole: usize,
    pub(crate) part: f64,
}

/// Nothing paid, and room for everything.
pub(crate) const EMPTY_PURSE: Purse = Purse {
    room: f64::MAX,
    start: 0,
    count: 0,
    load: 0.0,
    gain: 0.0,
    price: 0.0,
    whole: 0,
    part: 0.0,
};

/// The demands of the customers. It fails only where memory runs out.
pub(crate) fn demands_of(alloc: Global, inst: &Instance) -> Result<Vec<Demand>, NoMemory>
    ensures { IfOk result (λ demands. length demands.items ≡ length inst.now.customers) }
{
    let none = Demand {
        weight: 0.0,
        inverse: 0.0,
    };
    let mut demands = vec![in alloc; none; inst.custs()]?;
    fill_demands(inst, &mut demands);
    Ok(demands)
}

fn fill_demands(inst: &Instance, demands: &mut [Demand])
    requires { length demands.old ≡ length inst.now.customers }
    ensures { length demands.new ≡ length demands.old }
{
    for j in 0..demands.len() {
        let weight = nearest_u64_to_f64(inst.demand(j));
        let inverse = if weight > 0.0 {
            1.0 / weight
        } else {
            WEIGHTLESS
        };
        demands[j] = Demand { weight, inverse };
    }
}

/// Fills in the capacities of the sites.
pub(crate) fn fill_rooms(inst: &Instance, purses: &mut [Purse])
    requires { length purses.old ≡ length inst.now.sites }
    ensures { length purses.new ≡ length purses.old }
{
    for i in 0..purses.len() {
        if let Some(cap) = inst.cap(i) {
            purses[i].room = nearest_u64_to_f64(cap);
        }
    }
}

/// Lays out where each site's payments begin, in a box of these lanes.
pub(crate) fn lay_out(lanes: &BoxLanes, custs: usize, purses: &mut [Purse])
    ensures { length purses.new ≡ length purses.old }
{
    empty(purses);
    for j in 0..custs {
        count_lanes(lanes.of_customer(j), purses);
    }
    begin_purses(purses);
}

/// Takes all payments out.
pub(crate) fn empty(purses: &mut [Purse])
    ensures { length purses.new ≡ length purses.old }
{
    for i in 0..purses.len() {
        purses[i].count = 0;
        purses[i].load = 0.0;
        purses[i].gain = 0.0;
    }
}

fn count_lanes(lanes: &[PlacedLane], purses: &mut [Purse])
    ensures { length purses.new ≡ length purses.old }
{
    for lane in lanes {
        let site = lane.site as usize;
        if site < purses.len() {
            purses[site].count = purses[site].count.saturating_add(1);
        }
    }
}

fn begin_purses(purses: &mut [Purse])
    ensures { length purses.new ≡ length purses.old }
{
    let mut start = 0usize;
    for i in 0..purses.len() {
        purses[i].start = start;
        start = start.saturating_add(purses[i].count);
    }
}

/// Lets each customer pay with its dual. The answer is the sum of the duals.
pub(crate) fn pay_all(
    lanes: &BoxLanes,
    customers: &[Customer],
    demands: &[Demand],
    purses: &mut [Purse],
    payments: &mut [Payment],
) -> f64
    requires { length demands.now ≡ length customers.now }
    ensures purses { length purses.new ≡ length purses.old }
    ensures payments { length payments.new ≡ length payments.old }
{
    empty(purses);
    let mut sum = 0.0;
    for j in 0..customers.len() {
        let value = customers[j].value;
        sum += value;
        pay(lanes.of_customer(j), j, value, demands[j], purses, payments);
    }
    sum
}

fn pay(
    lanes: &[PlacedLane],
    j: usize,
    value: f64,
    demand: Demand,
    purses: &mut [Purse],
    payments: &mut [Payment],
)
    ensures purses { length purses.new ≡ length purses.old }
    ensures payments { length payments.new ≡ length payments.old }
{
    for lane in lanes {
        let profit = value - nearest_u64_to_f64(lane.cost);
        if profit <= 0.0 {
            return;
        }
        let payment = Payment {
            customer: j,
            profit,
            weight: demand.weight,
            ratio: profit * demand.inverse,
        };
        put(payment, lane.site as usize, purses, payments);
    }
}

#[inline(always)]
fn put(payment: Payment, site: usize, purses: &mut [Purse], payments: &mut [Payment])
    ensures purses { length purses.new ≡ length purses.old }
    ensures payments { length payments.new ≡ length payments.old }
{
    if site < purses.len() {
        let place = purses[site].start.wrapping_add(purses[site].count);
        if place < payments.len() {
            payments[place] = payment;
            purses[site].count = purses[site].count.wrapping_add(1);
            purses[site].load += payment.weight;
            purses[site].gain += payment.profit;
        }
    }
}

/// Fills in the slopes of the customers: 1 less what is served of each by the sites that are open.
pub(crate) fn fill_slopes(
    purses: &[Purse],
    payments: &[Payment],
    taken: &[bool],
    customers: &mut [Customer],
)
    requires { length taken.now ≡ length purses.now }
    ensures { length customers.new ≡ length customers.old }
{
    begin_slopes(customers);
    for i in 0..purses.len() {
        if taken[i] {
            serve(purses[i], payments, customers);
        }
    }
}

fn begin_slopes(customers: &mut [Customer])
    ensures { length customers.new ≡ length customers.old }
{
    for j in 0..customers.len() {
        customers[j].slope = 1.0;
    }
}

fn serve(purse: Purse, payments: &[Payment], customers: &mut [Customer])
    ensures { length customers.new ≡ length customers.old }
{
    let end = purse.start.saturating_add(purse.whole);
    for k in purse.start..end.min(payments.len()) {
        lower_slope(payments[k].customer, 1.0, customers);
    }
    if end < payments.len() {
        lower_slope(payments[end].customer, purse.part, customers);
    }
}

fn lower_slope(j: usize, share: f64, customers: &mut [Customer])
    ensures { length customers.new ≡ length customers.old }
{
    if j < customers.len() {
        customers[j].slope -= share;
    }
}

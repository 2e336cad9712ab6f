//! The slacks that duals leave, and the slopes of the bound at them.
ghost use Rattle.std.specs.Prelude.{◌≡◌, ◌<◌, length};

use crate::customer::Customer;
use crate::near::{NearLane, NearLanes};
use crate::site::Site;
use instance_store::{Instance, LaneRow};
use lane_order::LaneOrder;

// More than any amount, and up to this each whole number is a float: its cast takes no rounding.
const MANY: u64 = 0x20_0000_0000_0000;

/// More than any dual or slack, and than slacks are off by in sum, in millionths.
pub(crate) const ENDLESS: f64 = 1.0e18;

/// What a lane costs, as a float.
#[inline(always)]
pub(crate) fn float_cost(cost: u64) -> f64 {
    (cost % MANY) as f64
}

/// Fills in the slacks of the sites at the duals that are evaluated. The answer is the sum of the duals.
pub(crate) fn fill_slacks(
    order: &LaneOrder,
    near: &NearLanes,
    customers: &mut [Customer],
    sites: &[Site],
    slacks: &mut [f64],
) -> f64
    requires customers { length customers.old ≡ length order.now.lanes }
    requires sites { length sites.now ≡ length slacks.old }
    requires slacks { length slacks.old ≡ length order.now.sites }
    ensures customers { length customers.new ≡ length customers.old }
    ensures slacks { length slacks.new ≡ length slacks.old }
{
    fill_costs(sites, slacks);
    let mut sum = 0.0;
    for j in 0..customers.len() {
        let value = customers[j].value;
        sum += value;
        customers[j].paid = match near.below(j, value) {
            Some(lanes) => pay_near(lanes, value, slacks),
            None => pay(order, j, value, slacks),
        };
    }
    sum
}

fn fill_costs(sites: &[Site], slacks: &mut [f64])
    requires { length sites.now ≡ length slacks.old }
    ensures { length slacks.new ≡ length slacks.old }
{
    for i in 0..slacks.len() {
        slacks[i] = sites[i].fixed;
    }
}

// Takes off the slacks what a customer pays with this dual, whose cheapest lanes these are. The answer is how many of
// them it pays.
fn pay_near(lanes: &[NearLane], value: f64, slacks: &mut [f64]) -> usize
    ensures { length slacks.new ≡ length slacks.old }
{
    let mut paid = 0usize;
    for lane in lanes {
        let cost = lane.cost();
        if value <= cost {
            return paid;
        }
        let site = lane.site();
        if site < slacks.len() {
            slacks[site] -= value - cost;
        }
        paid = paid.wrapping_add(1);
    }
    paid
}

// Takes off the slacks what the customer at place `j` pays with this dual. The answer is how many lanes it
// pays.
fn pay(order: &LaneOrder, j: usize, value: f64, slacks: &mut [f64]) -> usize
    requires customer { j < length order.now.lanes }
    requires slacks { length slacks.old ≡ length order.now.sites }
    ensures { length slacks.new ≡ length slacks.old }
{
    let mut paid = 0usize;
    for lane in order.lanes(j) {
        let cost = float_cost(lane.cost);
        if value <= cost {
            return paid;
        }
        slacks[lane.site as usize] -= value - cost;
        paid = paid.wrapping_add(1);
    }
    paid
}

// A lane of a site's row takes so many times as long as a customer's, for its customer has to be fetched.
const ROW_SHARE: usize = 2;

/// Fills in the slopes at the duals whose slacks were filled in last, where these sites are open: by all
/// lanes from the open sites where these are far fewer than the lanes that are paid, and else by those.
pub(crate) fn fill_slopes(
    order: &LaneOrder,
    near: &NearLanes,
    inst: &Instance,
    open: &[bool],
    customers: &mut [Customer],
)
    requires order { length customers.old ≡ length order.now.lanes }
    requires customers { length customers.old ≡ length inst.now.customers }
    requires open { length open.now ≡ length order.now.sites }
    requires sites { length open.now ≡ length inst.now.sites }
    ensures { length customers.new ≡ length customers.old }
{
    if open_count(open).saturating_mul(customers.len()) < paid_count(customers) / ROW_SHARE {
        fill_by_site(inst, open, customers);
    } else {
        fill_by_customer(order, near, open, customers);
    }
}

fn open_count(open: &[bool]) -> usize {
    let mut count = 0usize;
    for i in 0..open.len() {
        if open[i] {
            count = count.saturating_add(1);
        }
    }
    count
}

fn paid_count(customers: &[Customer]) -> usize {
    let mut count = 0usize;
    for j in 0..customers.len() {
        count = count.saturating_add(customers[j].paid);
    }
    count
}

fn fill_by_site(inst: &Instance, open: &[bool], customers: &mut [Customer])
    requires customers { length customers.old ≡ length inst.now.customers }
    requires open { length open.now ≡ length inst.now.sites }
    ensures { length customers.new ≡ length customers.old }
{
    start_slopes(customers);
    for i in 0..open.len() {
        if open[i] {
            lower_slopes(inst.lanes(i), customers);
        }
    }
}

fn start_slopes(customers: &mut [Customer])
    ensures { length customers.new ≡ length customers.old }
{
    for j in 0..customers.len() {
        customers[j].slope = 1.0;
    }
}

// Counts an open site, whose lanes these are, where customers pay it.
fn lower_slopes(lanes: &LaneRow, customers: &mut [Customer])
    requires { length customers.old ≡ length lanes.now }
    ensures { length customers.new ≡ length customers.old }
{
    for j in 0..customers.len() {
        if let Some(cost) = lanes.get(j) {
            if float_cost(cost) < customers[j].value {
                customers[j].slope -= 1.0;
            }
        }
    }
}

fn fill_by_customer(order: &LaneOrder, near: &NearLanes, open: &[bool], customers: &mut [Customer])
    requires customers { length customers.old ≡ length order.now.lanes }
    requires open { length open.now ≡ length order.now.sites }
    ensures { length customers.new ≡ length customers.old }
{
    for j in 0..customers.len() {
        let one = customers[j];
        customers[j].slope = match near.below(j, one.value) {
            Some(lanes) => slope_near(lanes, one.paid, open),
            None => slope(order, j, one.paid, open),
        };
    }
}

// The slope of a customer that pays so many of these lanes.
fn slope_near(lanes: &[NearLane], paid: usize, open: &[bool]) -> f64 {
    let mut count = 0u64;
    for lane in lanes.get(..paid).unwrap_or(&[]) {
        let site = lane.site();
        if site < open.len() && open[site] {
            count = count.wrapping_add(1);
        }
    }
    1.0 - float_cost(count)
}

// The slope of a customer that pays so many lanes.
fn slope(order: &LaneOrder, j: usize, paid: usize, open: &[bool]) -> f64
    requires customer { j < length order.now.lanes }
    requires open { length open.now ≡ length order.now.sites }
{
    let mut slope = 1.0;
    let mut left = paid;
    for lane in order.lanes(j) {
        if left == 0 {
            return slope;
        }
        left -= 1;
        if open[lane.site as usize] {
            slope -= 1.0;
        }
    }
    slope
}

/// Sets the limits that a plan with these open sites suggests: a customer's dual is at least what its
/// cheapest lane from them costs, and at most what its second does.
pub(crate) fn fill_limits(order: &LaneOrder, open: &[bool], customers: &mut [Customer])
    requires customers { length customers.old ≡ length order.now.lanes }
    requires open { length open.now ≡ length order.now.sites }
    ensures { length customers.new ≡ length customers.old }
{
    for j in 0..customers.len() {
        let (low, high) = limits(order, j, open, customers[j]);
        customers[j].low = low;
        customers[j].high = high;
    }
}

fn limits(order: &LaneOrder, j: usize, open: &[bool], one: Customer) -> (f64, f64)
    requires customer { j < length order.now.lanes }
    requires open { length open.now ≡ length order.now.sites }
{
    let mut low = None;
    for lane in order.lanes(j) {
        if open[lane.site as usize] {
            let cost = float_cost(lane.cost);
            match low {
                None => low = Some(cost),
                Some(low) => return (low, cost),
            }
        }
    }
    match low {
        None => (one.least, one.most),
        Some(low) => (low, one.most.max(low)),
    }
}

/// Lets the limits be the widest that make sense.
pub(crate) fn widen_limits(customers: &mut [Customer])
    ensures { length customers.new ≡ length customers.old }
{
    for j in 0..customers.len() {
        customers[j].low = customers[j].least;
        customers[j].high = customers[j].most;
    }
}

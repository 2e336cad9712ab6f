//! Lanes as the steps see them, site by site.
ghost use Rattle.std.specs.Prelude.{◌≡◌, length, IfOk};

use dual_steps::customer::Customer;
use dual_value::PreparedBox;
use instance_store::{Instance, NoMemory};
use std::alloc::Global;
use std::num::nearest_u64_to_f64;

// A customer without a demand fits everywhere: what it pays counts as this often as much a unit.
const WEIGHTLESS: f64 = 1.0e20;

/// A lane to a customer, in millionths, and what is known of it at the duals that are evaluated.
#[derive(Clone, Copy)]
pub(crate) struct Lane {
    pub(crate) customer: usize,
    pub(crate) cost: f64,
    pub(crate) weight: f64,
    /// By how much a profit is to be multiplied to divide it by the demand.
    pub(crate) inverse: f64,
    /// Whether the box allows it.
    pub(crate) is_allowed: bool,
    /// What the customer's dual pays above the cost, and that for a unit of demand.
    pub(crate) profit: f64,
    pub(crate) ratio: f64,
    /// Whether it is in its site's best set.
    pub(crate) is_chosen: bool,
    /// How often it is taken by smoothed steps, between 0 and 1.
    pub(crate) share: f64,
}

/// The lanes of a site among all: where they begin and end, and the room of the site.
#[derive(Clone, Copy)]
pub(crate) struct Row {
    pub(crate) start: usize,
    pub(crate) end: usize,
    /// The capacity, or more than all demand where there is none.
    pub(crate) room: f64,
}

/// A row without lanes, with room for everything.
pub(crate) const EMPTY_ROW: Row = Row {
    start: 0,
    end: 0,
    room: f64::MAX,
};

/// The lanes of the instance, by site. It fails only where memory runs out.
pub(crate) fn lanes_of(alloc: Global, inst: &Instance) -> Result<Vec<Lane>, NoMemory> {
    let mut lanes = Vec::new(alloc);
    for site in 0..inst.sites() {
        push_lanes(inst, site, &mut lanes)?;
    }
    Ok(lanes)
}

fn push_lanes(inst: &Instance, site: usize, lanes: &mut Vec<Lane>) -> Result<(), NoMemory> {
    for customer in 0..inst.custs() {
        if let Some(cost) = cost_of(inst, site, customer) {
            lanes.push(lane_of(inst, customer, cost))?;
        }
    }
    Ok(())
}

fn cost_of(inst: &Instance, site: usize, customer: usize) -> Option<u64> {
    if site >= inst.sites() || customer >= inst.custs() {
        return None;
    }
    inst.lane(site, customer)
}

fn lane_of(inst: &Instance, customer: usize, cost: u64) -> Lane {
    let weight = demand_of(inst, customer);
    let inverse = if weight > 0.0 {
        1.0 / weight
    } else {
        WEIGHTLESS
    };
    Lane {
        customer,
        cost: nearest_u64_to_f64(cost),
        weight,
        inverse,
        is_allowed: true,
        profit: 0.0,
        ratio: 0.0,
        is_chosen: false,
        share: 0.0,
    }
}

fn demand_of(inst: &Instance, customer: usize) -> f64 {
    if customer >= inst.custs() {
        return 0.0;
    }
    nearest_u64_to_f64(inst.demand(customer))
}

/// Where the lanes of each site are among all. It fails only where memory runs out.
pub(crate) fn rows_of(alloc: Global, inst: &Instance) -> Result<Vec<Row>, NoMemory>
    ensures { IfOk result (λ rows. length rows.items ≡ length inst.now.sites) }
{
    let mut rows = vec![in alloc; EMPTY_ROW; inst.sites()]?;
    fill_rows(inst, &mut rows);
    Ok(rows)
}

fn fill_rows(inst: &Instance, rows: &mut [Row])
    requires { length rows.old ≡ length inst.now.sites }
    ensures { length rows.new ≡ length rows.old }
{
    let mut start = 0usize;
    for site in 0..rows.len() {
        rows[site].start = start;
        start = start.saturating_add(lane_count(inst, site));
        rows[site].end = start;
        if let Some(cap) = inst.cap(site) {
            rows[site].room = nearest_u64_to_f64(cap);
        }
    }
}

fn lane_count(inst: &Instance, site: usize) -> usize {
    let mut count = 0usize;
    for customer in 0..inst.custs() {
        if cost_of(inst, site, customer).is_some() {
            count = count.saturating_add(1);
        }
    }
    count
}

/// Takes up which lanes the box allows.
pub(crate) fn allow_lanes(boxed: &PreparedBox<'_>, rows: &[Row], lanes: &mut [Lane])
    ensures { length lanes.new ≡ length lanes.old }
{
    for site in 0..rows.len() {
        allow_row(boxed, site, rows[site], lanes);
    }
}

fn allow_row(boxed: &PreparedBox<'_>, site: usize, row: Row, lanes: &mut [Lane])
    ensures { length lanes.new ≡ length lanes.old }
{
    for k in row.start..row.end.min(lanes.len()) {
        lanes[k].is_allowed = admits(boxed, site, lanes[k].customer);
    }
}

fn admits(boxed: &PreparedBox<'_>, site: usize, customer: usize) -> bool {
    let inst = boxed.instance();
    if site >= inst.sites() || customer >= inst.custs() {
        return false;
    }
    inst.lane(site, customer).is_some() && boxed.admits(site, customer, inst.demand(customer))
}

/// Lets the customers pay the site's lanes with their duals, and puts the lanes in order: first those with the
/// greatest profits for a unit of demand. None is chosen.
pub(crate) fn price_row(row: Row, customers: &[Customer], lanes: &mut [Lane])
    ensures { length lanes.new ≡ length lanes.old }
{
    for k in row.start..row.end.min(lanes.len()) {
        let mut lane = lanes[k];
        lane.profit = if lane.is_allowed {
            value_of(customers, lane.customer) - lane.cost
        } else {
            -1.0
        };
        lane.ratio = lane.profit * lane.inverse;
        lane.is_chosen = false;
        put_in_order(lane, row.start, k, lanes);
    }
}

#[inline(always)]
fn value_of(customers: &[Customer], customer: usize) -> f64 {
    match customers.get(customer) {
        None => 0.0,
        Some(one) => one.value,
    }
}

// Puts the lane at place `k` or before it, behind those with a greater ratio.
#[inline(always)]
fn put_in_order(lane: Lane, start: usize, k: usize, lanes: &mut [Lane])
    ensures { length lanes.new ≡ length lanes.old }
{
    let mut place = k;
    for _ in start..k {
        if place == 0 || place >= lanes.len() || lanes[place - 1].ratio >= lane.ratio {
            break;
        }
        lanes[place] = lanes[place - 1];
        place -= 1;
    }
    if place < lanes.len() {
        lanes[place] = lane;
    }
}

//! Which customers may pay which sites, and sweeps that mend one slack after the other.
ghost use Rattle.std.specs.Prelude.{◌≡◌, ◌<◌, IfOk, length};

use crate::customer::{Customer, between};
use crate::paying::float_cost;
use crate::site::Site;
use instance_store::NoMemory;
use lane_order::LaneOrder;
use std::alloc::Global;

// A customer that may pay a site, and what its lane from there costs.
#[derive(Clone, Copy)]
struct Payer {
    customer: usize,
    cost: f64,
}

/// For each site the customers whose greatest dual is above the cost of their lane from there.
#[derive(Drop)]
pub(crate) struct Payers {
    // By site, where its customers end; they begin where those of the site before end.
    ends: Vec<usize>,
    payers: Vec<Payer>,
}

impl Payers {
    /// The customers that may pay each site between their limits. It fails only where memory runs out.
    pub(crate) fn of(
        alloc: Global,
        order: &LaneOrder,
        customers: &[Customer],
        sites: usize,
    ) -> Result<Payers, NoMemory>
        requires customers { length customers.now ≡ length order.now.lanes }
    {
        let mut ends = vec![in alloc; 0; sites]?;
        let all = count_payers(order, customers, &mut ends);
        let none = Payer {
            customer: 0,
            cost: 0.0,
        };
        let mut payers = vec![in alloc; none; all]?;
        place_payers(order, customers, &mut ends, &mut payers);
        Ok(Payers { ends, payers })
    }

    // The customers that may pay the site.
    fn of_site(&self, site: usize) -> &[Payer] {
        let end = match self.ends.get(site) {
            None => return &[],
            Some(end) => *end,
        };
        let start = if site == 0 { 0 } else { self.end_before(site) };
        self.payers.get(start..end).unwrap_or(&[])
    }

    fn end_before(&self, site: usize) -> usize
        requires { 0 < site }
    {
        match self.ends.get(site - 1) {
            None => 0,
            Some(end) => *end,
        }
    }
}

// Counts the customers of each site, and then lets each count be where the site's customers start.
// The answer is how many there are in all.
fn count_payers(order: &LaneOrder, customers: &[Customer], ends: &mut [usize]) -> usize
    requires customers { length customers.now ≡ length order.now.lanes }
    ensures { length ends.new ≡ length ends.old }
{
    for j in 0..customers.len() {
        count_lanes(order, j, customers[j].high, ends);
    }
    add_up(ends)
}

fn count_lanes(order: &LaneOrder, j: usize, high: f64, ends: &mut [usize])
    requires customer { j < length order.now.lanes }
    ensures { length ends.new ≡ length ends.old }
{
    for lane in order.lanes(j) {
        if high < float_cost(lane.cost) {
            return;
        }
        let site = lane.site as usize;
        if site < ends.len() {
            ends[site] = ends[site].saturating_add(1);
        }
    }
}

fn add_up(ends: &mut [usize]) -> usize
    ensures { length ends.new ≡ length ends.old }
{
    let mut sum = 0usize;
    for i in 0..ends.len() {
        let count = ends[i];
        ends[i] = sum;
        sum = sum.saturating_add(count);
    }
    sum
}

// Puts each customer to its sites. Where a site's customers start becomes where they end.
fn place_payers(order: &LaneOrder, customers: &[Customer], ends: &mut [usize], payers: &mut [Payer])
    requires customers { length customers.now ≡ length order.now.lanes }
    ensures ends { length ends.new ≡ length ends.old }
    ensures payers { length payers.new ≡ length payers.old }
{
    for j in 0..customers.len() {
        place_lanes(order, j, customers[j].high, ends, payers);
    }
}

fn place_lanes(order: &LaneOrder, j: usize, high: f64, ends: &mut [usize], payers: &mut [Payer])
    requires customer { j < length order.now.lanes }
    ensures ends { length ends.new ≡ length ends.old }
    ensures payers { length payers.new ≡ length payers.old }
{
    for lane in order.lanes(j) {
        let cost = float_cost(lane.cost);
        if high < cost {
            return;
        }
        place(
            lane.site as usize,
            Payer { customer: j, cost },
            ends,
            payers,
        );
    }
}

fn place(site: usize, payer: Payer, ends: &mut [usize], payers: &mut [Payer])
    ensures ends { length ends.new ≡ length ends.old }
    ensures payers { length payers.new ≡ length payers.old }
{
    if site < ends.len() && ends[site] < payers.len() {
        payers[ends[site]] = payer;
        ends[site] += 1;
    }
}

/// A customer's dual while slacks are mended, between its limits.
#[derive(Clone, Copy)]
pub(crate) struct Spot {
    value: f64,
    low: f64,
    high: f64,
}

/// The duals of the customers, by place. It fails only where memory runs out.
pub(crate) fn spots_of(alloc: Global, customers: &[Customer]) -> Result<Vec<Spot>, NoMemory>
    ensures { IfOk result (λ spots. length spots.items ≡ length customers.now) }
{
    let none = Spot {
        value: 0.0,
        low: 0.0,
        high: 0.0,
    };
    let mut spots = vec![in alloc; none; customers.len()]?;
    for j in 0..customers.len() {
        spots[j] = Spot {
            value: customers[j].value,
            low: customers[j].low,
            high: customers[j].high,
        };
    }
    Ok(spots)
}

/// Lets the duals of the customers be these.
pub(crate) fn take_spots(spots: &[Spot], customers: &mut [Customer])
    ensures { length customers.new ≡ length customers.old }
{
    for j in 0..customers.len() {
        if j < spots.len() {
            customers[j].value = spots[j].value;
        }
    }
}

/// What a sweep comes to.
#[derive(Clone, Copy)]
pub(crate) struct Swept {
    /// The price of the number of open sites.
    pub(crate) extra: f64,
    /// By how much slacks were off in all.
    pub(crate) off: f64,
}

/// Mends the slack of each free site once: those of the plan's sites from above 0, those of the others
/// from below 0, each by the same change of all customers that can make it. Sites cost so much `extra`, which
/// changes along with the customers where it `moves`.
pub(crate) fn sweep(
    payers: &Payers,
    sites: &[Site],
    plan: &[bool],
    extra: f64,
    moves: bool,
    spots: &mut [Spot],
) -> Swept
    requires { length plan.now ≡ length sites.now }
    ensures { length spots.new ≡ length spots.old }
{
    let others = if moves { 1.0 } else { 0.0 };
    let mut swept = Swept { extra, off: 0.0 };
    for i in 0..sites.len() {
        if sites[i].is_free() {
            let mended = mend(
                payers.of_site(i),
                plan[i],
                sites[i].fixed + swept.extra,
                others,
                spots,
            );
            swept.extra -= others * mended.step;
            swept.off += mended.off;
        }
    }
    swept
}

// By how much a slack was off, and by how much each customer's dual rose for it.
#[derive(Clone, Copy)]
struct Mended {
    off: f64,
    step: f64,
}

// A site's slack, and how many customers can mend it.
#[derive(Clone, Copy)]
struct Standing {
    slack: f64,
    movers: f64,
}

// Mends a slack, where so many others move along with the customers.
fn mend(payers: &[Payer], in_plan: bool, fixed: f64, others: f64, spots: &mut [Spot]) -> Mended
    ensures { length spots.new ≡ length spots.old }
{
    let now = slack_of(payers, in_plan, fixed, spots);
    let is_off = if in_plan {
        now.slack > 0.0
    } else {
        now.slack < 0.0
    };
    if !is_off {
        return Mended {
            off: 0.0,
            step: 0.0,
        };
    }
    let step = now.slack / (others + now.movers).max(1.0);
    move_all(payers, in_plan, step, spots);
    Mended {
        off: now.slack.abs(),
        step,
    }
}

// The slack of a site that costs so much, where these may pay it.
fn slack_of(payers: &[Payer], in_plan: bool, fixed: f64, spots: &[Spot]) -> Standing {
    let mut slack = fixed;
    let mut movers = 0.0;
    for payer in payers {
        if payer.customer < spots.len() {
            let one = spots[payer.customer];
            if payer.cost <= one.value {
                slack -= one.value - payer.cost;
                if can_move(one, payer.cost, in_plan) {
                    movers += 1.0;
                }
            }
        }
    }
    Standing { slack, movers }
}

// Changes each dual that can mend the slack by a step, as far as its limits let it.
fn move_all(payers: &[Payer], in_plan: bool, step: f64, spots: &mut [Spot])
    ensures { length spots.new ≡ length spots.old }
{
    for payer in payers {
        if payer.customer < spots.len() {
            let one = spots[payer.customer];
            if can_move(one, payer.cost, in_plan) {
                spots[payer.customer].value = between(one.value + step, one.low, one.high);
            }
        }
    }
}

// Whether a customer whose lane costs so much can pay more, as for a site in the plan, or else less.
fn can_move(one: Spot, cost: f64, in_plan: bool) -> bool {
    if in_plan {
        cost <= one.value && one.value < one.high
    } else {
        cost < one.value && one.low < one.value
    }
}

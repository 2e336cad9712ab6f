//! The slack of one site behind a change of it, from the slack before where one amount changed.
ghost use Rattle.std.specs.Prelude.{◌≡◌, ◌<◌, ◌≤◌, ◌+◌, ◌*◌, ◌^◌, length, pos, ◌-ℤ◌, unsigned_abs};
ghost use Rattle.std.specs.List.{list_any};
ghost use Rattle.location_terms.specs.Instance.{site_at, customer_at, lane};
ghost use Rattle.location_terms.specs.Box.{bars_lane, holds_demand, is_closed};
ghost use Rattle.location_terms.specs.Bound.{slack_of};
ghost use Rattle.location_terms.specs.Fit.{DualsFit};
ghost use Rattle.location_terms.specs.declared.limits.TheConstants.{MAX_AMOUNT, MAX_MULTIPLIER, MAX_SCALE, MAX_VALUE};
ghost use Rattle.dual_value.specs.declared.bounds.TheConstants.{MAX_SLACK};
ghost use Rattle.leaf_book.specs.OneSite.{IsFormerSlack, is_open_to, over_level, paid_with};

use crate::Change;
use dual_value::{Decision, DualsByPlace, SiteState, is_torn, site_state, slack};
use instance_store::{CustId, Instance, SiteId};

// The slack of the site at place `site` behind a change of it, from the slack before.
pub(crate) fn slack_behind<D: DualsByPlace>(
    inst: &Instance,
    path: &[Decision],
    duals: &D,
    site: usize,
    change: Change,
    old: i128,
) -> i128
    requires fit { DualsFit inst.now (D.numbers duals.now) }
    requires site { site < length inst.now.sites }
    requires small { unsigned_abs old ≤ MAX_SLACK }
    requires old { IsFormerSlack change inst.now path.now (D.numbers duals.now) site old }
    ensures exact { result ≡ slack_of inst.now path.now (D.numbers duals.now) site }
    ensures small { unsigned_abs result ≤ MAX_SLACK }
{
    let _valid = inst.sites();
    match change {
        Change::Fixed { former, .. } => {
            let (now, before) = (inst.fixed(site), former);
            old + (scaled(duals.q(), now) - scaled(duals.q(), before))
        }
        Change::Lane { cust, former, .. } => match inst.cust_at(cust) {
            Some(cust) => old + change_paid(inst, path, duals, site, cust, former),
            None => old,
        },
        Change::Site(_) | Change::Count | Change::All => slack(inst, path, duals, site),
    }
}

// An amount, which may be any, at the scale.
fn scaled(q: u32, amount: u64) -> i128
    ensures exact { result ≡ pos (q * amount) }
    ensures small { unsigned_abs result ≤ 2 ^ 96 }
{
    i128::from(q) * i128::from(amount)
}

// What the customer's dual paid at the site when the lane cost so much, less what it pays now.
fn change_paid<D: DualsByPlace>(
    inst: &Instance,
    path: &[Decision],
    duals: &D,
    site: usize,
    cust: usize,
    former: Option<u64>,
) -> i128
    requires fit { DualsFit inst.now (D.numbers duals.now) }
    requires site { site < length inst.now.sites }
    requires customer { cust < length inst.now.customers }
    ensures exact { result ≡ paid_with inst.now path.now (D.numbers duals.now) site cust former -ℤ paid_with inst.now path.now (D.numbers duals.now) site cust (lane inst.now (site_at inst.now site).id (customer_at inst.now cust).id) }
    ensures small { unsigned_abs result ≤ 2 * MAX_VALUE }
{
    let (q, price) = (duals.q(), duals.u(site));
    let (value, demand) = (duals.v(cust), inst.demand(cust));
    let before = over_level(q, price, value, demand, former);
    let now = over_level(q, price, value, demand, inst.lane(site, cust));
    // Most lanes are too dear for any payment, so this is all that is looked at of most boxes.
    if before == now {
        return 0;
    }
    if !is_open_to(inst, path, site, cust) {
        return 0;
    }
    before - now
}

// By how much a dual is above the level of a lane of this cost.
fn over_level(q: u32, price: u64, value: i128, demand: u64, cost: Option<u64>) -> i128
    requires q { q ≤ MAX_SCALE }
    requires price { price ≤ MAX_MULTIPLIER }
    requires value { unsigned_abs value ≤ MAX_VALUE }
    requires demand { demand ≤ MAX_AMOUNT }
    ensures exact { result ≡ over_level q price value demand cost }
    ensures small { unsigned_abs result ≤ MAX_VALUE }
{
    match cost {
        Some(cost) => (value - level(q, price, demand, cost)).max(0),
        None => 0,
    }
}

// The level of a lane of this cost.
fn level(q: u32, price: u64, demand: u64, cost: u64) -> i128
    requires price { price ≤ MAX_MULTIPLIER }
    requires demand { demand ≤ MAX_AMOUNT }
    ensures exact { result ≡ pos (q * cost + price * demand) }
    ensures small { unsigned_abs result ≤ 2 ^ 96 + MAX_MULTIPLIER * MAX_AMOUNT }
{
    scaled(q, cost) + i128::from(price) * i128::from(demand)
}

// Whether the box lets the site serve the customer wherever there is a lane.
fn is_open_to(inst: &Instance, path: &[Decision], site: usize, cust: usize) -> bool
    requires site { site < length inst.now.sites }
    requires customer { cust < length inst.now.customers }
    ensures { result ≡ is_open_to inst.now path.now (site_at inst.now site) (customer_at inst.now cust) }
{
    !is_torn(inst, path)
        && !is_closed(inst, path, site)
        && !is_barred(path, inst.site_id(site), inst.cust_id(cust))
        && holds(inst.cap(site), inst.demand(cust))
}

fn is_closed(inst: &Instance, path: &[Decision], site: usize) -> bool
    requires { site < length inst.now.sites }
    ensures { result ≡ is_closed path.now (site_at inst.now site) }
{
    match site_state(inst, path, site) {
        SiteState::Closed => true,
        SiteState::Opened | SiteState::Free => false,
    }
}

fn is_barred(path: &[Decision], site: SiteId, cust: CustId) -> bool
    ensures { result ≡ list_any (bars_lane site cust) path.now }
{
    path.iter().any(|step| bars_lane(site, cust, step))
}

fn bars_lane(site: SiteId, cust: CustId, step: &Decision) -> bool
    ensures { result ≡ bars_lane site cust step.now }
{
    match step {
        Decision::No(other, barred) => site == *other && cust == *barred,
        Decision::Yes(other, served) => site != *other && cust == *served,
        _ => false,
    }
}

// Whether the capacity takes the demand.
fn holds(cap: Option<u64>, demand: u64) -> bool
    ensures { result ≡ holds_demand cap demand }
{
    match cap {
        None => true,
        Some(cap) => demand <= cap,
    }
}

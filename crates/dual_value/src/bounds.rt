//! The slack of a site and the bound of a box, by the rows of an instance. Nothing in it takes memory.
ghost use Rattle.std.specs.Prelude.{◌≡◌, ◌+◌, ◌*◌, ◌<◌, ◌≤◌, false, length, pos, ◌≤ℤ◌, unsigned_abs};
ghost use Rattle.location_terms.specs.Instance.{IsValid, site_at, customer_at, lane};
ghost use Rattle.location_terms.specs.Box.{is_closed, is_torn};
ghost use Rattle.location_terms.specs.Bound.{total, v_at, paid_at, cap_price, slack_of, share_of, count_price, bound_of};
ghost use Rattle.location_terms.specs.Fit.{DualsFit};
ghost use Rattle.location_terms.specs.declared.limits.TheConstants.{MAX_AMOUNT, MAX_SITES, MAX_CUSTOMERS, MAX_SCALE, MAX_VALUE, MAX_MULTIPLIER};
ghost use Rattle.instance_store.specs.Small.{IsSmall};
ghost use Rattle.dual_value.specs.Paid.{is_dear, paid_above, priced_cost};
ghost use Rattle.dual_value.specs.SeenPath.{IsSeen};

use crate::seen_path::{SeenPath, seen};
use crate::settled::is_closed;
use crate::{DualsByPlace, SiteState, site_state};
use instance_store::Instance;
use location_terms::Decision;

/// The greatest size of a slack, either sign.
pub const MAX_SLACK: u128 = 2_000_000_000_000_000_000_000_000_000_000_000;

/// The greatest size of a bound, either sign.
pub const MAX_BOUND: u128 = 10_000_000_000_000_000_000_000_000_000_000_000_000;

/// What the path leaves of the scaled fixed cost of the site at place `site`: that cost and the
/// price on the number of sites, less the price of the capacity and what the customers pay above the
/// levels of the allowed lanes from the site.
pub fn slack<D: DualsByPlace>(inst: &Instance, path: &[Decision], duals: &D, site: usize) -> i128
    requires fit { DualsFit inst.now (D.numbers duals.now) }
    requires site { site < length inst.now.sites }
    ensures exact { result ≡ slack_of inst.now path.now (D.numbers duals.now) site }
    ensures small { unsigned_abs result ≤ MAX_SLACK }
{
    slack_in(inst, &seen(inst, path), duals, site)
}

/// The bound of the box: `q` times the cost of each feasible plan of the box is at least this.
pub fn bound<D: DualsByPlace>(inst: &Instance, path: &[Decision], duals: &D) -> i128
    requires { DualsFit inst.now (D.numbers duals.now) }
    ensures exact { result ≡ bound_of inst.now path.now (D.numbers duals.now) }
    ensures small { unsigned_abs result ≤ MAX_BOUND }
{
    let path = seen(inst, path);
    value_total(inst, duals) - count_price(inst, duals.nu()) + share_total(inst, &path, duals)
}

// What all sites add to the bound.
fn share_total<D: DualsByPlace>(inst: &Instance, path: &SeenPath<'_>, duals: &D) -> i128
    requires fit { DualsFit inst.now (D.numbers duals.now) }
    requires valid { IsValid inst.now }
    requires seen { IsSeen inst.now path.now }
    ensures exact { result ≡ total (share_of inst.now path.now.steps.now (D.numbers duals.now)) (length inst.now.sites) }
    ensures small { unsigned_abs result ≤ MAX_SITES * MAX_SLACK }
{
    let mut sum = 0;
    for site in 0..inst.sites() {
        sum += share(inst, path, duals, site);
    }
    sum
}

fn share<D: DualsByPlace>(inst: &Instance, path: &SeenPath<'_>, duals: &D, site: usize) -> i128
    requires fit { DualsFit inst.now (D.numbers duals.now) }
    requires valid { IsValid inst.now }
    requires site { site < length inst.now.sites }
    requires seen { IsSeen inst.now path.now }
    ensures exact { result ≡ share_of inst.now path.now.steps.now (D.numbers duals.now) site }
    ensures small { unsigned_abs result ≤ MAX_SLACK }
{
    match site_state(inst, path.steps, site) {
        SiteState::Closed => 0,
        SiteState::Opened => slack_in(inst, path, duals, site),
        SiteState::Free => slack_in(inst, path, duals, site).min(0),
    }
}

fn slack_in<D: DualsByPlace>(inst: &Instance, path: &SeenPath<'_>, duals: &D, site: usize) -> i128
    requires fit { DualsFit inst.now (D.numbers duals.now) }
    requires valid { IsValid inst.now }
    requires site { site < length inst.now.sites }
    requires seen { IsSeen inst.now path.now }
    ensures exact { result ≡ slack_of inst.now path.now.steps.now (D.numbers duals.now) site }
    ensures small { unsigned_abs result ≤ MAX_SLACK }
{
    priced_cost(inst, duals, site) - paid(inst, path, duals, site)
}

// The scaled fixed cost of the site with the price on the number of sites, less the price of its
// capacity.
pub(crate) fn priced_cost<D: DualsByPlace>(inst: &Instance, duals: &D, site: usize) -> i128
    requires fit { DualsFit inst.now (D.numbers duals.now) }
    requires site { site < length inst.now.sites }
    ensures exact { result ≡ priced_cost inst.now (D.numbers duals.now) site }
    ensures small { unsigned_abs result ≤ MAX_SCALE * MAX_AMOUNT + MAX_VALUE + MAX_MULTIPLIER * MAX_AMOUNT }
{
    let scaled = times(u64::from(duals.q()), inst.fixed(site));
    scaled + duals.nu() - cap_price(duals.u(site), inst.cap(site))
}

fn cap_price(price: u64, cap: Option<u64>) -> i128
    requires price { price ≤ MAX_MULTIPLIER }
    requires cap { IsSmall cap }
    ensures exact { result ≡ pos (cap_price price cap) }
    ensures small { cap_price price cap ≤ MAX_MULTIPLIER * MAX_AMOUNT }
{
    match cap {
        None => 0,
        Some(cap) => times(price, cap),
    }
}

// What the customers pay above the levels of the allowed lanes from the site.
fn paid<D: DualsByPlace>(inst: &Instance, path: &SeenPath<'_>, duals: &D, site: usize) -> i128
    requires fit { DualsFit inst.now (D.numbers duals.now) }
    requires valid { IsValid inst.now }
    requires site { site < length inst.now.sites }
    requires seen { IsSeen inst.now path.now }
    ensures exact { result ≡ total (paid_at inst.now path.now.steps.now (D.numbers duals.now) site) (length inst.now.customers) }
    ensures low { pos 0 ≤ℤ result }
    ensures high { result ≤ℤ pos (MAX_CUSTOMERS * MAX_VALUE) }
{
    let torn = path.torn;
    if torn || is_closed(inst, path.steps, site) {
        return 0;
    }
    paid_from(inst, path, duals, site)
}

fn paid_from<D: DualsByPlace>(inst: &Instance, path: &SeenPath<'_>, duals: &D, site: usize) -> i128
    requires fit { DualsFit inst.now (D.numbers duals.now) }
    requires valid { IsValid inst.now }
    requires site { site < length inst.now.sites }
    requires seen { IsSeen inst.now path.now }
    requires whole { is_torn inst.now path.now.steps.now ≡ false }
    requires open { is_closed path.now.steps.now (site_at inst.now site) ≡ false }
    ensures exact { result ≡ total (paid_at inst.now path.now.steps.now (D.numbers duals.now) site) (length inst.now.customers) }
    ensures low { pos 0 ≤ℤ result }
    ensures high { result ≤ℤ pos (MAX_CUSTOMERS * MAX_VALUE) }
{
    let lanes = inst.lanes(site);
    let q = duals.q();
    let price = duals.u(site);
    let mut sum = 0;
    for cust in 0..lanes.len() {
        let cost = lanes.get(cust);
        let value = duals.v(cust);
        if !is_dear(cost, q, value) {
            sum += paid_by(inst, path, site, cust, cost, value, q, price);
        }
    }
    sum
}

// Whether the dual pays nothing for the lane at any price of the capacity. Most lanes are dear, so this
// is all that is looked at of them.
#[inline(always)]
fn is_dear(cost: Option<u64>, q: u32, value: i128) -> bool
    requires { IsSmall cost }
    ensures { result ≡ is_dear q value cost }
{
    match cost {
        None => true,
        Some(cost) => value <= times(u64::from(q), cost),
    }
}

// What a customer of this dual pays above the level of the lane, where the site is open to it.
#[inline(never)]
fn paid_by(
    inst: &Instance,
    path: &SeenPath<'_>,
    site: usize,
    cust: usize,
    cost: Option<u64>,
    value: i128,
    q: u32,
    price: u64,
) -> i128
    requires site { site < length inst.now.sites }
    requires customer { cust < length inst.now.customers }
    requires seen { IsSeen inst.now path.now }
    requires whole { is_torn inst.now path.now.steps.now ≡ false }
    requires open { is_closed path.now.steps.now (site_at inst.now site) ≡ false }
    requires lane { cost ≡ lane inst.now (site_at inst.now site).id (customer_at inst.now cust).id }
    requires small { IsSmall cost }
    requires value { unsigned_abs value ≤ MAX_VALUE }
    requires q { q ≤ MAX_SCALE }
    requires price { price ≤ MAX_MULTIPLIER }
    ensures exact { result ≡ paid_above inst.now path.now.steps.now q price value site cust }
    ensures low { pos 0 ≤ℤ result }
    ensures high { result ≤ℤ pos MAX_VALUE }
{
    let Some(cost) = cost else {
        return 0;
    };
    let level = level(q, cost, price, inst.demand(cust));
    if value <= level || !path.leaves_lane(inst, site, cust) {
        return 0;
    }
    value - level
}

/// What a lane of this cost costs at the prices, its level: `q` times its cost, and the price of the
/// demand that it takes of the capacity.
#[inline(always)]
pub fn level(q: u32, cost: u64, price: u64, demand: u64) -> i128
    requires cost { cost ≤ MAX_AMOUNT }
    requires demand { demand ≤ MAX_AMOUNT }
    ensures { result ≡ pos (q * cost + price * demand) }
{
    times(u64::from(q), cost) + times(price, demand)
}

#[inline(always)]
pub(crate) fn times(factor: u64, amount: u64) -> i128
    requires { amount ≤ MAX_AMOUNT }
    ensures { result ≡ pos (factor * amount) }
{
    i128::from(factor) * i128::from(amount)
}

/// What the duals of all customers come to.
pub fn value_total<D: DualsByPlace>(inst: &Instance, duals: &D) -> i128
    requires fit { DualsFit inst.now (D.numbers duals.now) }
    requires valid { IsValid inst.now }
    ensures exact { result ≡ total (v_at (D.numbers duals.now)) (length inst.now.customers) }
    ensures small { unsigned_abs result ≤ MAX_CUSTOMERS * MAX_VALUE }
{
    let mut sum = 0;
    for cust in 0..inst.custs() {
        sum += duals.v(cust);
    }
    sum
}

/// What the price `nu` on the number of open sites comes to: paid for the greatest number, or for the
/// least where it is below 0.
pub fn count_price(inst: &Instance, nu: i128) -> i128
    requires valid { IsValid inst.now }
    requires nu { unsigned_abs nu ≤ MAX_VALUE }
    ensures exact { result ≡ count_price inst.now nu }
    ensures small { unsigned_abs result ≤ MAX_SITES * MAX_VALUE }
{
    let (lo, hi) = inst.count();
    if nu < 0 {
        nu * i128::from(lo)
    } else {
        nu * i128::from(hi)
    }
}

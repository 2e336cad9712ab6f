//! The slacks of all sites at once, by the lanes that the customers' duals pay.
ghost use Rattle.std.specs.Prelude.{◌≡◌, ◌+◌, ◌*◌, ◌<◌, ◌≤◌, All, IsSome, length, pos, ◌≤ℤ◌, unsigned_abs, slice_index_or};
ghost use Rattle.location_terms.specs.Instance.{IsValid, site_at, customer_at, lane};
ghost use Rattle.location_terms.specs.Bound.{bound_of, total};
ghost use Rattle.location_terms.specs.Fit.{DualsFit};
ghost use Rattle.location_terms.specs.declared.limits.TheConstants.{MAX_VALUE, MAX_SITES};
ghost use Rattle.lane_order.specs.Order.{IsOrderOf};
ghost use Rattle.dual_value.specs.Paid.{AreLeftBy, paid_over, share_with};
ghost use Rattle.dual_value.specs.Slacks.{AreSlacks};

use crate::bounds::{count_price, level, priced_cost, times, value_total};
use crate::{Duals, MAX_BOUND, MAX_SLACK, PreparedBox, SiteState};
use instance_store::Instance;
use lane_order::LaneOrder;

/// Fills in the slack of each site in the box, by place, as `slack` gives it. A customer's lanes are
/// walked from the cheapest on, up to the first that costs as much as its dual.
pub fn fill_slacks(boxed: &PreparedBox<'_>, order: &LaneOrder, duals: &Duals, slacks: &mut [i128])
    requires order { IsOrderOf order.now boxed.now.instance }
    requires fit { DualsFit boxed.now.instance duals.now }
    requires long { length slacks.old ≡ length boxed.now.instance.sites }
    ensures { AreSlacks boxed.now.instance boxed.now.path duals.now slacks.new }
{
    fill_costs(boxed, duals, slacks);
    for cust in 0..boxed.instance().custs() {
        take_payments(boxed, order, duals, cust, slacks);
    }
}

/// The bound of the box, from the slacks of its sites.
pub fn bound_from(boxed: &PreparedBox<'_>, duals: &Duals, slacks: &[i128]) -> i128
    requires fit { DualsFit boxed.now.instance duals.now }
    requires slacks { AreSlacks boxed.now.instance boxed.now.path duals.now slacks.now }
    ensures exact { result ≡ bound_of boxed.now.instance boxed.now.path duals.now }
    ensures small { unsigned_abs result ≤ MAX_BOUND }
{
    let inst = boxed.instance();
    let _valid = inst.sites();
    value_total(inst, duals) - count_price(inst, duals.nu()) + share_sum(boxed, slacks)
}

// What is left of the sites' costs before any customer pays.
fn fill_costs(boxed: &PreparedBox<'_>, duals: &Duals, slacks: &mut [i128])
    requires fit { DualsFit boxed.now.instance duals.now }
    requires long { length slacks.old ≡ length boxed.now.instance.sites }
    ensures { AreLeftBy boxed.now.instance boxed.now.path duals.now 0 slacks.new }
{
    let inst = boxed.instance();
    for site in 0..inst.sites() {
        slacks[site] = priced_cost(inst, duals, site);
    }
}

// Takes off the slacks what one more customer pays.
fn take_payments(
    boxed: &PreparedBox<'_>,
    order: &LaneOrder,
    duals: &Duals,
    cust: usize,
    slacks: &mut [i128],
)
    requires valid { IsValid boxed.now.instance }
    requires order { IsOrderOf order.now boxed.now.instance }
    requires fit { DualsFit boxed.now.instance duals.now }
    requires customer { cust < length boxed.now.instance.customers }
    requires slacks { AreLeftBy boxed.now.instance boxed.now.path duals.now cust slacks.old }
    ensures { AreLeftBy boxed.now.instance boxed.now.path duals.now (cust + 1) slacks.new }
{
    let q = duals.q();
    let value = duals.v(cust);
    let demand = boxed.instance().demand(cust);
    for lane in order.lanes(cust) {
        if value <= times(u64::from(q), lane.cost) {
            return;
        }
        let site = lane.site as usize;
        let level = level(q, lane.cost, duals.u(site), demand);
        slacks[site] -= paid_over(boxed, site, cust, demand, value, level);
    }
}

// What a customer of this dual pays above the level of its lane, where the box admits it.
#[inline(always)]
fn paid_over(
    boxed: &PreparedBox<'_>,
    site: usize,
    cust: usize,
    demand: u64,
    value: i128,
    level: i128,
) -> i128
    requires site { site < length boxed.now.instance.sites }
    requires customer { cust < length boxed.now.instance.customers }
    requires lane { IsSome (lane boxed.now.instance (site_at boxed.now.instance site).id (customer_at boxed.now.instance cust).id) }
    requires demand { demand ≡ (customer_at boxed.now.instance cust).demand }
    requires value { unsigned_abs value ≤ MAX_VALUE }
    requires level { pos 0 ≤ℤ level }
    ensures exact { result ≡ paid_over boxed.now.instance boxed.now.path (site_at boxed.now.instance site) (customer_at boxed.now.instance cust) value level }
    ensures small { unsigned_abs result ≤ MAX_VALUE }
{
    if value <= level || !boxed.admits(site, cust, demand) {
        return 0;
    }
    value - level
}

// What all sites add to the bound.
fn share_sum(boxed: &PreparedBox<'_>, slacks: &[i128]) -> i128
    requires long { length slacks.now ≡ length boxed.now.instance.sites }
    requires small { All (λ slack. unsigned_abs slack ≤ MAX_SLACK) slacks.now }
    requires few { length slacks.now ≤ MAX_SITES }
    ensures exact { result ≡ total (λ i. share_with boxed.now.path (site_at boxed.now.instance i) (slice_index_or slacks.now i (pos 0))) (length slacks.now) }
    ensures small { unsigned_abs result ≤ MAX_SITES * MAX_SLACK }
{
    let mut sum = 0;
    for site in 0..slacks.len() {
        sum += share_with(boxed, site, slacks[site]);
    }
    sum
}

fn share_with(boxed: &PreparedBox<'_>, site: usize, slack: i128) -> i128
    requires site { site < length boxed.now.instance.sites }
    requires small { unsigned_abs slack ≤ MAX_SLACK }
    ensures exact { result ≡ share_with boxed.now.path (site_at boxed.now.instance site) slack }
    ensures small { unsigned_abs result ≤ MAX_SLACK }
{
    match boxed.state(site) {
        SiteState::Closed => 0,
        SiteState::Opened => slack,
        SiteState::Free => slack.min(0),
    }
}

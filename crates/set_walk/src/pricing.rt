//! What it costs to open a set of sites, and to serve customers from it, in millionths.
ghost use Rattle.std.specs.Prelude.{◌≡◌, ℕ, ◌+◌, ◌*◌, ◌<◌, ◌≤◌, length, sum_by};
ghost use Rattle.location_terms.specs.Instance.{site_at, customer_at, fixed_of};
ghost use Rattle.location_terms.specs.Plain.{IsPlain};
ghost use Rattle.set_walk.specs.Set.{opened, lane_cost, least_cost, cost_on, IsNearest};

use crate::MAX_WALK_SITES;
use crate::site_set::SiteSet;
use instance_store::Instance;
use location_terms::MAX_AMOUNT;

/// A site from which it costs least to serve a customer, and what it costs.
#[derive(Clone, Copy, Debug)]
pub struct Nearest {
    pub site: usize,
    pub cost: u64,
}

/// What it costs to open the sites of the set.
pub fn opening_cost(inst: &Instance, set: SiteSet) -> u64
    requires few { length inst.now.sites ≤ MAX_WALK_SITES }
    ensures exact { result ≡ sum_by (fixed_of inst.now) (opened inst.now set.bits) }
    ensures small { result ≤ MAX_WALK_SITES * MAX_AMOUNT }
{
    let mut cost = 0;
    for place in 0..inst.sites() {
        if set.has(place) {
            cost += inst.fixed(place);
        }
    }
    cost
}

/// What it costs to serve the customer at a place from the site at a place.
pub fn serving_cost(inst: &Instance, site: usize, customer: usize) -> u64
    requires plain { IsPlain inst.now }
    requires site { site < length inst.now.sites }
    requires customer { customer < length inst.now.customers }
    ensures exact { result ≡ lane_cost inst.now (site_at inst.now site).id (customer_at inst.now customer).id }
    ensures small { result ≤ MAX_AMOUNT }
{
    inst.lane(site, customer).unwrap()
}

/// The first site of the set from which it costs least to serve the customer at a place.
pub fn nearest_site(inst: &Instance, set: SiteSet, customer: usize) -> Nearest
    requires plain { IsPlain inst.now }
    requires few { length inst.now.sites ≤ MAX_WALK_SITES }
    requires customer { customer < length inst.now.customers }
    requires some { 1 ≤ length (opened inst.now set.bits) }
    ensures site { result.site < length inst.now.sites }
    ensures nearest { IsNearest inst.now (opened inst.now set.bits) (customer_at inst.now customer).id (site_at inst.now result.site).id }
    ensures cost { result.cost ≡ least_cost inst.now (opened inst.now set.bits) (customer_at inst.now customer).id }
    ensures small { result.cost ≤ MAX_AMOUNT }
{
    let mut nearest = Nearest {
        site: 0,
        cost: MAX_AMOUNT + 1,
    };
    for site in 0..inst.sites() {
        if set.has(site) {
            let cost = serving_cost(inst, site, customer);
            if cost < nearest.cost {
                nearest = Nearest { site, cost };
            }
        }
    }
    nearest
}

/// What it costs to open the sites of the set and to serve each customer from the nearest of them.
pub fn set_cost(inst: &Instance, set: SiteSet) -> u64
    requires plain { IsPlain inst.now }
    requires few { length inst.now.sites ≤ MAX_WALK_SITES }
    requires some { 1 ≤ length (opened inst.now set.bits) }
    ensures { result ≡ cost_on inst.now (opened inst.now set.bits) }
{
    let mut cost = opening_cost(inst, set);
    for customer in 0..inst.custs() {
        cost += nearest_site(inst, set, customer).cost;
    }
    cost
}

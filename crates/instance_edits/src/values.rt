//! The edits that replace one value, and what takes each one back. None takes memory.
ghost use Rattle.std.specs.Prelude.{◌≡◌, ◌≤◌, ◌<◌, false, length};
ghost use Rattle.location_terms.specs.Instance.{IsValid, site_at, customer_at, fixed_of, demand_of, lane};
ghost use Rattle.instance_store.specs.Small.{IsSmall};
ghost use Rattle.instance_store.specs.Changes.{with_fixed, with_lane_cost, with_demand, with_cap, with_count, with_status};
ghost use Rattle.instance_edits.specs.declared.edit.Inverse.TheVariants.{FormerFixed, FormerLane, FormerDemand, FormerCap, FormerCount, FormerStatus};
ghost use Rattle.instance_edits.specs.Edits.{lacks_site, lacks_customer};
ghost use Rattle.instance_edits.specs.Undo.{site_named};

use crate::{CustId, Instance, Inverse, SiteId, SiteStatus};
use location_terms::{MAX_AMOUNT, MAX_SITES};

/// The place of a site that is there.
pub fn place_of_site(inst: &Instance, site: SiteId) -> usize
    requires { lacks_site inst.now site ≡ false }
    ensures within { result < length inst.now.sites }
    ensures id { (site_at inst.now result).id ≡ site }
{
    inst.site_at(site).unwrap()
}

/// The place of a customer who is there.
pub fn place_of_cust(inst: &Instance, cust: CustId) -> usize
    requires { lacks_customer inst.now cust ≡ false }
    ensures within { result < length inst.now.customers }
    ensures id { (customer_at inst.now result).id ≡ cust }
{
    inst.cust_at(cust).unwrap()
}

pub fn set_fixed(inst: &mut Instance, site: SiteId, cost: u64) -> Inverse
    requires valid { IsValid inst.old }
    requires known { lacks_site inst.old site ≡ false }
    requires small { cost ≤ MAX_AMOUNT }
    ensures changed { inst.new ≡ with_fixed inst.old site cost }
    ensures inverse { result ≡ FormerFixed site (fixed_of inst.old site) }
{
    let place = place_of_site(inst, site);
    let former = inst.fixed(place);
    inst.set_fixed(place, cost);
    Inverse::FormerFixed { site, cost: former }
}

pub fn set_lane(inst: &mut Instance, site: SiteId, cust: CustId, cost: Option<u64>) -> Inverse
    requires site { lacks_site inst.old site ≡ false }
    requires customer { lacks_customer inst.old cust ≡ false }
    requires small { IsSmall cost }
    ensures changed { inst.new ≡ with_lane_cost inst.old site cust cost }
    ensures inverse { result ≡ FormerLane site cust (lane inst.old site cust) }
{
    let from = place_of_site(inst, site);
    let to = place_of_cust(inst, cust);
    let former = inst.lane(from, to);
    inst.set_lane(from, to, cost);
    Inverse::FormerLane {
        site,
        cust,
        cost: former,
    }
}

pub fn set_demand(inst: &mut Instance, cust: CustId, demand: u64) -> Inverse
    requires valid { IsValid inst.old }
    requires known { lacks_customer inst.old cust ≡ false }
    requires small { demand ≤ MAX_AMOUNT }
    ensures changed { inst.new ≡ with_demand inst.old cust demand }
    ensures inverse { result ≡ FormerDemand cust (demand_of inst.old cust) }
{
    let place = place_of_cust(inst, cust);
    let former = inst.demand(place);
    inst.set_demand(place, demand);
    Inverse::FormerDemand {
        cust,
        demand: former,
    }
}

pub fn set_cap(inst: &mut Instance, site: SiteId, cap: Option<u64>) -> Inverse
    requires valid { IsValid inst.old }
    requires known { lacks_site inst.old site ≡ false }
    requires small { IsSmall cap }
    ensures changed { inst.new ≡ with_cap inst.old site cap }
    ensures inverse { result ≡ FormerCap site (site_named inst.old site).cap }
{
    let place = place_of_site(inst, site);
    let former = inst.cap(place);
    inst.set_cap(place, cap);
    Inverse::FormerCap { site, cap: former }
}

pub fn set_count(inst: &mut Instance, lo: u32, hi: u32) -> Inverse
    requires order { lo ≤ hi }
    requires small { hi ≤ MAX_SITES }
    ensures changed { inst.new ≡ with_count inst.old lo hi }
    ensures inverse { result ≡ FormerCount inst.old.lo inst.old.hi }
{
    let former = inst.count();
    inst.set_count(lo, hi);
    Inverse::FormerCount {
        lo: former.0,
        hi: former.1,
    }
}

pub fn set_status(inst: &mut Instance, site: SiteId, status: SiteStatus) -> Inverse
    requires valid { IsValid inst.old }
    requires known { lacks_site inst.old site ≡ false }
    ensures changed { inst.new ≡ with_status inst.old site status }
    ensures inverse { result ≡ FormerStatus site (site_named inst.old site).status }
{
    let place = place_of_site(inst, site);
    let former = inst.status(place);
    inst.set_status(place, status);
    Inverse::FormerStatus {
        site,
        status: former,
    }
}

//! A cost below which no plan's radius is, found without a search.
ghost use Rattle.std.specs.Prelude.{◌≡◌, ℕ, ◌<◌, ◌≤◌, IfSome, length};
ghost use Rattle.location_terms.specs.Instance.{customer_at, lane, site_at};
ghost use Rattle.center_solve.specs.Reach.{IsReach};

use instance_store::Instance;

/// A customer, by place, to whom no lane costs less than this, in millionths.
#[derive(Clone, Copy)]
pub(crate) struct Reach {
    pub(crate) cost: u64,
    pub(crate) cust: usize,
}

/// The customer whose cheapest lane costs the most.
pub(crate) fn farthest(inst: &Instance) -> Reach
    ensures { IsReach inst.now result }
{
    let mut reach = at_nothing(inst);
    for cust in 0..inst.custs() {
        reach = farther(inst, reach, cust);
    }
    reach
}

/// The first customer, to whom no lane costs less than nothing.
pub(crate) fn at_nothing(inst: &Instance) -> Reach
    ensures reach { IsReach inst.now result }
    ensures nothing { result.cost ≡ 0 }
{
    // An instance is valid, so that there is a first customer.
    let _custs = inst.custs();
    Reach { cost: 0, cust: 0 }
}

// The farther one of two customers.
fn farther(inst: &Instance, reach: Reach, cust: usize) -> Reach
    requires reach { IsReach inst.now reach }
    requires customer { cust < length inst.now.customers }
    ensures { IsReach inst.now result }
{
    let cost = cheapest_lane(inst, cust);
    if cost > reach.cost {
        Reach { cost, cust }
    } else {
        reach
    }
}

// What the cheapest lane to the customer at a place costs, and more than any where there is none.
fn cheapest_lane(inst: &Instance, cust: usize) -> u64
    requires { cust < length inst.now.customers }
    ensures { (i : ℕ) → i < length inst.now.sites →
        IfSome (lane inst.now (site_at inst.now i).id (customer_at inst.now cust).id) (λ cost. result ≤ cost) }
{
    let mut cheapest = u64::MAX;
    for site in 0..inst.sites() {
        cheapest = cheaper(cheapest, inst.lane(site, cust));
    }
    cheapest
}

// The lesser of a cost and that of a lane, where there is one.
fn cheaper(cost: u64, lane: Option<u64>) -> u64
    ensures less { result ≤ cost }
    ensures lane { IfSome lane (λ other. result ≤ other) }
{
    match lane {
        Some(other) => cost.min(other),
        None => cost,
    }
}

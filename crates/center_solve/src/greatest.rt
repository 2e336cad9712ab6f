//! The greatest cost of a lane.
ghost use Rattle.std.specs.Prelude.{ℕ, ◌<◌, ◌≤◌, IfSome, length};
ghost use Rattle.location_terms.specs.Instance.{site_at, customer_at, lane};
ghost use Rattle.location_terms.specs.declared.limits.TheConstants.{MAX_AMOUNT};
ghost use Rattle.center_solve.specs.Center.{IsJustAboveLanes};

use instance_store::Instance;

/// A cost above that of every lane, in millionths: one above the greatest.
pub(crate) fn above_lanes(inst: &Instance) -> u64
    ensures { IsJustAboveLanes inst.now result }
{
    // An instance is valid, so that each lane is between a site and a customer of it.
    let _sites = inst.sites();
    greatest_lane(inst) + 1
}

// The greatest cost of a lane, 0 where there is none.
fn greatest_lane(inst: &Instance) -> u64
    ensures greatest { (i j : ℕ) → i < length inst.now.sites → j < length inst.now.customers →
        IfSome (lane inst.now (site_at inst.now i).id (customer_at inst.now j).id) (λ cost. cost ≤ result) }
    ensures least { (r : ℕ) → ((i j : ℕ) → i < length inst.now.sites → j < length inst.now.customers →
        IfSome (lane inst.now (site_at inst.now i).id (customer_at inst.now j).id) (λ cost. cost ≤ r)) → result ≤ r }
    ensures small { result ≤ MAX_AMOUNT }
{
    let mut greatest = 0;
    for site in 0..inst.sites() {
        greatest = greatest_from(inst, site, greatest);
    }
    greatest
}

// The greatest of this cost and those of the lanes from the site at a place.
fn greatest_from(inst: &Instance, site: usize, at_least: u64) -> u64
    requires site { site < length inst.now.sites }
    requires small { at_least ≤ MAX_AMOUNT }
    ensures more { at_least ≤ result }
    ensures greatest { (j : ℕ) → j < length inst.now.customers →
        IfSome (lane inst.now (site_at inst.now site).id (customer_at inst.now j).id) (λ cost. cost ≤ result) }
    ensures least { (r : ℕ) → at_least ≤ r → ((j : ℕ) → j < length inst.now.customers →
        IfSome (lane inst.now (site_at inst.now site).id (customer_at inst.now j).id) (λ cost. cost ≤ r)) → result ≤ r }
    ensures small { result ≤ MAX_AMOUNT }
{
    let mut greatest = at_least;
    for cust in 0..inst.custs() {
        greatest = greater(greatest, inst.lane(site, cust));
    }
    greatest
}

// The greater of a cost and that of a lane, where there is one.
fn greater(cost: u64, lane: Option<u64>) -> u64
    requires cost { cost ≤ MAX_AMOUNT }
    requires lane { IfSome lane (λ cost. cost ≤ MAX_AMOUNT) }
    ensures more { cost ≤ result }
    ensures lane { IfSome lane (λ cost. cost ≤ result) }
    ensures least { (r : ℕ) → cost ≤ r → IfSome lane (λ cost. cost ≤ r) → result ≤ r }
    ensures small { result ≤ MAX_AMOUNT }
{
    match lane {
        Some(other) => cost.max(other),
        None => cost,
    }
}

//! Whether duals are within the limits in which the sums of the suite fit their types.
ghost use Rattle.std.specs.Prelude.{◌≡◌, ◌≤◌, ◌<◌, ◌↔◌, ◌⊎◌, ◌*◌, ℕ, All, None, IsTrue, IfErr, OnOk, length};
ghost use Rattle.std.specs.Int.RustNames.{unsigned_abs};
ghost use Rattle.location_terms.specs.Instance.{IsValid, site_at, customer_at};
ghost use Rattle.location_terms.specs.Bound.{u_at};
ghost use Rattle.location_terms.specs.Fit.{DualsFit, AreTame};
ghost use Rattle.location_terms.specs.declared.limits.TheConstants.{MAX_AMOUNT, MAX_MULTIPLIER, MAX_VALUE, MAX_TAME};
ghost use Rattle.dual_value.specs.RangeFault.{IsFirstRangeFault, ValuesFit, MultipliersFit, IsUnpriced};

use crate::Duals;
use instance_store::Instance;
use location_terms::{MAX_MULTIPLIER, MAX_SCALE, MAX_TAME, MAX_VALUE};
use thiserror::Error;

/// Why duals are not within their limits: the first of these that is the case, in this order.
#[derive(Clone, Copy, Debug, PartialEq, Eq, Error)]
pub enum RangeFault {
    /// The scale is above `MAX_SCALE`.
    #[error("the scale is above its limit")]
    Scale,
    /// The dual of a customer or the price on the number of sites is above `MAX_VALUE` in size.
    #[error("a dual is above its limit")]
    Value,
    /// The price of a capacity is above `MAX_MULTIPLIER`.
    #[error("the price of a capacity is above its limit")]
    Multiplier,
    /// A site without capacity has a price of its capacity.
    #[error("a site without capacity has a price of its capacity")]
    NoCapacity,
}

/// Whether the duals are within their limits, and the first fault where they are not.
pub fn fits(duals: &Duals, inst: &Instance) -> Result<(), RangeFault>
    requires customers { length duals.now.v ≡ length inst.now.customers }
    requires sites { length duals.now.u ≡ length inst.now.sites }
    ensures fit { OnOk result (DualsFit inst.now duals.now) }
    ensures fault { IfErr result (λ fault. IsFirstRangeFault inst.now duals.now fault) }
{
    if duals.q() > MAX_SCALE {
        return Err(RangeFault::Scale);
    }
    if !values_fit(duals) {
        return Err(RangeFault::Value);
    }
    if !multipliers_fit(duals) {
        return Err(RangeFault::Multiplier);
    }
    if !is_unpriced(duals, inst) {
        return Err(RangeFault::NoCapacity);
    }
    Ok(())
}

fn values_fit(duals: &Duals) -> bool
    ensures { IsTrue result ↔ ValuesFit duals.now }
{
    is_value(&duals.nu()) && duals.values().iter().all(is_value)
}

fn is_value(value: &i128) -> bool
    ensures { IsTrue result ↔ (unsigned_abs value.now ≤ MAX_VALUE) }
{
    value.unsigned_abs() <= MAX_VALUE
}

fn multipliers_fit(duals: &Duals) -> bool
    ensures { IsTrue result ↔ MultipliersFit duals.now }
{
    duals.prices().iter().all(|price| *price <= MAX_MULTIPLIER)
}

fn is_unpriced(duals: &Duals, inst: &Instance) -> bool
    requires { length duals.now.u ≡ length inst.now.sites }
    ensures { IsTrue result ↔ IsUnpriced inst.now duals.now }
{
    for site in 0..duals.sites() {
        if duals.u(site) != 0 && inst.cap(site).is_none() {
            return false;
        }
    }
    true
}

/// Whether the duals are tame: within their limits, at a scale of at least 1, and with prices of the
/// number of sites and of each demand at most `MAX_TAME`, so that an ascent from them stays within
/// the limits.
pub fn tame(duals: &Duals, inst: &Instance) -> bool
    requires customers { length duals.now.v ≡ length inst.now.customers }
    requires sites { length duals.now.u ≡ length inst.now.sites }
    ensures { IsTrue result ↔ AreTame inst.now duals.now }
{
    fits(duals, inst).is_ok()
        && duals.q() >= 1
        && duals.nu().unsigned_abs() <= MAX_TAME
        && demands_are_tame(duals, inst)
}

// The greatest demand decides at each price.
fn demands_are_tame(duals: &Duals, inst: &Instance) -> bool
    ensures { IsTrue result ↔ All (λ u. All (λ c. u * c.demand ≤ MAX_TAME) inst.now.customers) duals.now.u }
{
    let demand = greatest_demand(inst);
    duals.prices().iter().all(|price| is_tame(*price, demand))
}

fn is_tame(price: u64, demand: u64) -> bool
    requires { demand ≤ MAX_AMOUNT }
    ensures { IsTrue result ↔ (price * demand ≤ MAX_TAME) }
{
    u128::from(price) * u128::from(demand) <= MAX_TAME
}

fn greatest_demand(inst: &Instance) -> u64
    ensures bound { All (λ c. c.demand ≤ result) inst.now.customers }
    ensures reached { (result ≡ 0) ⊎ ((j : ℕ) × (j < length inst.now.customers) × ((customer_at inst.now j).demand ≡ result)) }
    ensures small { result ≤ MAX_AMOUNT }
{
    let mut greatest = 0;
    for cust in 0..inst.custs() {
        let demand = inst.demand(cust);
        if demand > greatest {
            greatest = demand;
        }
    }
    greatest
}

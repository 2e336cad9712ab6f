//! Whether whole knapsacks are small in an instance.
ghost use Rattle.std.specs.Prelude.{◌≡◌, ◌≤◌};
ghost use Rattle.std.specs.Int.{IsGcd};
ghost use Rattle.std.specs.List.{list_all};
ghost use Rattle.location_terms.specs.Instance.{Instance};
ghost use Rattle.location_terms.specs.Knapsack.{whole_demand, demand_unit, holds_few_units, has_small_knapsacks};

use instance_store::Instance;
use location_terms::MAX_UNITS;

/// Whether each capacity holds at most `MAX_UNITS` units of demand, where the unit is the greatest common
/// divisor of all demands, and no more than all of them counts; where nobody demands anything it is so.
pub fn has_small_knapsacks(inst: &Instance) -> bool
    ensures { result ≡ has_small_knapsacks inst.now }
{
    let whole = whole_demand(inst);
    if whole == 0 {
        return true;
    }
    hold_few_units(inst, whole, demand_unit(inst))
}

fn whole_demand(inst: &Instance) -> u64
    ensures { result ≡ whole_demand inst.now }
{
    let mut sum = 0;
    for cust in 0..inst.custs() {
        sum += inst.demand(cust);
    }
    sum
}

fn demand_unit(inst: &Instance) -> u64
    requires { 1 ≤ whole_demand inst.now }
    ensures exact { result ≡ demand_unit inst.now }
    ensures positive { 1 ≤ result }
{
    let mut unit = 0;
    for cust in 0..inst.custs() {
        unit = common_divisor(unit, inst.demand(cust));
    }
    unit
}

// The greatest common divisor, by Euclid.
fn common_divisor(a: u64, b: u64) -> u64
    ensures { IsGcd a b result }
{
    let mut divisor = a;
    let mut rest = b;
    while rest != 0 {
        (divisor, rest) = (rest, divisor % rest);
    }
    divisor
}

fn hold_few_units(inst: &Instance, whole: u64, unit: u64) -> bool
    requires whole { whole ≡ whole_demand inst.now }
    requires unit { unit ≡ demand_unit inst.now }
    requires positive { 1 ≤ unit }
    ensures { result ≡ list_all (λ s. holds_few_units inst.now s.cap) inst.now.sites }
{
    for site in 0..inst.sites() {
        if !holds_few_units(inst.cap(site), whole, unit) {
            return false;
        }
    }
    true
}

fn holds_few_units(cap: Option<u64>, whole: u64, unit: u64) -> bool
    requires { 1 ≤ unit }
    ensures { (inst : Instance) → whole ≡ whole_demand inst → unit ≡ demand_unit inst → result ≡ holds_few_units inst cap }
{
    match cap {
        None => true,
        Some(cap) => cap.min(whole) / unit <= MAX_UNITS,
    }
}

//! The duals of a leaf, for an instance that was edited.
ghost use Rattle.std.specs.Prelude.{◌≡◌, IfOk, map, is_some, length, pos, if◌then◌else◌};
ghost use Rattle.location_terms.specs.Knapsack.{has_small_knapsacks};
ghost use Rattle.location_terms.specs.Leaf.{PricesSuit};
ghost use Rattle.leaf_repair.specs.Placed.{at_place, prices_at, placed_duals};

use crate::places::Places;
use dual_value::Duals;
use instance_store::{Instance, NoMemory};
use location_terms::LeafForm;
use std::alloc::Global;

// The duals of a leaf, read by the places at which sites and customers stood, in the form that they can have on the instance.
pub(crate) fn placed_duals(
    alloc: Global,
    inst: &Instance,
    is_small: bool,
    places: &Places,
    duals: &Duals,
) -> Result<Duals, NoMemory>
    requires small { is_small ≡ has_small_knapsacks inst.now }
    requires sites { length places.now.sites.items ≡ length inst.now.sites }
    requires prices { PricesSuit duals.now.form duals.now.u }
    ensures { IfOk result (λ d. d ≡ placed_duals inst.now places.now.sites.items places.now.customers.items duals.now) }
{
    let values = values_at(alloc, &places.customers, duals.values())?;
    if duals.form() == LeafForm::Whole && is_small {
        let placed = Duals::whole(alloc, inst, duals.q(), duals.nu(), values)?;
        return Ok(placed);
    }
    let prices = prices_at(alloc, inst, &places.sites, duals.prices())?;
    Ok(Duals::from_lists(duals.q(), duals.nu(), values, prices))
}

fn values_at(
    alloc: Global,
    places: &[Option<usize>],
    values: &[i128],
) -> Result<Vec<i128>, NoMemory>
    ensures { IfOk result (λ v. v.items ≡ map (at_place values.now (pos 0)) places.now) }
{
    let mut carried = Vec::with_capacity(alloc, places.len())?;
    for cust in 0..places.len() {
        carried.push(value_at(values, places[cust]))?;
    }
    Ok(carried)
}

fn value_at(values: &[i128], place: Option<usize>) -> i128
    ensures { result ≡ at_place values.now (pos 0) place }
{
    match place {
        Some(at) => values.get(at).copied().unwrap_or(0),
        None => 0,
    }
}

// No price where the site has no capacity.
fn prices_at(
    alloc: Global,
    inst: &Instance,
    places: &[Option<usize>],
    prices: &[u64],
) -> Result<Vec<u64>, NoMemory>
    requires { length places.now ≡ length inst.now.sites }
    ensures { IfOk result (λ v. v.items ≡ prices_at inst.now places.now prices.now) }
{
    let mut carried = Vec::with_capacity(alloc, inst.sites())?;
    for site in 0..inst.sites() {
        carried.push(price_at(prices, inst.cap(site), places[site]))?;
    }
    Ok(carried)
}

fn price_at(prices: &[u64], cap: Option<u64>, place: Option<usize>) -> u64
    ensures { result ≡ (if is_some cap then at_place prices.now 0 place else 0) }
{
    match (cap, place) {
        (Some(_), Some(at)) => prices.get(at).copied().unwrap_or(0),
        _ => 0,
    }
}

//! Bounds of leaves, by prices and by whole knapsacks.
ghost use Rattle.std.specs.Prelude.{◌≡◌, IsTrue};
ghost use Rattle.instance_store.specs.Small.{IsSmall};
ghost use Rattle.location_terms.specs.Leaf.{LeafFits};

use dual_value::{Duals, Path};
use example_instances::{customer, site, warehouses};
use instance_store::{Instance, LaneRow, NoMemory};
use leaf_bounds::{LeafBounds, has_small_knapsacks};
use std::alloc::Global;
use std::test::Fail;

// Each customer of the two warehouses pays 5 units; neither of them holds both.
fn whole(alloc: Global, inst: &Instance) -> Result<Duals, NoMemory> {
    let values = Vec::from_slice(alloc, &[5_000_000, 5_000_000])?;
    Duals::whole(alloc, inst, 1, 0, values)
}

fn by_prices(alloc: Global) -> Result<Duals, NoMemory> {
    let values = Vec::from_slice(alloc, &[5_000_000, 5_000_000])?;
    let prices = Vec::from_slice(alloc, &[0, 0])?;
    Ok(Duals::from_lists(1, 0, values, prices))
}

fn fit(bounds: &LeafBounds<'_>, inst: &Instance, duals: &Duals) -> bool
    requires { bounds.now ≡ inst.now }
    ensures { IsTrue result → LeafFits inst.now duals.now }
{
    duals.customers() == inst.custs() && duals.sites() == inst.sites() && bounds.fits(duals).is_ok()
}

// Whether the leaf of the root has this bound, and closes against that much and no more.
fn has_bound(alloc: Global, inst: &Instance, duals: &Duals, expected: u32) -> bool {
    let mut bounds = LeafBounds::of(alloc, inst);
    if !fit(&bounds, inst, duals) {
        return false;
    }
    let root = Path::root(alloc);
    let target = u64::from(expected);
    bounds.bound(&root, duals) == Ok(i128::from(expected))
        && bounds.closes(&root, duals, Some(target)) == Ok(true)
        && bounds.closes(&root, duals, Some(target + 1)) == Ok(false)
}

// The second site collects 3.75 units of the first customer, or 4.75 of both.
fn have_bounds(alloc: Global, inst: &Instance) -> Result<bool, NoMemory> {
    let whole = whole(alloc, inst)?;
    let by_prices = by_prices(alloc)?;
    Ok(has_bound(alloc, inst, &whole, 6_750_000) && has_bound(alloc, inst, &by_prices, 5_750_000))
}

#[test]
fn takes_whole_customers(rt: HostRuntime) -> Result<(), Fail> {
    let inst = warehouses(rt.alloc())?;
    assert!(rt; have_bounds(rt.alloc(), &inst)?);
    Ok(())
}

// A site of this capacity, and customers of these two demands.
fn pair(alloc: Global, cap: Option<u64>, first: u32, second: u32) -> Result<Instance, NoMemory>
    requires { IsSmall cap }
{
    let lanes = LaneRow::from_slice(alloc, &[Some(1), Some(1)])?;
    let sites = vec![in alloc; site(1, 1, cap, lanes)]?;
    let custs = vec![in alloc;
        customer(1, u64::from(first)),
        customer(2, u64::from(second)),
    ]?;
    Instance::from_parts(alloc, 0, 1, 2, 3, custs, sites)
}

fn is_small(alloc: Global, cap: Option<u64>, first: u32, second: u32) -> Option<bool>
    requires { IsSmall cap }
{
    match pair(alloc, cap, first, second) {
        Ok(inst) => Some(has_small_knapsacks(&inst)),
        Err(_) => None,
    }
}

#[test]
fn counts_in_units(rt: HostRuntime) {
    let alloc = rt.alloc();
    assert!(rt; is_small(alloc, Some(2_000_001), 2, 2_000_000) == Some(true));
    assert!(rt; is_small(alloc, Some(2_000_002), 2, 2_000_000) == Some(false));
    assert!(rt; is_small(alloc, Some(9_000_000), 1, 999_999) == Some(true));
    assert!(rt; is_small(alloc, None, 1, 2_000_000) == Some(true));
    assert!(rt; is_small(alloc, Some(9_000_000), 0, 0) == Some(true));
}

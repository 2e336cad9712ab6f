ghost use Rattle.std.specs.Prelude.{◌≤◌};
ghost use Rattle.location_terms.specs.Fit.{DualsFit};
ghost use Rattle.location_terms.specs.declared.limits.TheConstants.{MAX_AMOUNT};

use super::*;
use crate::tests::{Prices, closed, duals_of, fit, no, opened, path, single, yes};
use example_instances::{two_sites, warehouses};
use instance_store::{Instance, NoMemory};
use lane_order::LaneOrder;
use std::alloc::Global;
use std::test::Fail;

fn has_slacks(inst: &Instance, path: &Path, duals: &Duals, slacks: &[i128]) -> bool
    requires { DualsFit inst.now duals.now }
{
    if slacks.len() != inst.sites() {
        return false;
    }
    for site in 0..inst.sites() {
        if slack(inst, path, duals, site) != slacks[site] {
            return false;
        }
    }
    true
}

// Whether a walk over sorted lanes leaves these slacks, and gives this bound.
fn is_bounded_by_lanes(
    alloc: Global,
    inst: &Instance,
    path: &Path,
    duals: &Duals,
    slacks: &[i128],
    expected: i128,
) -> Result<bool, NoMemory>
    requires { DualsFit inst.now duals.now }
{
    let order = LaneOrder::of(alloc, inst)?;
    let boxed = PreparedBox::of(alloc, inst, path)?;
    let mut found = vec![in alloc; 0; inst.sites()]?;
    fill_slacks(&boxed, &order, duals, &mut found);
    Ok(found.as_slice() == slacks && bound_from(&boxed, duals, &found) == expected)
}

// Whether the box leaves the sites these slacks, in their order, and has this bound, over the rows and
// over sorted lanes.
fn is_bounded(
    alloc: Global,
    inst: &Instance,
    path: &Path,
    prices: Prices<'_>,
    slacks: &[i128],
    expected: i128,
) -> bool {
    let Ok(duals) = duals_of(alloc, prices) else {
        return false;
    };
    fit(inst, &duals)
        && has_slacks(inst, path, &duals, slacks)
        && bound(inst, path, &duals) == expected
        && is_bounded_by_lanes(alloc, inst, path, &duals, slacks, expected) == Ok(true)
}

// The same of the box of these steps, at scale 1.
fn is_bounded_behind(
    alloc: Global,
    inst: &Instance,
    steps: &[Decision],
    v: &[i128],
    slacks: &[i128],
    expected: i128,
) -> bool {
    let prices = Prices {
        q: 1,
        nu: 0,
        v,
        u: &[0, 0],
    };
    match path(alloc, steps) {
        Ok(path) => is_bounded(alloc, inst, &path, prices, slacks, expected),
        Err(_) => false,
    }
}

const TIGHT: &[i128] = &[11_000_000, 2_000_000, 9_000_000];

// The first site's slack is 10 - 10, and the second's is 12 - (3 + 8). A step on the lane to the first
// customer takes its 10 from the first site's payments.
fn bounds_boxes(alloc: Global, inst: &Instance) -> bool {
    is_bounded_behind(alloc, inst, &[], TIGHT, &[0, 1_000_000], 22_000_000)
        && is_bounded_behind(
            alloc,
            inst,
            &[opened(2)],
            TIGHT,
            &[0, 1_000_000],
            23_000_000,
        )
        && is_bounded_behind(
            alloc,
            inst,
            &[no(1, 1)],
            TIGHT,
            &[10_000_000, 1_000_000],
            22_000_000,
        )
        && is_bounded_behind(
            alloc,
            inst,
            &[yes(2, 1)],
            TIGHT,
            &[10_000_000, 1_000_000],
            23_000_000,
        )
        && is_bounded_behind(
            alloc,
            inst,
            &[closed(1)],
            &[13_000_000, 2_000_000, 9_000_000],
            &[10_000_000, -1_000_000],
            23_000_000,
        )
}

// No customer pays in a torn box, so that one millionth alone is a bound that no plan meets.
fn bounds_a_torn_box(alloc: Global, inst: &Instance) -> bool {
    let prices = Prices {
        q: 0,
        nu: 0,
        v: &[1, 0, 0],
        u: &[0, 0],
    };
    match path(alloc, &[opened(1), closed(1)]) {
        Ok(torn) => is_torn(inst, &torn) && is_bounded(alloc, inst, &torn, prices, &[0, 0], 1),
        Err(_) => false,
    }
}

fn prices_the_count(
    alloc: Global,
    inst: &Instance,
    nu: i128,
    slacks: &[i128],
    expected: i128,
) -> bool {
    let prices = Prices {
        q: 1,
        nu,
        v: TIGHT,
        u: &[0, 0],
    };
    is_bounded(alloc, inst, &Path::root(alloc), prices, slacks, expected)
}

// The count is 1 to 2: a refund of half a unit a site is paid once, and a charge twice.
fn prices_counts(alloc: Global) -> bool {
    let Ok(inst) = two_sites(alloc, 1, 2) else {
        return false;
    };
    prices_the_count(alloc, &inst, -500_000, &[-500_000, 500_000], 22_000_000)
        && prices_the_count(alloc, &inst, 500_000, &[500_000, 1_500_000], 21_000_000)
}

// Site 1 is priced at 3: its lanes cost 6,739,743,000,000 and 3,018,000,000, so that the customers
// pay 7,000,000 and 982,000,000 above them, and its capacity takes 30,000,000 off. At site 2, which
// is not priced, the second customer pays nothing.
fn prices_a_capacity(alloc: Global) -> bool {
    let Ok(inst) = warehouses(alloc) else {
        return false;
    };
    let prices = Prices {
        q: 1_000,
        nu: 0,
        v: &[6_739_750_000_000, 4_000_000_000],
        u: &[3, 0],
    };
    let slacks = [7_498_981_000_000, -6_738_000_000_000];
    let root = Path::root(alloc);
    is_bounded(alloc, &inst, &root, prices, &slacks, 5_750_000_000)
}

// A customer of 6 pays 2 at a site with room for it, and nothing at one without.
fn leaves_room(alloc: Global, cap: u64, slack: i128, expected: i128) -> bool
    requires { cap ≤ MAX_AMOUNT }
{
    let Ok(inst) = single(alloc, Some(cap), Some(5)) else {
        return false;
    };
    let prices = Prices {
        q: 1,
        nu: 0,
        v: &[7],
        u: &[0],
    };
    is_bounded(alloc, &inst, &Path::root(alloc), prices, &[slack], expected)
}

// Whether each of many bounds of one box is this one.
fn keeps_the_bound(
    alloc: Global,
    inst: &Instance,
    path: &Path,
    duals: &Duals,
    expected: i128,
) -> bool
    requires { DualsFit inst.now duals.now }
{
    let mut bounds = BoxBounds::of(alloc, inst);
    for _ in 0..40 {
        if bounds.bound(path, duals) != expected {
            return false;
        }
    }
    true
}

// Whether the bound by an order that is there is this one.
fn has_bound_by_order(
    alloc: Global,
    inst: &Instance,
    path: &Path,
    duals: &Duals,
    expected: i128,
) -> bool
    requires { DualsFit inst.now duals.now }
{
    match LaneOrder::of(alloc, inst) {
        Ok(order) => BoxBounds::by_order(alloc, inst, &order).bound(path, duals) == expected,
        Err(_) => false,
    }
}

fn bounds_again_and_again(alloc: Global, inst: &Instance) -> bool {
    let prices = Prices {
        q: 1,
        nu: 0,
        v: TIGHT,
        u: &[0, 0],
    };
    match (path(alloc, &[yes(2, 1)]), duals_of(alloc, prices)) {
        (Ok(path), Ok(duals)) => {
            fit(inst, &duals)
                && keeps_the_bound(alloc, inst, &path, &duals, 23_000_000)
                && has_bound_by_order(alloc, inst, &path, &duals, 23_000_000)
        }
        _ => false,
    }
}

#[test]
fn slacks_and_bounds(rt: HostRuntime) -> Result<(), Fail> {
    let alloc = rt.alloc();
    let inst = two_sites(alloc, 0, 3_000)?;
    assert!(rt; bounds_boxes(alloc, &inst));
    assert!(rt; bounds_a_torn_box(alloc, &inst));
    assert!(rt; bounds_again_and_again(alloc, &inst));
    assert!(rt; prices_counts(alloc));
    assert!(rt; prices_a_capacity(alloc));
    assert!(rt; leaves_room(alloc, 5_999_999, 1, 7));
    assert!(rt; leaves_room(alloc, 6_000_000, -1, 6));
    Ok(())
}

ghost use Rattle.std.specs.Prelude.{◌<◌, length};
ghost use Rattle.lane_order.specs.Order.{IsOrderOf};

use super::*;
use example_instances::{customer, site, two_sites};
use instance_store::LaneRow;
use std::alloc::Global;
use std::test::Fail;

// Three sites, two of which cost the first customer the same. The second one has a single lane.
fn tied(alloc: Global) -> Result<Instance, Fail> {
    let low = LaneRow::from_slice(alloc, &[Some(7), None])?;
    let middle = LaneRow::from_slice(alloc, &[Some(2), Some(4)])?;
    let high = LaneRow::from_slice(alloc, &[Some(2), None])?;
    let sites = vec![in alloc;
        site(3, 0, None, low),
        site(5, 0, None, middle),
        site(9, 0, None, high),
    ]?;
    let custs = vec![in alloc; customer(2, 1), customer(4, 1)]?;
    Ok(Instance::from_parts(alloc, 0, 3, 10, 5, custs, sites)?)
}

fn in_numbers(lane: Option<(u64, SiteId)>) -> Option<(u64, u32)> {
    lane.map(|(cost, site)| (cost, site.number()))
}

// Whether these are the first lanes of the customer, and `None` comes after the last one.
fn has_lanes(order: &LaneOrder, cust: usize, want: [Option<(u64, u32)>; 4]) -> bool {
    cust < order.custs()
        && in_numbers(order.lane_at(cust, 0)) == want[0]
        && in_numbers(order.lane_at(cust, 1)) == want[1]
        && in_numbers(order.lane_at(cust, 2)) == want[2]
        && in_numbers(order.lane_at(cust, 3)) == want[3]
}

fn has_next(order: &LaneOrder, cust: usize, cost: u64, want: Option<(u64, u32)>) -> bool {
    cust < order.custs() && in_numbers(order.next_above(cust, cost)) == want
}

// Whether the lane of this rank goes from the site at this place.
fn has_place(order: &LaneOrder, cust: usize, rank: usize, cost: u64, site: u32) -> bool {
    cust < order.custs() && order.lanes(cust).get(rank) == Some(&PlacedLane { cost, site })
}

#[test]
fn orders_an_instance_with_all_lanes(rt: HostRuntime) -> Result<(), Fail> {
    let inst = two_sites(rt.alloc(), 0, 2)?;
    let order = LaneOrder::of(rt.alloc(), &inst)?;
    assert!(rt; order.custs() == 3);
    assert!(rt;
        has_lanes(
            &order,
            0,
            [Some((1_000_000, 1)), Some((8_000_000, 2)), None, None]
        )
    );
    assert!(rt;
        has_lanes(
            &order,
            1,
            [Some((2_000_000, 1)), Some((7_000_000, 2)), None, None]
        )
    );
    assert!(rt;
        has_lanes(
            &order,
            2,
            [Some((1_000_000, 2)), Some((9_000_000, 1)), None, None]
        )
    );
    assert!(rt; has_place(&order, 2, 0, 1_000_000, 1) && has_place(&order, 2, 1, 9_000_000, 0));
    Ok(())
}

#[test]
fn orders_ties_by_id(rt: HostRuntime) -> Result<(), Fail> {
    let inst = tied(rt.alloc())?;
    let order = LaneOrder::of(rt.alloc(), &inst)?;
    assert!(rt; has_lanes(&order, 0, [Some((2, 5)), Some((2, 9)), Some((7, 3)), None]));
    assert!(rt; has_lanes(&order, 1, [Some((4, 5)), None, None, None]));
    assert!(rt; has_place(&order, 0, 1, 2, 2));
    Ok(())
}

#[test]
fn finds_the_next_cost(rt: HostRuntime) -> Result<(), Fail> {
    let inst = tied(rt.alloc())?;
    let order = LaneOrder::of(rt.alloc(), &inst)?;
    assert!(rt; has_next(&order, 0, 0, Some((2, 5))) && has_next(&order, 0, 1, Some((2, 5))));
    assert!(rt; has_next(&order, 0, 2, Some((7, 3))) && has_next(&order, 0, 6, Some((7, 3))));
    assert!(rt; has_next(&order, 0, 7, None) && has_next(&order, 0, u64::MAX, None));
    assert!(rt; has_next(&order, 1, 3, Some((4, 5))) && has_next(&order, 1, 4, None));
    Ok(())
}

// Replaces a lane that the instance has.
fn replace(
    order: &mut LaneOrder,
    inst: &Instance,
    site: usize,
    cust: usize,
    cost: Option<u64>,
) -> Result<(), NoMemory>
    requires order { IsOrderOf order.old inst.now }
    requires site { site < length inst.now.sites }
    requires customer { cust < length inst.now.customers }
{
    // An instance is valid, so that it has few sites.
    let _sites = inst.sites();
    let old = inst.lane(site, cust);
    order.reserve(1)?;
    order.set_lane(cust, site as u32, old, cost);
    Ok(())
}

// The order of the instance with the lane to its first customer from the site at this place replaced.
fn with_lane(
    alloc: Global,
    inst: &Instance,
    site: usize,
    cost: Option<u64>,
) -> Result<LaneOrder, NoMemory> {
    let mut order = LaneOrder::of(alloc, inst)?;
    if site < inst.sites() && inst.custs() > 0 {
        replace(&mut order, inst, site, 0, cost)?;
    }
    Ok(order)
}

#[test]
fn replaces_lanes(rt: HostRuntime) -> Result<(), Fail> {
    let inst = tied(rt.alloc())?;
    let order = with_lane(rt.alloc(), &inst, 0, Some(1))?;
    assert!(rt; has_lanes(&order, 0, [Some((1, 3)), Some((2, 5)), Some((2, 9)), None]));
    let order = with_lane(rt.alloc(), &inst, 2, Some(7))?;
    assert!(rt; has_lanes(&order, 0, [Some((2, 5)), Some((7, 3)), Some((7, 9)), None]));
    let order = with_lane(rt.alloc(), &inst, 1, None)?;
    assert!(rt; has_lanes(&order, 0, [Some((2, 9)), Some((7, 3)), None, None]));
    assert!(rt; has_lanes(&order, 1, [Some((4, 5)), None, None, None]));
    Ok(())
}

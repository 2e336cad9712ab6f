ghost use Rattle.std.specs.Prelude.{◌≤◌};
ghost use Rattle.lane_order.specs.Order.{IsOrderOf};

use example_instances::{customer, site};
use instance_store::{Instance, LaneRow, NoMemory};
use lane_order::LaneOrder;
use plan_meaning::Plan;
use set_search::{Ordered, SetSearch};
use side_multipliers::Transport;
use std::alloc::Global;
use std::test::Fail;

// Three sites that hold so much each, a dear one and two cheap ones, and three customers with demands of 4, 3
// and 3 units, whom each site serves at the same cost.
fn trio(alloc: Global, cap: u64) -> Result<Instance, NoMemory>
    requires { cap ≤ 6_000_000 }
{
    let one = LaneRow::from_slice(alloc, &[Some(1_000_000), Some(1_000_000), Some(1_000_000)])?;
    let two = LaneRow::from_slice(alloc, &[Some(1_000_000), Some(1_000_000), Some(1_000_000)])?;
    let three = LaneRow::from_slice(alloc, &[Some(1_000_000), Some(1_000_000), Some(1_000_000)])?;
    let sites = vec![in alloc;
        site(1, 50_000_000, Some(cap), one),
        site(2, 1_000_000, Some(cap), two),
        site(3, 1_000_000, Some(cap), three),
    ]?;
    let custs = vec![in alloc;
        customer(1, 4_000_000),
        customer(2, 3_000_000),
        customer(3, 3_000_000),
    ]?;
    Instance::from_parts(alloc, 0, 3, 4, 4, custs, sites)
}

// What is found from these flags that costs less than so much, where the sites hold so much.
fn found(alloc: Global, cap: u64, open: &[bool], most: f64) -> Result<Option<Plan>, NoMemory>
    requires { cap ≤ 6_000_000 }
{
    let inst = trio(alloc, cap)?;
    let order = LaneOrder::of(alloc, &inst)?;
    found_by(alloc, &inst, &order, open, most)
}

fn found_by(
    alloc: Global,
    inst: &Instance,
    order: &LaneOrder,
    open: &[bool],
    most: f64,
) -> Result<Option<Plan>, NoMemory>
    requires { IsOrderOf order.now inst.now }
{
    let mut rooms = Transport::of(alloc, inst, order)?;
    let mut search = SetSearch::new(alloc);
    search.plan(&Ordered { alloc, inst, order }, &mut rooms, open, most)
}

// Whether that is a plan which opens the two cheap sites.
fn is_cheap(alloc: Global, open: &[bool], most: f64) -> bool {
    match found(alloc, 6_000_000, open, most) {
        Ok(Some(plan)) => {
            plan.site_count() == 2
                && plan.site(0).number() == 2
                && plan.site(1).number() == 3
                && plan.serve_count() == 3
        }
        _ => false,
    }
}

// Whether the search ends without a plan.
fn is_none(alloc: Global, cap: u64, most: f64) -> bool
    requires { cap ≤ 6_000_000 }
{
    matches!(found(alloc, cap, &[true, true, true], most), Ok(None))
}

// All cost 5 together: two sites and three lanes.
fn finds_cheap(alloc: Global) -> bool {
    is_cheap(alloc, &[true, false, false], 100_000_000.0)
        && is_cheap(alloc, &[false, true, true], 100_000_000.0)
        && is_cheap(alloc, &[true, true, true], 5_000_001.0)
}

#[test]
fn finds_the_cheap_sites(rt: HostRuntime) -> Result<(), Fail> {
    assert!(rt; finds_cheap(rt.alloc()));
    assert!(rt; is_none(rt.alloc(), 6_000_000, 5_000_000.0));
    // Three sites hold 9 units, which is too little.
    assert!(rt; is_none(rt.alloc(), 3_000_000, 100_000_000.0));
    Ok(())
}

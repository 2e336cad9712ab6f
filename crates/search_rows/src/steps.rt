use dual_steps::Steps;
use dual_value::{Decision, Path, PreparedBox};
use example_instances::{customer, site, two_sites};
use instance_store::{Instance, LaneRow, NoMemory, SiteId};
use lane_order::LaneOrder;
use std::alloc::Global;
use std::test::Fail;

// Four sites of which one is open: the first is the best for each of three customers.
fn four(alloc: Global) -> Result<Instance, NoMemory> {
    let first = LaneRow::from_slice(alloc, &[Some(1_000_000), Some(2_000_000), Some(3_000_000)])?;
    let second = LaneRow::from_slice(alloc, &[Some(6_000_000), Some(6_000_000), Some(6_000_000)])?;
    let third = LaneRow::from_slice(alloc, &[Some(7_000_000), Some(7_000_000), Some(7_000_000)])?;
    let last = LaneRow::from_slice(alloc, &[Some(8_000_000), Some(8_000_000), Some(8_000_000)])?;
    let sites = vec![in alloc;
        site(1, 0, None, first),
        site(2, 0, None, second),
        site(3, 0, None, third),
        site(4, 0, None, last),
    ]?;
    let custs = vec![in alloc; customer(1, 0), customer(2, 0), customer(3, 0)]?;
    Instance::from_parts(alloc, 1, 1, 5, 4, custs, sites)
}

// Whether smoothed steps reach the cost of the best plan from duals that pay most lanes.
fn rises_from_many(alloc: Global) -> Result<bool, NoMemory> {
    let inst = four(alloc)?;
    let order = LaneOrder::of(alloc, &inst)?;
    let mut steps = Steps::of(alloc, &inst, &order)?;
    steps.restart(0.5);
    steps.start_from(&order, &[9_000_000, 9_000_000, 2_000_000], 1);
    steps.volume(&order, 6000000.0, 200, 20);
    Ok(steps.progress().reaches(6000000.0))
}

// Whether no number is below this one.
fn are_at_least(values: &[i64], least: i64) -> bool {
    for value in values {
        if *value < least {
            return false;
        }
    }
    true
}

fn are_same(flags: &[bool], wanted: &[bool]) -> bool {
    flags.len() == wanted.len() && (0..wanted.len()).all(|i| flags[i] == wanted[i])
}

// Whether smoothed steps come near the cost in the box from zeros, steps to it reach it, and these sites
// are open then. The path is on sites of the instance.
fn rises(
    alloc: Global,
    inst: &Instance,
    path: &Path,
    cost: f64,
    open: &[bool],
) -> Result<bool, NoMemory> {
    let order = LaneOrder::of(alloc, inst)?;
    let boxed = PreparedBox::of(alloc, inst, path)?;
    let mut steps = Steps::of(alloc, inst, &order)?;
    steps.enter(&boxed);
    steps.restart(0.5);
    steps.start_from(&order, &[0, 0, 0], 1);
    steps.volume(&order, cost, 200, 20);
    let is_near = steps.progress().bound() > 0.95 * cost;
    steps.set_factor(steps.factor());
    steps.polyak(&order, cost, 100);
    steps.project(alloc, &order, cost, 10)?;
    steps.snap(&order, cost);
    steps.round(&order, 1);
    Ok(
        is_near
            && steps.progress().reaches(cost)
            && are_at_least(steps.values(), 1_000_000)
            && are_same(steps.progress().open(), open),
    )
}

// The same where the first site is open, and where it is closed.
fn rises_in_boxes(alloc: Global, inst: &Instance) -> Result<bool, NoMemory> {
    let root = Path::root(alloc);
    let mut closed = Path::root(alloc);
    closed.push(Decision::Closed(SiteId::new(1)))?;
    Ok(
        rises(alloc, inst, &root, 22000000.0, &[true, false])?
            && rises(alloc, inst, &closed, 28000000.0, &[false, true])?,
    )
}

#[test]
fn steps_reach_the_cost(rt: HostRuntime) -> Result<(), Fail> {
    let inst = two_sites(rt.alloc(), 0, 2)?;
    assert!(rt; rises_in_boxes(rt.alloc(), &inst)?);
    Ok(())
}

#[test]
fn steps_go_by_the_open_site(rt: HostRuntime) -> Result<(), Fail> {
    assert!(rt; rises_from_many(rt.alloc())?);
    Ok(())
}

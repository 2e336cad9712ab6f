ghost use Rattle.std.specs.Prelude.{IsTrue};
ghost use Rattle.location_terms.specs.Fit.{AreTame};

use dual_value::{Decision, Duals, Path, PreparedBox, bound, tame};
use example_instances::{customer, site, warehouses};
use instance_store::{Instance, LaneRow, NoMemory, SiteId};
use lane_order::LaneOrder;
use side_multipliers::{AT_ROOT, CapSteps, LanePlace, Transport, improve};
use std::alloc::Global;
use std::test::Fail;

// The warehouses where both customers are nearer to the cheap one.
fn near_pair(alloc: Global) -> Result<Instance, NoMemory> {
    let dear = LaneRow::from_slice(alloc, &[Some(6_739_725_000), Some(4_000_000)])?;
    let cheap = LaneRow::from_slice(alloc, &[Some(1_250_000), Some(3_000_000)])?;
    let sites = vec![in alloc;
        site(1, 7_500_000_000, Some(10_000_000), dear),
        site(2, 500_000, Some(10_000_000), cheap),
    ]?;
    let custs = vec![in alloc; customer(1, 6_000_000), customer(2, 6_000_000)]?;
    Instance::from_parts(alloc, 0, 2, 3, 3, custs, sites)
}

// Whether steps from zeros come near the bound of the relaxation: a fifth of the dear site is open.
fn rises(alloc: Global, inst: &Instance) -> Result<bool, NoMemory> {
    let order = LaneOrder::of(alloc, inst)?;
    let path = Path::root(alloc);
    let boxed = PreparedBox::of(alloc, inst, &path)?;
    let mut steps = CapSteps::of(alloc, inst, &order)?;
    steps.enter(&boxed, &order);
    steps.restart(AT_ROOT);
    steps.start_from(&[0, 0], 1);
    let cost = 7504750000.0;
    steps.volume(cost, 300);
    steps.round(1_000);
    let found = steps.progress();
    Ok(
        found.bound() > 2300000000.0
            && found.bound() < 2404000000.0
            && !found.reaches(cost)
            && found.open().len() == 2
            && found.shares().len() == 2
            && steps.values().len() == 2
            && steps.prices() != [0, 0].as_slice()
            && steps.count_price() == 0,
    )
}

// Whether prices make the bound greater than the ascent alone does, which knows no capacity: it comes to the
// cost of the cheap site with both customers.
fn improves(alloc: Global, inst: &Instance) -> Result<bool, NoMemory> {
    let order = LaneOrder::of(alloc, inst)?;
    let path = Path::root(alloc);
    let zeros = Duals::zeros(alloc, inst, 1_000)?;
    if !are_tame(inst, &zeros) {
        return Ok(false);
    }
    let duals = improve(alloc, inst, &order, &path, zeros, Some(7_504_750_000), 4)?;
    let found = bound(inst, &path, &duals);
    Ok(
        duals.prices() != [0, 0].as_slice()
            && found > 2_300_000_000_000
            && found < 2_404_000_000_000,
    )
}

// Whether steps may begin with these duals.
fn are_tame(inst: &Instance, duals: &Duals) -> bool
    ensures { IsTrue result → AreTame inst.now duals.now }
{
    duals.customers() == inst.custs() && duals.sites() == inst.sites() && tame(duals, inst)
}

// Whether steps in the box where both sites are open price the cheap one, where the second customer doesn't
// fit as a whole: a third of it comes from the dear one.
fn fills_rooms(alloc: Global, inst: &Instance) -> Result<bool, NoMemory> {
    let order = LaneOrder::of(alloc, inst)?;
    let mut path = Path::root(alloc);
    path.push(Decision::Opened(SiteId::new(1)))?;
    path.push(Decision::Opened(SiteId::new(2)))?;
    let boxed = PreparedBox::of(alloc, inst, &path)?;
    let mut rooms = Transport::of(alloc, inst, &order)?;
    rooms.enter(&boxed, &order);
    rooms.solve(7505750000.0);
    rooms.round(1_000);
    let split = rooms.split(7505750000.0);
    Ok(
        is_cost(rooms.bound())
            && rooms.prices().first() == Some(&0)
            && splits_second(split)
            && rooms.cost_below(7505000000.0).is_none()
            && is_below(rooms.cost_below(7505750000.0)),
    )
}

// What both sites cost with the customers' lanes, of the second one's a third from the dear site.
fn is_cost(bound: f64) -> bool {
    bound > 7505050000.0 && bound < 7505090000.0
}

fn is_below(cost: Option<f64>) -> bool {
    match cost {
        None => false,
        Some(cost) => is_cost(cost),
    }
}

// Whether nothing is left in the box where the dear site is closed: the cheap one is too small for both.
fn shows_empty(alloc: Global, inst: &Instance) -> Result<bool, NoMemory> {
    let order = LaneOrder::of(alloc, inst)?;
    let mut path = Path::root(alloc);
    path.push(Decision::Closed(SiteId::new(1)))?;
    path.push(Decision::Opened(SiteId::new(2)))?;
    let boxed = PreparedBox::of(alloc, inst, &path)?;
    let mut rooms = Transport::of(alloc, inst, &order)?;
    rooms.enter(&boxed, &order);
    rooms.solve(7505750000.0);
    rooms.name_suppliers();
    Ok(
        rooms.shows(1.0e15)
            && rooms.split(7505750000.0).is_none()
            && rooms.suppliers() == [1, 1].as_slice(),
    )
}

// Whether the split is on a lane of the second customer, which both sites serve.
fn splits_second(split: Option<LanePlace>) -> bool {
    match split {
        None => false,
        Some(lane) => lane.cust == 1,
    }
}

fn prices_rise(alloc: Global, inst: &Instance) -> Result<bool, NoMemory> {
    Ok(rises(alloc, inst)? && improves(alloc, inst)?)
}

#[test]
fn steps_price_capacities(rt: HostRuntime) -> Result<(), Fail> {
    let inst = warehouses(rt.alloc())?;
    assert!(rt; prices_rise(rt.alloc(), &inst)?);
    Ok(())
}

fn transports(alloc: Global, inst: &Instance) -> Result<bool, NoMemory> {
    Ok(fills_rooms(alloc, inst)? && shows_empty(alloc, inst)?)
}

#[test]
fn rooms_are_filled(rt: HostRuntime) -> Result<(), Fail> {
    let inst = near_pair(rt.alloc())?;
    assert!(rt; transports(rt.alloc(), &inst)?);
    Ok(())
}

ghost use Rattle.std.specs.Prelude.{IsTrue};
ghost use Rattle.location_terms.specs.Fit.{AreTame};
ghost use Rattle.lane_order.specs.Order.{IsOrderOf};
ghost use Rattle.dual_ascent.specs.Work.{IsWorkFor};

use dual_ascent::{Workspace, ascend, ascend_in, ascend_others};
use dual_value::{Duals, Path, PreparedBox, bound_from, tame};
use example_instances::{shared_customer, two_sites, warehouses};
use instance_store::{Instance, NoMemory, SiteId};
use lane_order::LaneOrder;
use location_terms::Decision;
use std::alloc::Global;
use std::test::Fail;

fn opened(site: u32) -> Decision {
    Decision::Opened(SiteId::new(site))
}

fn closed(site: u32) -> Decision {
    Decision::Closed(SiteId::new(site))
}

// Duals at scale 1, without a price of a site's count.
fn duals(alloc: Global, values: &[i128], prices: &[u64]) -> Result<Duals, NoMemory> {
    let values = Vec::from_slice(alloc, values)?;
    let prices = Vec::from_slice(alloc, prices)?;
    Ok(Duals::from_lists(1, 0, values, prices))
}

fn path(alloc: Global, steps: &[Decision]) -> Result<Path, NoMemory> {
    let mut path = Path::root(alloc);
    for step in steps {
        path.push(*step)?;
    }
    Ok(path)
}

// Whether an ascent may begin with these duals.
fn are_tame(inst: &Instance, duals: &Duals) -> bool
    ensures { IsTrue result → AreTame inst.now duals.now }
{
    duals.customers() == inst.custs() && duals.sites() == inst.sites() && tame(duals, inst)
}

// Whether the ascent in the box of the path, apart from the customer at place `apart` where there is one,
// leads to these duals.
fn leads_to(
    alloc: Global,
    inst: &Instance,
    order: &LaneOrder,
    path: &Path,
    start: Duals,
    apart: usize,
    values: &[i128],
) -> Result<bool, NoMemory>
    requires { IsOrderOf order.now inst.now }
{
    if !are_tame(inst, &start) {
        return Ok(false);
    }
    let duals = if apart < inst.custs() {
        ascend_others(alloc, inst, order, path, start, apart)?
    } else {
        ascend(alloc, inst, order, path, start)?
    };
    Ok(duals.values() == values)
}

// Whether that ascent leads from zeros to these duals.
fn leads_from_zeros_to(
    alloc: Global,
    inst: &Instance,
    order: &LaneOrder,
    steps: &[Decision],
    apart: usize,
    values: &[i128],
) -> Result<bool, NoMemory>
    requires { IsOrderOf order.now inst.now }
{
    let path = path(alloc, steps)?;
    leads_to(
        alloc,
        inst,
        order,
        &path,
        Duals::zeros(alloc, inst, 1)?,
        apart,
        values,
    )
}

// Whether the ascent over all customers leaves these duals, slacks and bound, and another one from there
// changes none.
fn leaves(
    boxed: &PreparedBox<'_>,
    order: &LaneOrder,
    mut work: Workspace,
    mut duals: Duals,
    values: &[i128],
    slacks: &[i128],
    bound: i128,
) -> bool
    requires order { IsOrderOf order.now boxed.now.instance }
    requires tame { AreTame boxed.now.instance duals }
    requires work { IsWorkFor boxed.now.instance work }
{
    ascend_in(boxed, order, &mut work, &mut duals);
    let same_bound = bound_from(boxed, &duals, work.slacks()) == bound;
    let same_values = duals.values() == values;
    ascend_in(boxed, order, &mut work, &mut duals);
    same_bound && same_values && duals.values() == values && work.slacks() == slacks
}

// Whether it does so without a decision.
fn leaves_at_root(
    alloc: Global,
    inst: &Instance,
    start: Duals,
    values: &[i128],
    slacks: &[i128],
    bound: i128,
) -> Result<bool, NoMemory> {
    if !are_tame(inst, &start) {
        return Ok(false);
    }
    let order = LaneOrder::of(alloc, inst)?;
    let root = Path::root(alloc);
    let boxed = PreparedBox::of(alloc, inst, &root)?;
    let work = Workspace::of(alloc, inst)?;
    Ok(leaves(&boxed, &order, work, start, values, slacks, bound))
}

// Two sites, at the root, there apart from the first customer, and in boxes.
fn ascends_in_boxes(alloc: Global, inst: &Instance, order: &LaneOrder) -> Result<bool, NoMemory>
    requires { IsOrderOf order.now inst.now }
{
    let root = [8_000_000, 5_000_000, 9_000_000];
    let apart = [0, 11_000_000, 9_000_000];
    let open = [8_000_000, 5_000_000, 1_000_000];
    let shut = [20_000_000, 7_000_000, 1_000_000];
    let torn = [closed(1), closed(2)];
    Ok(
        leads_from_zeros_to(alloc, inst, order, &[], 3, &root)?
            && leads_from_zeros_to(alloc, inst, order, &[], 0, &apart)?
            && leads_from_zeros_to(alloc, inst, order, &[opened(2)], 3, &open)?
            && leads_from_zeros_to(alloc, inst, order, &[closed(1)], 3, &shut)?
            && leads_from_zeros_to(alloc, inst, order, &torn, 3, &[0, 0, 0])?,
    )
}

// The same with the order of the instance.
fn ascends_over(alloc: Global, inst: &Instance) -> Result<bool, NoMemory> {
    let order = LaneOrder::of(alloc, inst)?;
    ascends_in_boxes(alloc, inst, &order)
}

#[test]
fn ascends(rt: HostRuntime) -> Result<(), Fail> {
    let inst = two_sites(rt.alloc(), 0, 2)?;
    assert!(rt; ascends_over(rt.alloc(), &inst)?);
    Ok(())
}

fn stops(alloc: Global, inst: &Instance) -> Result<bool, NoMemory> {
    let order = LaneOrder::of(alloc, inst)?;
    leads_from_zeros_to(alloc, inst, &order, &[], 3, &[2_000_000, 0, 0])
}

#[test]
fn stops_where_nothing_is_left(rt: HostRuntime) -> Result<(), Fail> {
    let inst = shared_customer(rt.alloc())?;
    assert!(rt; stops(rt.alloc(), &inst)?);
    Ok(())
}

// With a price of the dear warehouse's capacity.
fn pays(alloc: Global, inst: &Instance) -> Result<bool, NoMemory> {
    let start = duals(alloc, &[0, 0], &[1, 0])?;
    leaves_at_root(
        alloc,
        inst,
        start,
        &[1_750_000, 4_000_000],
        &[7_490_000_000, 0],
        5_750_000,
    )
}

#[test]
fn pays_for_capacities(rt: HostRuntime) -> Result<(), Fail> {
    let inst = warehouses(rt.alloc())?;
    assert!(rt; pays(rt.alloc(), &inst)?);
    Ok(())
}

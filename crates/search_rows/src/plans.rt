use dual_value::{Path, PreparedBox};
use example_instances::{customer, road, site, warehouses};
use instance_store::{CustId, Instance, LaneRow, NoMemory, SiteId, SiteStatus};
use lane_order::LaneOrder;
use location_terms::Decision;
use plan_meaning::Plan;
use plan_search::{
    LocalSearch, best_seen, has_no_caps, improved_set, is_path_of, opened_count, packed_in,
};
use std::alloc::Global;
use std::test::Fail;

// Three sites, the third without a capacity, and three customers with demands of 3, 3 and 2 units. It
// costs 1 to serve one from the first site, 2 from the second and 9 from the third, which doesn't
// reach the second customer.
fn shelves(alloc: Global) -> Result<Instance, NoMemory> {
    let near = LaneRow::from_slice(alloc, &[Some(1_000_000), Some(1_000_000), Some(1_000_000)])?;
    let mid = LaneRow::from_slice(alloc, &[Some(2_000_000), Some(2_000_000), Some(2_000_000)])?;
    let far = LaneRow::from_slice(alloc, &[Some(9_000_000), None, Some(9_000_000)])?;
    let sites = vec![in alloc;
        site(1, 1_000_000, Some(5_000_000), near),
        site(2, 1_000_000, Some(5_000_000), mid),
        site(3, 1_000_000, None, far),
    ]?;
    let custs = vec![in alloc;
        customer(1, 3_000_000),
        customer(2, 3_000_000),
        customer(3, 2_000_000),
    ]?;
    Instance::from_parts(alloc, 1, 2, 4, 4, custs, sites)
}

fn ids(alloc: Global, numbers: &[u32]) -> Result<Vec<SiteId>, NoMemory> {
    let mut ids = Vec::new(alloc);
    for number in numbers {
        ids.push(SiteId::new(*number))?;
    }
    Ok(ids)
}

fn path(alloc: Global, steps: &[Decision]) -> Result<Path, NoMemory> {
    let mut path = Path::root(alloc);
    for step in steps {
        path.push(*step)?;
    }
    Ok(path)
}

// Whether the plan opens just these sites and serves the customers from these, in order.
fn is_plan(plan: &Plan, sites: &[u32], from: &[u32]) -> bool {
    plan.site_count() == sites.len()
        && plan.serve_count() == from.len()
        && (0..sites.len()).all(|k| plan.site(k).number() == sites[k])
        && (0..from.len()).all(|k| plan.serve(k).1.number() == from[k])
}

// What is seen in the box of these steps for this hint, where the steps name sites and customers of
// the instance.
fn seen(
    alloc: Global,
    inst: &Instance,
    steps: &[Decision],
    hint: &[u32],
) -> Result<Option<Option<Plan>>, NoMemory> {
    let path = path(alloc, steps)?;
    if !is_path_of(inst, &path) {
        return Ok(None);
    }
    let hint = ids(alloc, hint)?;
    let order = LaneOrder::of(alloc, inst)?;
    let plan = best_seen(alloc, inst, &order, &path, &hint)?;
    Ok(Some(plan))
}

// Whether that is the plan that opens these sites and serves the customers from these, in order.
fn is_seen(
    alloc: Global,
    inst: &Instance,
    steps: &[Decision],
    hint: &[u32],
    sites: &[u32],
    from: &[u32],
) -> bool {
    match seen(alloc, inst, steps, hint) {
        Ok(Some(Some(plan))) => is_plan(&plan, sites, from),
        _ => false,
    }
}

// What is packed in the box of these steps for this hint, where the steps name sites and customers of the
// instance.
fn packed(
    alloc: Global,
    inst: &Instance,
    steps: &[Decision],
    hint: &[u32],
) -> Result<Option<Option<Plan>>, NoMemory> {
    let path = path(alloc, steps)?;
    if !is_path_of(inst, &path) {
        return Ok(None);
    }
    let hint = ids(alloc, hint)?;
    let order = LaneOrder::of(alloc, inst)?;
    let boxed = PreparedBox::of(alloc, inst, &path)?;
    let plan = packed_in(alloc, &boxed, &order, &hint)?;
    Ok(Some(plan))
}

// Whether so many sites are opened in the box of these steps, which name sites of the instance.
fn are_opened(alloc: Global, inst: &Instance, steps: &[Decision], count: usize) -> bool {
    match path(alloc, steps) {
        Err(_) => false,
        Ok(path) => match PreparedBox::of(alloc, inst, &path) {
            Err(_) => false,
            Ok(boxed) => opened_count(&boxed) == count,
        },
    }
}

fn is_packed(
    alloc: Global,
    inst: &Instance,
    steps: &[Decision],
    hint: &[u32],
    sites: &[u32],
    from: &[u32],
) -> bool {
    match packed(alloc, inst, steps, hint) {
        Ok(Some(Some(plan))) => is_plan(&plan, sites, from),
        _ => false,
    }
}

fn is_none_packed(alloc: Global, inst: &Instance, steps: &[Decision], hint: &[u32]) -> bool {
    match packed(alloc, inst, steps, hint) {
        Ok(Some(None)) => true,
        _ => false,
    }
}

// What is sought below the limit in the box of these steps from these flags, where the steps name sites and
// customers of the instance.
fn sought(
    alloc: Global,
    inst: &Instance,
    steps: &[Decision],
    flags: &[bool],
    limit: Option<u64>,
) -> Result<Option<Option<Plan>>, NoMemory> {
    let order = LaneOrder::of(alloc, inst)?;
    let path = path(alloc, steps)?;
    if !is_path_of(inst, &path) || flags.len() != inst.sites() {
        return Ok(None);
    }
    let boxed = PreparedBox::of(alloc, inst, &path)?;
    let mut work = LocalSearch::of(alloc, inst)?;
    let plan = improved_set(alloc, &boxed, &order, &mut work, flags, limit)?;
    Ok(Some(plan))
}

// Whether that is the plan that opens these sites and serves the customers from these, in order.
fn is_sought(
    alloc: Global,
    inst: &Instance,
    steps: &[Decision],
    flags: &[bool],
    sites: &[u32],
    from: &[u32],
) -> bool {
    match sought(alloc, inst, steps, flags, None) {
        Ok(Some(Some(plan))) => is_plan(&plan, sites, from),
        _ => false,
    }
}

fn is_none_below(alloc: Global, inst: &Instance, flags: &[bool], limit: u64) -> bool {
    match sought(alloc, inst, &[], flags, Some(limit)) {
        Ok(Some(None)) => true,
        _ => false,
    }
}

fn packs_shelves(alloc: Global, inst: &Instance) -> bool {
    is_packed(alloc, inst, &[], &[1, 2], &[1, 2], &[1, 2, 1])
        && is_packed(alloc, inst, &[], &[1, 2, 3], &[1, 2], &[1, 2, 1])
        && is_none_packed(alloc, inst, &[], &[])
        && is_none_packed(alloc, inst, &[], &[1, 3])
}

#[test]
fn packs_by_falling_demand(rt: HostRuntime) -> Result<(), Fail> {
    let inst = shelves(rt.alloc())?;
    assert!(rt; packs_shelves(rt.alloc(), &inst));
    Ok(())
}

fn packs_boxes(alloc: Global, inst: &Instance) -> bool {
    let other = SiteId::new(2);
    let no = [Decision::No(SiteId::new(1), CustId::new(1))];
    let yes = [Decision::Yes(other, CustId::new(1))];
    let torn = [Decision::Opened(other), Decision::Closed(other)];
    is_none_packed(alloc, inst, &[Decision::Opened(SiteId::new(3))], &[1, 2])
        && is_packed(alloc, inst, &no, &[1, 2], &[1, 2], &[2, 1, 1])
        && is_packed(alloc, inst, &yes, &[1], &[1, 2], &[2, 1, 1])
        && is_none_packed(alloc, inst, &torn, &[1])
}

#[test]
fn keeps_to_the_box(rt: HostRuntime) -> Result<(), Fail> {
    let inst = shelves(rt.alloc())?;
    assert!(rt; packs_boxes(rt.alloc(), &inst));
    Ok(())
}

// The shelves with this status of the site at a place.
fn settled(alloc: Global, site: usize, status: SiteStatus) -> Result<Instance, NoMemory> {
    let mut inst = shelves(alloc)?;
    if site < inst.sites() {
        inst.set_status(site, status);
    }
    Ok(inst)
}

fn packs_opened(alloc: Global, inst: &Instance) -> bool {
    are_opened(alloc, inst, &[Decision::Opened(SiteId::new(1))], 2)
        && is_packed(alloc, inst, &[], &[1], &[1, 2], &[1, 2, 1])
}

#[test]
fn opens_what_must_be_open(rt: HostRuntime) -> Result<(), Fail> {
    let inst = settled(rt.alloc(), 1, SiteStatus::MustOpen)?;
    assert!(rt; packs_opened(rt.alloc(), &inst));
    Ok(())
}

#[test]
fn leaves_what_must_be_closed(rt: HostRuntime) -> Result<(), Fail> {
    let inst = settled(rt.alloc(), 0, SiteStatus::MustClose)?;
    assert!(rt; is_none_packed(rt.alloc(), &inst, &[], &[1, 2]));
    Ok(())
}

#[test]
fn exchanges_the_site_that_is_open(rt: HostRuntime) -> Result<(), Fail> {
    let inst = road(rt.alloc(), 1, 1, 0)?;
    assert!(rt; is_seen(rt.alloc(), &inst, &[], &[], &[2], &[2, 2, 2]));
    Ok(())
}

// No site can be closed alone, and opening one more costs more than it saves.
fn exchanges(alloc: Global, inst: &Instance) -> bool {
    let closed = [Decision::Closed(SiteId::new(2))];
    has_no_caps(inst)
        && is_sought(alloc, inst, &[], &[true, false, false], &[2], &[2, 2, 2])
        && is_sought(alloc, inst, &[], &[true, true, true], &[2], &[2, 2, 2])
        && is_sought(alloc, inst, &[], &[false, false, false], &[2], &[2, 2, 2])
        && is_none_below(alloc, inst, &[false, false, false], 20_000_000)
        && is_sought(alloc, inst, &closed, &[false, true, true], &[1], &[1, 1, 1])
}

#[test]
fn exchanges_where_no_single_change_saves(rt: HostRuntime) -> Result<(), Fail> {
    let inst = road(rt.alloc(), 1, 3, 20_000_000)?;
    assert!(rt; exchanges(rt.alloc(), &inst));
    Ok(())
}

fn counts_by_savings(alloc: Global, inst: &Instance) -> bool {
    is_sought(
        alloc,
        inst,
        &[],
        &[false, false, false],
        &[2, 3],
        &[2, 2, 3],
    ) && is_sought(alloc, inst, &[], &[true, true, true], &[2, 3], &[2, 2, 3])
}

// A set of another size comes to two sites by what they save, where packing would go by their ids.
#[test]
fn brings_a_set_to_the_count_by_what_it_saves(rt: HostRuntime) -> Result<(), Fail> {
    let inst = road(rt.alloc(), 2, 2, 0)?;
    assert!(rt; counts_by_savings(rt.alloc(), &inst));
    Ok(())
}

// Two sites that hold 6 units each, and three customers with demands of 4, 3 and 3 units.
fn tight(alloc: Global) -> Result<Instance, NoMemory> {
    let near = LaneRow::from_slice(alloc, &[Some(1_000_000), Some(0), Some(0)])?;
    let far = LaneRow::from_slice(alloc, &[Some(2_000_000), Some(9_000_000), Some(9_000_000)])?;
    let sites = vec![in alloc;
        site(1, 0, Some(6_000_000), near),
        site(2, 0, Some(6_000_000), far),
    ]?;
    let custs = vec![in alloc;
        customer(1, 4_000_000),
        customer(2, 3_000_000),
        customer(3, 3_000_000),
    ]?;
    Instance::from_parts(alloc, 0, 2, 3, 4, custs, sites)
}

fn finds_more(alloc: Global, inst: &Instance) -> bool {
    !has_no_caps(inst)
        && is_packed(alloc, inst, &[], &[1, 2], &[1, 2], &[1, 2, 2])
        && is_seen(alloc, inst, &[], &[1, 2], &[1, 2], &[2, 1, 1])
        && is_none_packed(alloc, inst, &[], &[1])
        && is_seen(alloc, inst, &[], &[1], &[1, 2], &[2, 1, 1])
        && is_sought(alloc, inst, &[], &[false, false], &[1, 2], &[2, 1, 1])
}

#[test]
fn finds_what_packing_does_not(rt: HostRuntime) -> Result<(), Fail> {
    let inst = tight(rt.alloc())?;
    assert!(rt; finds_more(rt.alloc(), &inst));
    Ok(())
}

fn serves(alloc: Global, inst: &Instance) -> bool {
    is_seen(alloc, inst, &[], &[1, 2], &[1, 2], &[2, 1])
        && is_none_below(alloc, inst, &[true, true], 7_504_750_000)
}

#[test]
fn serves_two_warehouses(rt: HostRuntime) -> Result<(), Fail> {
    let inst = warehouses(rt.alloc())?;
    assert!(rt; serves(rt.alloc(), &inst));
    Ok(())
}

use example_instances::{customer, site, two_sites};
use instance_store::{Instance, LaneRow};
use set_walk::{MAX_WALK_SITES, cheapest_plan, is_plain};
use std::alloc::Global;
use std::process::Abort;
use std::test::Fail;

// The walk finds a plan of this cost, with these open sites and these pairs of a customer and a site.
fn expect_plan(
    rt: &impl Abort,
    alloc: Global,
    inst: &Instance,
    cost: u64,
    sites: &[u32],
    serves: &[(u32, u32)],
) -> Result<(), Fail> {
    assert!(rt; is_plain(inst));
    assert!(rt; inst.sites() <= MAX_WALK_SITES);
    let found = cheapest_plan(alloc, inst)?;
    assert_eq!(rt; found.cost, cost);
    assert_eq!(rt; found.plan.site_count(), sites.len());
    for (k, id) in sites.iter().enumerate() {
        assert_eq!(rt; found.plan.site(k).number(), *id);
    }
    assert_eq!(rt; found.plan.serve_count(), serves.len());
    for (k, expected) in serves.iter().enumerate() {
        let (customer, site) = found.plan.serve(k);
        assert_eq!(rt; (customer.number(), site.number()), *expected);
    }
    Ok(())
}

// The first site alone costs 22, the second alone 28, and both 26.
#[test]
fn one_site_serves_all(rt: HostRuntime) -> Result<(), Fail> {
    let alloc = rt.alloc();
    let inst = two_sites(alloc, 0, 3_000)?;
    expect_plan(
        &rt,
        alloc,
        &inst,
        22_000_000,
        &[1],
        &[(1, 1), (2, 1), (3, 1)],
    )
}

// Each site is near one customer. Both cost 8, and one alone 10 or more.
#[test]
fn each_site_serves_its_customer(rt: HostRuntime) -> Result<(), Fail> {
    let alloc = rt.alloc();
    let east = LaneRow::from_slice(alloc, &[Some(7), Some(1)])?;
    let west = LaneRow::from_slice(alloc, &[Some(2), Some(8)])?;
    let sites = vec![in alloc; site(4, 2, None, east), site(9, 3, None, west)]?;
    let custs = vec![in alloc; customer(5, 1), customer(6, 1)]?;
    let inst = Instance::from_parts(alloc, 0, 2, 10, 7, custs, sites)?;
    expect_plan(&rt, alloc, &inst, 8, &[4, 9], &[(5, 9), (6, 4)])
}

#[test]
fn nothing_costs_nothing(rt: HostRuntime) -> Result<(), Fail> {
    let alloc = rt.alloc();
    let lanes = LaneRow::from_slice(alloc, &[Some(0)])?;
    let sites = vec![in alloc; site(1, 0, None, lanes)]?;
    let custs = vec![in alloc; customer(1, 0)]?;
    let inst = Instance::from_parts(alloc, 0, 3_000, 2, 2, custs, sites)?;
    expect_plan(&rt, alloc, &inst, 0, &[1], &[(1, 1)])
}

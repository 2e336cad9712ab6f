ghost use Rattle.std.specs.Prelude.{◌≤◌};
ghost use Rattle.instance_store.specs.Small.{IsSmall};

use instance_store::{CustId, CustRow, Instance, LaneRow, SiteId, SiteRow, SiteStatus};
use plan_meaning::{Plan, PlanFault, cost, judge};
use std::alloc::{AllocError, Global};
use std::test::Fail;

// Two sites and three customers, in millionths. Both sites have this capacity, and site 1 reaches
// customer 3 at this cost.
fn pair(
    alloc: Global,
    lo: u32,
    hi: u32,
    cap: Option<u64>,
    far: Option<u64>,
) -> Result<Instance, Fail>
    requires order { lo ≤ hi }
    requires few { hi ≤ 2 }
    requires cap { IsSmall cap }
    requires far { IsSmall far }
{
    let first = LaneRow::from_slice(alloc, &[Some(1_000_000), Some(2_000_000), far])?;
    let second = LaneRow::from_slice(alloc, &[Some(8_000_000), Some(7_000_000), Some(1_000_000)])?;
    let sites = vec![in alloc;
        SiteRow {
            id: SiteId::new(1),
            fixed: 10_000_000,
            cap,
            lanes: first
        },
        SiteRow {
            id: SiteId::new(2),
            fixed: 12_000_000,
            cap,
            lanes: second
        },
    ]?;
    let custs = vec![in alloc;
        CustRow {
            id: CustId::new(1),
            demand: 4_000_000
        },
        CustRow {
            id: CustId::new(2),
            demand: 4_000_000
        },
        CustRow {
            id: CustId::new(3),
            demand: 6_000_000
        },
    ]?;
    Ok(Instance::from_parts(alloc, lo, hi, 3, 4, custs, sites)?)
}

// The same, of which one or two sites are to be open, without capacities; site 2 has this status.
fn settled_pair(alloc: Global, status: SiteStatus) -> Result<Instance, Fail> {
    let mut inst = pair(alloc, 1, 2, None, Some(9_000_000))?;
    if inst.sites() == 2 {
        inst.set_status(1, status);
    }
    Ok(inst)
}

// The plan that opens these sites and serves each customer from the site beside it.
fn plan(
    alloc: Global,
    open: &[u32],
    custs: &[u32],
    from: &[u32],
) -> Result<Option<Plan>, AllocError> {
    let mut sites = Vec::new(alloc);
    for id in open {
        sites.push(SiteId::new(*id))?;
    }
    let mut serves = Vec::new(alloc);
    for (cust, site) in custs.iter().zip(from) {
        serves.push((CustId::new(*cust), SiteId::new(*site)))?;
    }
    Ok(Plan::new(sites, serves))
}

// Whether the judge says this of that plan.
fn judges(
    alloc: Global,
    inst: &Instance,
    open: &[u32],
    custs: &[u32],
    from: &[u32],
    verdict: Result<u64, PlanFault>,
) -> bool {
    match plan(alloc, open, custs, from) {
        Ok(Some(plan)) => judge(inst, &plan) == verdict,
        _ => false,
    }
}

// Whether these open sites and these services make no plan: ids have to rise.
fn is_no_plan(alloc: Global, open: &[u32], custs: &[u32], from: &[u32]) -> bool {
    match plan(alloc, open, custs, from) {
        Ok(None) => true,
        _ => false,
    }
}

// What a plan shows of three open sites and two services.
fn is_seen(plan: &Plan) -> bool {
    plan.site_count() == 3
        && plan.serve_count() == 2
        && plan.site(1).number() == 5
        && plan.serve(1).0.number() == 7
        && plan.serve(1).1.number() == 2
        && plan.opens(SiteId::new(2))
        && plan.opens(SiteId::new(9))
        && !plan.opens(SiteId::new(6))
        && !plan.opens(SiteId::new(10))
}

fn sees(alloc: Global) -> bool {
    match plan(alloc, &[2, 5, 9], &[3, 7], &[9, 2]) {
        Ok(Some(plan)) => is_seen(&plan),
        _ => false,
    }
}

#[test]
fn sees_a_plan(rt: HostRuntime) -> Result<(), Fail> {
    let alloc = rt.alloc();
    assert!(rt; is_no_plan(alloc, &[2, 2], &[], &[]));
    assert!(rt; is_no_plan(alloc, &[3, 2], &[], &[]));
    assert!(rt; is_no_plan(alloc, &[2], &[4, 4], &[2, 3]));
    assert!(rt; sees(alloc));
    Ok(())
}

fn costs(alloc: Global, inst: &Instance) -> bool {
    let all = [1, 2, 3];
    judges(alloc, inst, &[1], &all, &[1, 1, 1], Ok(22_000_000))
        && judges(alloc, inst, &[2], &all, &[2, 2, 2], Ok(28_000_000))
        && judges(alloc, inst, &[1, 2], &all, &[1, 1, 2], Ok(26_000_000))
}

#[test]
fn costs_the_feasible(rt: HostRuntime) -> Result<(), Fail> {
    let inst = pair(rt.alloc(), 1, 2, None, Some(9_000_000))?;
    assert!(rt; costs(rt.alloc(), &inst));
    Ok(())
}

// A customer is missing in the first as well. Customer 4 is unknown, and served from a closed site. The
// closed site has no lane either. Demands of 14 are too many for one site as well.
fn refuses_services(alloc: Global, inst: &Instance) -> bool {
    let all = [1, 2, 3];
    let missing = Err(PlanFault::NotEachCustomerOnce);
    judges(
        alloc,
        inst,
        &[1, 9],
        &[1, 2],
        &[1, 1],
        Err(PlanFault::UnknownSite),
    ) && judges(alloc, inst, &[1, 2], &[1, 2], &[1, 1], missing)
        && judges(alloc, inst, &[1], &[1, 2, 4], &[1, 1, 2], missing)
        && judges(
            alloc,
            inst,
            &[2],
            &all,
            &[2, 2, 1],
            Err(PlanFault::ServedByClosed),
        )
        && judges(alloc, inst, &[1], &all, &[1, 1, 1], Err(PlanFault::NoLane))
}

// Demands of 4, 4 and 6 fit a capacity of 8 one by one. In the last plan one site too few is open too.
fn refuses_loads(alloc: Global, inst: &Instance) -> bool {
    let all = [1, 2, 3];
    let over = Err(PlanFault::OverCapacity);
    judges(alloc, inst, &[1, 2], &all, &[1, 1, 2], Ok(26_000_000))
        && judges(alloc, inst, &[1, 2], &all, &[2, 1, 2], over)
        && judges(alloc, inst, &[2], &all, &[2, 2, 2], over)
}

// Of two sites that are to be open, with a capacity of 8, site 1 does not reach customer 3.
#[test]
fn finds_the_first_fault(rt: HostRuntime) -> Result<(), Fail> {
    let inst = pair(rt.alloc(), 2, 2, Some(8_000_000), None)?;
    assert!(rt; refuses_services(rt.alloc(), &inst) && refuses_loads(rt.alloc(), &inst));
    Ok(())
}

// Whether the judge finds fault with the number of open sites.
fn refuses_count(alloc: Global, inst: &Instance, open: &[u32]) -> bool {
    judges(
        alloc,
        inst,
        open,
        &[1, 2, 3],
        &[2, 2, 2],
        Err(PlanFault::SiteCount),
    )
}

#[test]
fn counts_too_few_sites(rt: HostRuntime) -> Result<(), Fail> {
    let inst = pair(rt.alloc(), 2, 2, None, None)?;
    assert!(rt; refuses_count(rt.alloc(), &inst, &[2]));
    Ok(())
}

#[test]
fn counts_too_many_sites(rt: HostRuntime) -> Result<(), Fail> {
    let inst = pair(rt.alloc(), 1, 1, None, None)?;
    assert!(rt; refuses_count(rt.alloc(), &inst, &[1, 2]));
    Ok(())
}

// Whether the judge says this of the plan that opens site 1 alone, and that of the one with both.
fn judges_both(
    alloc: Global,
    inst: &Instance,
    one: Result<u64, PlanFault>,
    both: Result<u64, PlanFault>,
) -> bool {
    judges(alloc, inst, &[1], &[1, 2, 3], &[1, 1, 1], one)
        && judges(alloc, inst, &[1, 2], &[1, 2, 3], &[1, 1, 2], both)
}

#[test]
fn refuses_an_open_site_that_must_close(rt: HostRuntime) -> Result<(), Fail> {
    let inst = settled_pair(rt.alloc(), SiteStatus::MustClose)?;
    assert!(rt;
        judges_both(
            rt.alloc(),
            &inst,
            Ok(22_000_000),
            Err(PlanFault::StatusBroken)
        )
    );
    Ok(())
}

#[test]
fn refuses_a_closed_site_that_must_open(rt: HostRuntime) -> Result<(), Fail> {
    let inst = settled_pair(rt.alloc(), SiteStatus::MustOpen)?;
    assert!(rt;
        judges_both(
            rt.alloc(),
            &inst,
            Err(PlanFault::StatusBroken),
            Ok(26_000_000)
        )
    );
    Ok(())
}

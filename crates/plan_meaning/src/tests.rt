use super::*;
use instance_store::{CustId, CustRow, Instance, LaneRow, SiteId, SiteRow, SiteStatus};
use std::alloc::Global;
use std::test::Fail;

// Three sites and three customers: customer 3 has no lane from site 2. Site 1 has to stay closed.
fn edited(alloc: Global) -> Result<Instance, Fail> {
    let first = LaneRow::from_slice(alloc, &[Some(1), Some(2), Some(3)])?;
    let second = LaneRow::from_slice(alloc, &[Some(8), Some(7), None])?;
    let third = LaneRow::from_slice(alloc, &[Some(9), Some(6), None])?;
    let sites = vec![in alloc;
        SiteRow {
            id: SiteId::new(1),
            fixed: 10,
            cap: None,
            lanes: first
        },
        SiteRow {
            id: SiteId::new(2),
            fixed: 12,
            cap: None,
            lanes: second
        },
        SiteRow {
            id: SiteId::new(4),
            fixed: 14,
            cap: None,
            lanes: third
        },
    ]?;
    let custs = vec![in alloc;
        CustRow {
            id: CustId::new(1),
            demand: 0
        },
        CustRow {
            id: CustId::new(2),
            demand: 0
        },
        CustRow {
            id: CustId::new(3),
            demand: 0
        },
    ]?;
    let mut inst = Instance::from_parts(alloc, 1, 3, 5, 4, custs, sites)?;
    if inst.sites() == 3 {
        inst.set_status(0, SiteStatus::MustClose);
    }
    Ok(inst)
}

// The plan that opens all of these sites and one that is gone, 3.
fn before(alloc: Global) -> Result<Plan, Fail> {
    let sites = vec![in alloc;
        SiteId::new(1),
        SiteId::new(2),
        SiteId::new(3),
        SiteId::new(4),
    ]?;
    let serves = vec![in alloc;
        (CustId::new(1), SiteId::new(1)),
        (CustId::new(2), SiteId::new(2)),
        (CustId::new(3), SiteId::new(3)),
    ]?;
    Ok(Plan::new(sites, serves).ok_or("refused")?)
}

// Customer 1 moves to its cheapest lane, 2 stays, and 3 is left out.
#[test]
fn carries_a_plan_over(rt: HostRuntime) -> Result<(), Fail> {
    let alloc = rt.alloc();
    let plan = before(alloc)?.carried(alloc, &edited(alloc)?)?;
    assert_eq!(rt; (plan.site_count(), plan.serve_count()), (2, 2));
    assert!(rt; plan.opens(SiteId::new(2)) && plan.opens(SiteId::new(4)));
    assert!(rt; plan.server(CustId::new(1)) == Some(SiteId::new(2)));
    assert!(rt; plan.server(CustId::new(2)) == Some(SiteId::new(2)));
    Ok(())
}

use super::*;
use location_terms::MAX_AMOUNT;
use std::alloc::Global;
use std::test::Fail;

// Two sites and three customers, in millionths. The ids have gaps, a lane costs nothing, another one
// the most that there is, a third is missing, and one site has a capacity.
fn example(alloc: Global) -> Result<Instance, Fail> {
    let near = LaneRow::from_slice(alloc, &[Some(0), Some(MAX_AMOUNT), None])?;
    let far = LaneRow::from_slice(alloc, &[Some(8_000_000), Some(7_000_000), Some(1_000_000)])?;
    let sites = vec![in alloc;
        SiteRow {
            id: SiteId::new(3),
            fixed: 10_000_000,
            cap: None,
            lanes: near
        },
        SiteRow {
            id: SiteId::new(7),
            fixed: 12_000_000,
            cap: Some(5_000_000),
            lanes: far
        },
    ]?;
    let custs = vec![in alloc;
        CustRow {
            id: CustId::new(2),
            demand: 1_500_000
        },
        CustRow {
            id: CustId::new(4),
            demand: 2_000_000
        },
        CustRow {
            id: CustId::new(9),
            demand: 2_500_000
        },
    ]?;
    Ok(Instance::from_parts(alloc, 1, 2, 8, 11, custs, sites)?)
}

// Whether this site stands at the place, and is found there.
fn has_site(inst: &Instance, i: usize, id: u32, fixed: u64, cap: Option<u64>) -> bool {
    i < inst.sites()
        && inst.site_id(i).number() == id
        && inst.fixed(i) == fixed
        && inst.cap(i) == cap
        && inst.site_at(SiteId::new(id)) == Some(i)
}

fn has_statuses(inst: &Instance, first: SiteStatus, second: SiteStatus) -> bool {
    inst.sites() == 2 && inst.status(0) == first && inst.status(1) == second
}

fn has_customer(inst: &Instance, j: usize, id: u32, demand: u64) -> bool {
    j < inst.custs()
        && inst.cust_id(j).number() == id
        && inst.demand(j) == demand
        && inst.cust_at(CustId::new(id)) == Some(j)
}

fn has_row(lanes: &LaneRow, row: [Option<u64>; 3]) -> bool {
    lanes.len() == 3
        && !lanes.is_empty()
        && lanes.get(0) == row[0]
        && lanes.get(1) == row[1]
        && lanes.get(2) == row[2]
}

// Whether these lanes go from the site at the place, read of its row and one by one.
fn has_lanes(inst: &Instance, i: usize, row: [Option<u64>; 3]) -> bool {
    i < inst.sites()
        && inst.custs() == 3
        && has_row(inst.lanes(i), row)
        && inst.lane(i, 0) == row[0]
        && inst.lane(i, 1) == row[1]
        && inst.lane(i, 2) == row[2]
}

#[test]
fn looks_up_each_place_and_id(rt: HostRuntime) -> Result<(), Fail> {
    let inst = example(rt.alloc())?;
    assert!(rt; inst.sites() == 2 && inst.custs() == 3);
    assert!(rt; inst.count() == (1, 2) && inst.next_ids() == (8, 11));

    assert!(rt; has_site(&inst, 0, 3, 10_000_000, None));
    assert!(rt; has_site(&inst, 1, 7, 12_000_000, Some(5_000_000)));
    assert!(rt; has_statuses(&inst, SiteStatus::Free, SiteStatus::Free));
    assert!(rt; has_customer(&inst, 0, 2, 1_500_000));
    assert!(rt; has_customer(&inst, 1, 4, 2_000_000));
    assert!(rt; has_customer(&inst, 2, 9, 2_500_000));
    assert!(rt; has_lanes(&inst, 0, [Some(0), Some(MAX_AMOUNT), None]));
    assert!(rt;
        has_lanes(
            &inst,
            1,
            [Some(8_000_000), Some(7_000_000), Some(1_000_000)]
        )
    );

    for id in [0, 1, 2, 4, 6, 8] {
        assert!(rt; inst.site_at(SiteId::new(id)) == None);
    }
    for id in [0, 1, 3, 7, 10, 11] {
        assert!(rt; inst.cust_at(CustId::new(id)) == None);
    }
    Ok(())
}

// Whether the instance is the example but for the statuses of its sites.
fn is_example_but_settled(inst: &Instance) -> bool {
    inst.sites() == 2
        && inst.custs() == 3
        && inst.count() == (1, 2)
        && inst.next_ids() == (8, 11)
        && has_site(inst, 0, 3, 10_000_000, None)
        && has_site(inst, 1, 7, 12_000_000, Some(5_000_000))
        && has_customer(inst, 0, 2, 1_500_000)
        && has_customer(inst, 1, 4, 2_000_000)
        && has_customer(inst, 2, 9, 2_500_000)
        && has_lanes(inst, 0, [Some(0), Some(MAX_AMOUNT), None])
        && has_lanes(inst, 1, [Some(8_000_000), Some(7_000_000), Some(1_000_000)])
}

#[test]
fn settles_a_site(rt: HostRuntime) -> Result<(), Fail> {
    let mut inst = example(rt.alloc())?;
    assert!(rt; 1 < inst.sites());
    inst.set_status(1, SiteStatus::MustClose);
    assert!(rt; has_statuses(&inst, SiteStatus::Free, SiteStatus::MustClose));
    assert!(rt; is_example_but_settled(&inst));
    let copy = inst.copied(rt.alloc())?;
    assert!(rt; has_statuses(&copy, SiteStatus::Free, SiteStatus::MustClose));
    assert!(rt; is_example_but_settled(&copy));
    Ok(())
}

// Whether lanes of a row are put in, replaced and taken out.
fn changes_lanes(alloc: Global) -> Result<bool, NoMemory> {
    let mut row = LaneRow::from_slice(alloc, &[Some(1), None])?;
    row.insert(1, Some(5))?;
    row.set(0, None);
    let changed = has_row(&row, [None, Some(5), None]);
    let taken = row.remove(1);
    Ok(changed && taken == Some(5) && row.len() == 2)
}

#[test]
fn changes_a_row(rt: HostRuntime) -> Result<(), Fail> {
    assert!(rt; changes_lanes(rt.alloc())?);
    Ok(())
}

const NEAR: ListedSite = ListedSite {
    fixed: 10,
    cap: None,
};

const FAR: ListedSite = ListedSite {
    fixed: 12,
    cap: Some(5),
};

// Two sites and three customers without a demand, with a row of lanes for each site.
fn by_site(alloc: Global) -> Result<Instance, NoMemory> {
    let near = LaneRow::from_slice(alloc, &[Some(1), None, Some(9)])?;
    let far = LaneRow::from_slice(alloc, &[Some(8), Some(7), Some(3)])?;
    let sites = vec![in alloc;
        SiteLanes {
            site: NEAR,
            lanes: near
        },
        SiteLanes {
            site: FAR,
            lanes: far
        },
    ]?;
    let demands = vec![in alloc; 0, 0, 6]?;
    Instance::numbered_by_site(alloc, sites, demands)
}

// The same with a row of lanes for each customer.
fn by_customer(alloc: Global) -> Result<Instance, NoMemory> {
    let custs = vec![in alloc;
        CustLanes {
            demand: 0,
            lanes: LaneRow::from_slice(alloc, &[Some(1), Some(8)])?
        },
        CustLanes {
            demand: 0,
            lanes: LaneRow::from_slice(alloc, &[None, Some(7)])?
        },
        CustLanes {
            demand: 6,
            lanes: LaneRow::from_slice(alloc, &[Some(9), Some(3)])?
        },
    ]?;
    Instance::numbered_by_customer(alloc, vec![in alloc; NEAR, FAR]?, custs)
}

// Whether the instance is the one of the lists.
fn is_numbered(inst: &Instance) -> bool {
    inst.count() == (0, 3_000)
        && inst.next_ids() == (3, 4)
        && has_statuses(inst, SiteStatus::Free, SiteStatus::Free)
        && has_site(inst, 0, 1, 10, None)
        && has_site(inst, 1, 2, 12, Some(5))
        && has_customer(inst, 0, 1, 0)
        && has_customer(inst, 2, 3, 6)
        && has_lanes(inst, 0, [Some(1), None, Some(9)])
        && has_lanes(inst, 1, [Some(8), Some(7), Some(3)])
}

#[test]
fn numbers_lists_by_site_and_by_customer(rt: HostRuntime) -> Result<(), Fail> {
    let inst = by_site(rt.alloc())?;
    assert!(rt; is_numbered(&inst));
    let inst = by_customer(rt.alloc())?;
    assert!(rt; is_numbered(&inst));
    Ok(())
}

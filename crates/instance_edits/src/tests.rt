ghost use Rattle.instance_edits.specs.Edits.{HasAmounts};

use super::*;
use example_instances::{customer, site, two_sites};
use lane_order::LaneOrder;
use std::alloc::Global;
use std::test::Fail;

fn first_site() -> SiteId {
    SiteId::new(1)
}

fn last_cust() -> CustId {
    CustId::new(3)
}

fn has_lanes(inst: &Instance, site: usize, lanes: [u64; 3]) -> bool {
    site < inst.sites()
        && inst.custs() == 3
        && inst.lane(site, 0) == Some(lanes[0])
        && inst.lane(site, 1) == Some(lanes[1])
        && inst.lane(site, 2) == Some(lanes[2])
}

// Whether the instance is the one of two sites, next ids included.
fn is_example(inst: &Instance) -> bool {
    inst.sites() == 2
        && inst.custs() == 3
        && inst.count() == (1, 2)
        && inst.next_ids() == (3, 4)
        && inst.fixed(0) == 10_000_000
        && inst.cap(0).is_none()
        && inst.status(0) == SiteStatus::Free
        && has_lanes(inst, 0, [1_000_000, 2_000_000, 9_000_000])
        && has_lanes(inst, 1, [8_000_000, 7_000_000, 1_000_000])
        && inst.demand(2) == 0
        && inst.site_at(first_site()) == Some(0)
        && inst.cust_at(last_cust()) == Some(2)
}

// Whether the edit touches this, replaces this amount, and is taken back.
fn comes_back(
    alloc: Global,
    inst: &mut Instance,
    edit: &Edit,
    touch: Touch,
    amount: Option<u64>,
) -> Result<bool, EditFault>
    requires { HasAmounts edit.now }
{
    let some = inst.sites() > 0;
    let back = apply(alloc, inst, edit)?;
    let told = some && !is_example(inst) && back.touch() == touch && back.former_amount() == amount;
    match undo(inst, back) {
        Ok(()) => Ok(told && is_example(inst)),
        Err(_) => Err(EditFault::NoMemory),
    }
}

// Whether this is the order that a new one of the instance is.
fn is_ordered(alloc: Global, order: &LaneOrder, inst: &Instance) -> Result<bool, NoMemory> {
    let new = LaneOrder::of(alloc, inst)?;
    for cust in 0..new.custs() {
        if cust >= order.custs() || order.lanes(cust) != new.lanes(cust) {
            return Ok(false);
        }
    }
    Ok(order.custs() == new.custs())
}

// Whether an order follows the edit, and its undoing.
fn is_followed(alloc: Global, inst: &mut Instance, edit: &Edit) -> Result<bool, EditFault>
    requires { HasAmounts edit.now }
{
    let some = inst.sites() > 0;
    let mut order = LaneOrder::of(alloc, inst)?;
    make_room(&mut order)?;
    let back = apply_in_order(alloc, &mut order, inst, edit)?;
    let on = some && is_ordered(alloc, &order, inst)?;
    make_room(&mut order)?;
    if undo_in_order(&mut order, inst, back).is_err() {
        return Err(EditFault::NoMemory);
    }
    Ok(on && is_ordered(alloc, &order, inst)? && is_example(inst))
}

// Whether values are set, and set back.
fn values_come_back(alloc: Global, inst: &mut Instance) -> Result<bool, EditFault> {
    let fixed = Edit::SetFixed {
        site: first_site(),
        cost: 30_000_000,
    };
    let lane = Edit::SetLane {
        site: first_site(),
        cust: last_cust(),
        cost: None,
    };
    let demand = Edit::SetDemand {
        cust: last_cust(),
        demand: 7,
    };
    let cap = Edit::SetCap {
        site: first_site(),
        cap: Some(5),
    };
    let count = Edit::SetCount { lo: 2, hi: 2 };
    let status = Edit::SetStatus {
        site: first_site(),
        status: SiteStatus::MustOpen,
    };
    Ok(
        comes_back(
            alloc,
            inst,
            &fixed,
            Touch::Site(first_site()),
            Some(10_000_000),
        )? && comes_back(
            alloc,
            inst,
            &lane,
            Touch::Lane(first_site(), last_cust()),
            Some(9_000_000),
        )? && comes_back(alloc, inst, &demand, Touch::Cust(last_cust()), Some(0))?
            && comes_back(alloc, inst, &cap, Touch::Site(first_site()), None)?
            && comes_back(alloc, inst, &count, Touch::Count, None)?
            && comes_back(alloc, inst, &status, Touch::Site(first_site()), None)?,
    )
}

#[test]
fn sets_values_back(rt: HostRuntime) -> Result<(), Fail> {
    let mut inst = two_sites(rt.alloc(), 1, 2)?;
    assert!(rt; is_example(&inst));
    assert!(rt; values_come_back(rt.alloc(), &mut inst)?);
    Ok(())
}

// Whether sites and customers go and come again, and come and go again.
fn rows_come_back(alloc: Global, inst: &mut Instance) -> Result<bool, EditFault> {
    let (site, cust) = (SiteId::new(3), CustId::new(4));
    let drop_site = Edit::DropSite { site: first_site() };
    let drop_cust = Edit::DropCust { cust: last_cust() };
    let add_site = Edit::AddSite {
        cost: 1,
        cap: None,
        lanes: LaneRow::from_slice(alloc, &[Some(1), None, Some(1)])?,
    };
    let add_cust = Edit::AddCust {
        demand: 1,
        lanes: LaneRow::from_slice(alloc, &[Some(9), None])?,
    };
    Ok(
        comes_back(
            alloc,
            inst,
            &drop_site,
            Touch::SiteOut(first_site()),
            Some(10_000_000),
        )? && comes_back(
            alloc,
            inst,
            &drop_cust,
            Touch::CustOut(last_cust()),
            Some(0),
        )? && comes_back(alloc, inst, &add_site, Touch::SiteIn(site), None)?
            && comes_back(alloc, inst, &add_cust, Touch::CustIn(cust), None)?,
    )
}

#[test]
fn brings_rows_back(rt: HostRuntime) -> Result<(), Fail> {
    let mut inst = two_sites(rt.alloc(), 1, 2)?;
    assert!(rt; rows_come_back(rt.alloc(), &mut inst)?);
    Ok(())
}

// Whether an order follows one lane, and sites and customers that come and go.
fn all_are_followed(alloc: Global, inst: &mut Instance) -> Result<bool, EditFault> {
    let lane = Edit::SetLane {
        site: first_site(),
        cust: last_cust(),
        cost: Some(0),
    };
    let status = Edit::SetStatus {
        site: first_site(),
        status: SiteStatus::MustOpen,
    };
    let drop_site = Edit::DropSite { site: first_site() };
    let drop_cust = Edit::DropCust {
        cust: CustId::new(2),
    };
    let add_site = Edit::AddSite {
        cost: 1,
        cap: None,
        lanes: LaneRow::from_slice(alloc, &[Some(1), None, Some(1)])?,
    };
    let add_cust = Edit::AddCust {
        demand: 1,
        lanes: LaneRow::from_slice(alloc, &[Some(9), None])?,
    };
    Ok(
        is_followed(alloc, inst, &lane)?
            && is_followed(alloc, inst, &status)?
            && is_followed(alloc, inst, &drop_site)?
            && is_followed(alloc, inst, &drop_cust)?
            && is_followed(alloc, inst, &add_site)?
            && is_followed(alloc, inst, &add_cust)?,
    )
}

#[test]
fn orders_follow(rt: HostRuntime) -> Result<(), Fail> {
    let mut inst = two_sites(rt.alloc(), 1, 2)?;
    assert!(rt; all_are_followed(rt.alloc(), &mut inst)?);
    Ok(())
}

// Whether the edit is refused for this, and changes nothing.
fn refuses(alloc: Global, inst: &mut Instance, edit: &Edit, fault: EditFault) -> bool
    requires { HasAmounts edit.now }
{
    match (allows(inst, edit), apply(alloc, inst, edit)) {
        (Err(found), Err(answered)) => found == fault && answered == fault,
        _ => false,
    }
}

// Whether the only site, the only customer, a wrong count, a row too short and an unknown id are refused.
fn refuses_what_it_should(alloc: Global, inst: &mut Instance) -> Result<bool, NoMemory> {
    let row = LaneRow::from_slice(alloc, &[Some(1)])?;
    let short = LaneRow::from_slice(alloc, &[])?;
    let add_site = Edit::AddSite {
        cost: 1,
        cap: None,
        lanes: row,
    };
    let add_cust = Edit::AddCust {
        demand: 1,
        lanes: short,
    };
    let drop_cust = Edit::DropCust {
        cust: CustId::new(9),
    };
    let count = Edit::SetCount { lo: 3, hi: 2 };
    Ok(
        refuses(
            alloc,
            inst,
            &Edit::DropSite { site: first_site() },
            EditFault::LastOne,
        ) && refuses(alloc, inst, &add_site, EditFault::IdsSpent)
            && refuses(alloc, inst, &add_cust, EditFault::LaneCount)
            && refuses(alloc, inst, &drop_cust, EditFault::NoCustomer)
            && refuses(alloc, inst, &count, EditFault::BadCount)
            && inst.sites() == 1
            && inst.next_ids() == (4_294_967_295, 2),
    )
}

// One site and one customer, where no site's id is left.
fn spent(alloc: Global) -> Result<Instance, NoMemory> {
    let lanes = LaneRow::from_slice(alloc, &[Some(0)])?;
    let sites = vec![in alloc; site(1, 1, None, lanes)]?;
    let custs = vec![in alloc; customer(1, 0)]?;
    Instance::from_parts(alloc, 0, 1, 4_294_967_295, 2, custs, sites)
}

#[test]
fn refuses_faults(rt: HostRuntime) -> Result<(), Fail> {
    let mut inst = spent(rt.alloc())?;
    assert!(rt; refuses_what_it_should(rt.alloc(), &mut inst)?);
    Ok(())
}

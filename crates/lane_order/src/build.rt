//! How the order of an instance is made.
ghost use Rattle.std.specs.Prelude.{◌≡◌, ◌<◌, ◌++◌, length, IfOk};
ghost use Rattle.location_terms.specs.Instance.{IsValid, site_ids};
ghost use Rattle.lane_order.specs.Building.{first_lanes, AreSortedLanes, AreListsOf};

use crate::lane_list::LaneList;
use crate::{Instance, NoMemory, PlacedLane, SiteId};
use std::alloc::Global;

/// The ids of the sites, by place.
pub(crate) fn site_ids(alloc: Global, inst: &Instance) -> Result<Vec<SiteId>, NoMemory>
    ensures exact { IfOk result (λ ids. ids.items ≡ site_ids inst.now) }
    ensures valid { IsValid inst.now }
{
    let mut ids = Vec::with_capacity(alloc, inst.sites())?;
    for site in 0..inst.sites() {
        ids.push(inst.site_id(site))?;
    }
    Ok(ids)
}

/// The lanes to each customer in order.
pub(crate) fn lane_lists(alloc: Global, inst: &Instance) -> Result<Vec<LaneList>, NoMemory>
    ensures { IfOk result (λ lists. AreListsOf inst.now lists.items) }
{
    let mut lists = Vec::with_capacity(alloc, inst.custs())?;
    let mut lanes = Vec::with_capacity(alloc, inst.sites())?;
    for cust in 0..inst.custs() {
        gather(inst, cust, &mut lanes)?;
        lists.push(LaneList::from_slice(alloc, &lanes)?)?;
    }
    Ok(lists)
}

// The lanes to the customer in order, in the place of those that were there.
fn gather(inst: &Instance, cust: usize, lanes: &mut Vec<PlacedLane>) -> Result<(), NoMemory>
    requires { cust < length inst.now.customers }
    ensures { IfOk result (λ _. AreSortedLanes inst.now cust lanes.new.items) }
{
    lanes.clear();
    push_lanes(inst, cust, lanes)?;
    lanes.sort_unstable();
    Ok(())
}

// The lanes to the customer in the order of the sites.
fn push_lanes(inst: &Instance, cust: usize, lanes: &mut Vec<PlacedLane>) -> Result<(), NoMemory>
    requires { cust < length inst.now.customers }
    ensures { IfOk result (λ _. lanes.new.items ≡ lanes.old.items ++ first_lanes inst.now cust (length inst.now.sites)) }
{
    for site in 0..inst.sites() {
        if let Some(cost) = inst.lane(site, cust) {
            lanes.push(PlacedLane {
                cost,
                site: site as u32,
            })?;
        }
    }
    Ok(())
}

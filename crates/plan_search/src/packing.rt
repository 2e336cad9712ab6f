//! The plan that is packed for a hint.
ghost use Rattle.std.specs.Prelude.{◌≡◌, ◌&&◌, [], length, map, nat_le, IfOk, Some};
ghost use Rattle.location_terms.specs.Instance.{IsValid, site_at};
ghost use Rattle.location_terms.specs.Plan.{IsPlan};
ghost use Rattle.lane_order.specs.Order.{IsOrderOf};
ghost use Rattle.plan_search.specs.Packed.{packed, plan_of};
ghost use Rattle.plan_search.specs.Flags.{flagged};
ghost use Rattle.plan_search.specs.Packing.{ArePairs, AreServers, services_of};

use crate::chosen::chosen;
use crate::flags::flag_count;
use crate::lanes::take_lanes;
use dual_value::PreparedBox;
use instance_store::{CustId, Instance, NoMemory, SiteId};
use lane_order::LaneOrder;
use plan_meaning::Plan;
use std::alloc::Global;

/// The plan that is packed in the box for this hint of sites, where there is one. It fails only where
/// memory runs out.
pub(crate) fn pack(
    alloc: Global,
    boxed: &PreparedBox,
    order: &LaneOrder,
    hint: &[SiteId],
) -> Result<Option<Plan>, NoMemory>
    requires order { IsOrderOf order.now boxed.now.instance }
    ensures exact { IfOk result (λ plan. plan ≡ packed boxed.now.instance boxed.now.path hint.now) }
    ensures valid { IfOk result (λ _. IsValid boxed.now.instance) }
{
    let inst = boxed.instance();
    let flags = chosen(alloc, boxed, hint)?;
    if !is_count_within(inst, flag_count(&flags)) {
        return Ok(None);
    }
    match take_lanes(alloc, boxed, order, &flags)? {
        None => Ok(None),
        Some(taken) => plan_of(alloc, inst, &flags, &taken),
    }
}

// Whether a plan may open so many sites.
fn is_count_within(inst: &Instance, count: usize) -> bool
    ensures exact { result ≡ (nat_le inst.now.lo count && nat_le count inst.now.hi) }
    ensures valid { IsValid inst.now }
{
    let _sites = inst.sites();
    let (lo, hi) = inst.count();
    lo as usize <= count && count <= hi as usize
}

// The plan that opens the flagged sites and serves each customer by the lane that it took.
fn plan_of(
    alloc: Global,
    inst: &Instance,
    flags: &[bool],
    taken: &[(usize, usize)],
) -> Result<Option<Plan>, NoMemory>
    requires long { length flags.now ≡ length inst.now.sites }
    requires pairs { ArePairs inst.now taken.now }
    requires plan { IsPlan (plan_of inst.now (flagged flags.now) taken.now) }
    ensures { IfOk result (λ plan. plan ≡ Some (plan_of inst.now (flagged flags.now) taken.now)) }
{
    let sites = open_sites(alloc, inst, flags)?;
    let serves = services(alloc, inst, taken)?;
    Ok(Plan::new(sites, serves))
}

// The ids of the flagged sites.
fn open_sites(alloc: Global, inst: &Instance, flags: &[bool]) -> Result<Vec<SiteId>, NoMemory>
    requires { length flags.now ≡ length inst.now.sites }
    ensures { IfOk result (λ sites. sites.items ≡ map (λ i. (site_at inst.now i).id) (flagged flags.now)) }
{
    let mut sites = Vec::new(alloc);
    for site in 0..flags.len() {
        if flags[site] {
            sites.push(inst.site_id(site))?;
        }
    }
    Ok(sites)
}

fn services(
    alloc: Global,
    inst: &Instance,
    taken: &[(usize, usize)],
) -> Result<Vec<(CustId, SiteId)>, NoMemory>
    requires { ArePairs inst.now taken.now }
    ensures { IfOk result (λ serves. serves.items ≡ services_of inst.now taken.now) }
{
    let servers = servers(alloc, inst, taken)?;
    let mut serves = Vec::with_capacity(alloc, inst.custs())?;
    for cust in 0..inst.custs() {
        if let Some(site) = servers[cust] {
            serves.push((inst.cust_id(cust), inst.site_id(site)))?;
        }
    }
    Ok(serves)
}

// The place of each customer's site, by place.
fn servers(
    alloc: Global,
    inst: &Instance,
    taken: &[(usize, usize)],
) -> Result<Vec<Option<usize>>, NoMemory>
    requires { ArePairs inst.now taken.now }
    ensures { IfOk result (λ servers. AreServers inst.now taken.now servers.items) }
{
    let mut servers = vec![in alloc; None; inst.custs()]?;
    set_servers(inst, taken, &mut servers);
    Ok(servers)
}

fn set_servers(_inst: &Instance, taken: &[(usize, usize)], servers: &mut [Option<usize>])
    requires pairs { ArePairs _inst.now taken.now }
    requires none { AreServers _inst.now [] servers.old }
    ensures long { length servers.new ≡ length servers.old }
    ensures exact { AreServers _inst.now taken.now servers.new }
{
    for (cust, site) in taken {
        servers[*cust] = Some(*site);
    }
}

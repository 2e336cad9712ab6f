//! What the rows are given: duals that fit, and sites and customers of an instance.
ghost use Rattle.std.specs.Prelude.{Contains, IfOk};
ghost use Rattle.location_terms.specs.Instance.{site_ids, customer_ids};
ghost use Rattle.location_terms.specs.Leaf.{LeafFits};

use dual_value::Duals;
use instance_store::{CustId, Instance, SiteId};
use leaf_bounds::LeafBounds;
use std::alloc::Global;
use std::test::Fail;

/// Duals of scale 1 with these numbers, which fit.
pub(crate) fn duals(
    alloc: Global,
    inst: &Instance,
    nu: i128,
    values: &[i128],
    prices: &[u64],
) -> Result<Duals, Fail>
    ensures { IfOk result (LeafFits inst.now) }
{
    let values = Vec::from_slice(alloc, values)?;
    let prices = Vec::from_slice(alloc, prices)?;
    let duals = Duals::from_lists(1, nu, values, prices);
    if inst.custs() != duals.customers() || inst.sites() != duals.sites() {
        return Err(Fail::new("an instance of another size"));
    }
    LeafBounds::of(alloc, inst).fits(&duals)?;
    Ok(duals)
}

/// The site of this id.
pub(crate) fn site_of(inst: &Instance, id: u32) -> Result<SiteId, Fail>
    ensures { IfOk result (Contains (site_ids inst.now)) }
{
    let site = SiteId::new(id);
    if inst.site_at(site).is_none() {
        return Err(Fail::new("no such site"));
    }
    Ok(site)
}

/// The customer of this id.
pub(crate) fn cust_of(inst: &Instance, id: u32) -> Result<CustId, Fail>
    ensures { IfOk result (Contains (customer_ids inst.now)) }
{
    let cust = CustId::new(id);
    if inst.cust_at(cust).is_none() {
        return Err(Fail::new("no such customer"));
    }
    Ok(cust)
}

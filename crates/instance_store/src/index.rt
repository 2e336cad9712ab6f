//! The places of ids.
ghost use Rattle.std.specs.Prelude.{◌≡◌, IfOk};
ghost use Rattle.std.specs.List.Sorted.{IsStrictlyIncreasing};
ghost use Rattle.instance_store.specs.Parts.{site_row_ids, cust_row_ids};

use crate::{CustRow, NoMemory, SiteRow};
use indexmap::IndexSet;
use std::alloc::Global;

/// The ids of the sites, each at its place.
pub fn site_places(alloc: Global, sites: &[SiteRow]) -> Result<IndexSet<u32>, NoMemory>
    requires { IsStrictlyIncreasing (site_row_ids sites.now) }
    ensures { IfOk result (λ places. places.keys ≡ site_row_ids sites.now) }
{
    let mut places = IndexSet::with_capacity(alloc, sites.len())?;
    for site in sites {
        places.insert(site.id.number())?;
    }
    Ok(places)
}

/// The ids of the customers, each at its place.
pub fn cust_places(alloc: Global, custs: &[CustRow]) -> Result<IndexSet<u32>, NoMemory>
    requires { IsStrictlyIncreasing (cust_row_ids custs.now) }
    ensures { IfOk result (λ places. places.keys ≡ cust_row_ids custs.now) }
{
    let mut places = IndexSet::with_capacity(alloc, custs.len())?;
    for cust in custs {
        places.insert(cust.id.number())?;
    }
    Ok(places)
}

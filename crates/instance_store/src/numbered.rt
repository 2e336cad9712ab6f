//! Instances of lists, whose sites and customers have the ids 1, 2, 3 and so on, as readers of files
//! make them.
ghost use Rattle.std.specs.Prelude.{◌≡◌, ◌<◌, ◌≤◌, None, length, map, slice_index_or, All, IsSome, IfOk};
ghost use Rattle.location_terms.specs.Instance.{IsValid};
ghost use Rattle.location_terms.specs.Plain.{IsPlain};
ghost use Rattle.location_terms.specs.declared.limits.TheConstants.{MAX_CUSTOMERS, MAX_SITES};
ghost use Rattle.instance_store.specs.Numbered.{with_ids, numbered_row, numbered_customer, column_at, columns_of, numbered_by_site, numbered_by_customer, AreSiteRows, AreCustRows};

use crate::{CustId, CustRow, Instance, LaneRow, NoMemory, SiteId, SiteRow};
use location_terms::MAX_SITES;
use std::alloc::Global;

/// A site of a list. Its id is its place there, counted from 1.
#[derive(Clone, Copy, Debug, PartialEq, Eq)]
pub struct ListedSite {
    /// What it costs to open the site, in millionths.
    pub fixed: u64,
    /// The most demand that the site serves, in millionths, and `None` where there is no limit.
    pub cap: Option<u64>,
}

/// A site of a list, with its lanes to the customers in their order.
#[derive(Debug, Drop)]
pub struct SiteLanes {
    pub site: ListedSite,
    pub lanes: LaneRow,
}

/// A customer of a list, with its lanes to the sites in their order. Its id is its place in the
/// list, counted from 1.
#[derive(Debug, Drop)]
pub struct CustLanes {
    /// What the customer demands, in millionths.
    pub demand: u64,
    pub lanes: LaneRow,
}

impl Instance {
    /// The instance of listed sites with a row of lanes each, and of customers with these demands, in
    /// millionths. Each site is free, and any number of sites may open. Each row has to have an entry
    /// for each customer, and all to be within the limits. It fails only where memory runs out.
    pub fn numbered_by_site(
        alloc: Global,
        sites: Vec<SiteLanes>,
        demands: Vec<u64>,
    ) -> Result<Instance, NoMemory>
        requires { AreSiteRows sites.items demands.items }
        ensures instance { IfOk result (λ inst. inst ≡ numbered_by_site sites.items demands.items) }
        ensures valid { IfOk result IsValid }
        ensures plain { All (λ s. s.site.cap ≡ None) sites.items → All (λ s. All IsSome s.lanes) sites.items → IfOk result IsPlain }
    {
        let next_site = sites.len() as u32 + 1;
        let next_cust = demands.len() as u32 + 1;
        let sites = site_rows(alloc, sites)?;
        let custs = cust_rows(alloc, demands)?;
        Instance::from_parts(
            alloc,
            0,
            MAX_SITES as u32,
            next_site,
            next_cust,
            custs,
            sites,
        )
    }

    /// The same of listed sites, and of customers with a row of lanes each, which has to have an entry
    /// for each site.
    pub fn numbered_by_customer(
        alloc: Global,
        sites: Vec<ListedSite>,
        custs: Vec<CustLanes>,
    ) -> Result<Instance, NoMemory>
        requires { AreCustRows sites.items custs.items }
        ensures instance { IfOk result (λ inst. inst ≡ numbered_by_customer sites.items custs.items) }
        ensures valid { IfOk result IsValid }
        ensures plain { All (λ s. s.cap ≡ None) sites.items → All (λ c. All IsSome c.lanes) custs.items → IfOk result IsPlain }
    {
        let sites = with_columns(alloc, sites, &custs)?;
        let demands = demands_of(alloc, &custs)?;
        Instance::numbered_by_site(alloc, sites, demands)
    }
}

// The sites as rows with their ids.
fn site_rows(alloc: Global, sites: Vec<SiteLanes>) -> Result<Vec<SiteRow>, NoMemory>
    requires { length sites.items ≤ MAX_SITES }
    ensures { IfOk result (λ rows. rows.items ≡ map numbered_row (with_ids sites.items)) }
{
    let ids = 1..sites.len() as u32 + 1;
    let rows = ids
        .zip(sites)
        .map(|(id, listed)| SiteRow {
            id: SiteId::new(id),
            fixed: listed.site.fixed,
            cap: listed.site.cap,
            lanes: listed.lanes,
        })
        .collect(alloc)?;
    Ok(rows)
}

// The customers as rows with their ids.
fn cust_rows(alloc: Global, demands: Vec<u64>) -> Result<Vec<CustRow>, NoMemory>
    requires { length demands.items ≤ MAX_CUSTOMERS }
    ensures { IfOk result (λ rows. rows.items ≡ map numbered_customer (with_ids demands.items)) }
{
    let ids = 1..demands.len() as u32 + 1;
    let rows = ids
        .zip(demands)
        .map(|(id, demand)| CustRow {
            id: CustId::new(id),
            demand,
        })
        .collect(alloc)?;
    Ok(rows)
}

// The sites with the lanes that stand in the rows of the customers.
fn with_columns(
    alloc: Global,
    sites: Vec<ListedSite>,
    custs: &[CustLanes],
) -> Result<Vec<SiteLanes>, NoMemory>
    requires { All (λ c. length c.lanes ≡ length sites.items) custs.now }
    ensures { IfOk result (λ rows. rows.items ≡ columns_of sites.items custs.now) }
{
    let mut rows = Vec::with_capacity(alloc, sites.len())?;
    for i in 0..sites.len() {
        let lanes = column(alloc, i, custs)?;
        let site = sites[i];
        rows.push(SiteLanes { site, lanes })?;
    }
    Ok(rows)
}

// The lanes to the site at place `i` that stand in the rows of the customers.
fn column(alloc: Global, i: usize, custs: &[CustLanes]) -> Result<LaneRow, NoMemory>
    requires { All (λ c. i < length c.lanes) custs.now }
    ensures { IfOk result (λ row. row ≡ column_at i custs.now) }
{
    let mut row = LaneRow::with_capacity(alloc, custs.len())?;
    for cust in custs {
        row.push(cust.lanes.get(i))?;
    }
    Ok(row)
}

// The customers' demands.
fn demands_of(alloc: Global, custs: &[CustLanes]) -> Result<Vec<u64>, NoMemory>
    ensures { IfOk result (λ demands. demands.items ≡ map (λ c. c.demand) custs.now) }
{
    let demands = custs.iter().map(|cust| cust.demand).collect(alloc)?;
    Ok(demands)
}

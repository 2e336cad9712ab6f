//! An instance, and what is read of it by place.
ghost use Rattle.std.specs.Prelude.{◌≡◌, ℕ, ◌<◌, ◌≤◌, ◌↔◌, None, length, slice_index_or, Contains, IsSome, IfSome, IfOk, map};
ghost use Rattle.location_terms.specs.Instance.{site_at, customer_at, site_ids, customer_ids, lane, IsValid};
ghost use Rattle.instance_store.specs.Small.{IsSmall, AreSmall};
ghost use Rattle.instance_store.specs.Parts.{instance_of, AreParts};
ghost use Rattle.instance_store.specs.Places.{lanes_from, place_of};
ghost use Rattle.instance_store.specs.Stored.{free_site};

mod changes;

use crate::index::{cust_places, site_places};
use crate::{CustId, CustRow, LaneRow, NoMemory, SiteId, SiteRow, SiteStatus};
use indexmap::IndexSet;
use location_terms::MAX_AMOUNT;
use std::alloc::Global;
use std::marker::Model;

// A site's row, and what is settled about the site.
#[derive(Drop)]
struct StoredSite {
    row: SiteRow,
    status: SiteStatus,
}

/// Sites that may be opened, customers to be served and the lanes between them, all valid: ids rise
/// from 1 on and are below the next ids, amounts are at most `MAX_AMOUNT`, and the sizes are within
/// the limits. Places count from 0, in the order of the ids.
#[derive(Drop)]
pub struct Instance {
    lo: u32,
    hi: u32,
    next_site: u32,
    next_cust: u32,
    custs: Vec<CustRow>,
    sites: Vec<StoredSite>,
    site_places: IndexSet<u32>,
    cust_places: IndexSet<u32>,
}

impl Model for Instance {
    ghost use Rattle.location_terms.specs.Instance.{Instance as Meaning, instance_code};

    ghost Value = { Meaning };

    ghost coded = { instance_code };

    ghost use Rattle.instance_store.specs.Stored.{stored_instance, IsStored};

    ghost view = { stored_instance };

    ghost invariant = { IsStored };
}

impl Instance {
    /// The instance of these rows, in which each site is free. A plan is to open from `lo` to `hi`
    /// sites, and `next_site` and `next_cust` are the ids of the next ones to come. The ids have to
    /// rise, each row of lanes to have an entry for each customer, and all to be within the limits.
    /// It fails only where memory runs out.
    pub fn from_parts(
        alloc: Global,
        lo: u32,
        hi: u32,
        next_site: u32,
        next_cust: u32,
        custs: Vec<CustRow>,
        sites: Vec<SiteRow>,
    ) -> Result<Instance, NoMemory>
        requires { AreParts lo hi next_site next_cust custs.items sites.items }
        ensures { IfOk result (λ I. I ≡ instance_of lo hi next_site next_cust custs.items sites.items) }
    {
        let site_places = site_places(alloc, &sites)?;
        let cust_places = cust_places(alloc, &custs)?;
        let sites = free_sites(alloc, sites)?;
        Ok(Instance {
            lo,
            hi,
            next_site,
            next_cust,
            custs,
            sites,
            site_places,
            cust_places,
        })
    }

    /// A copy of the instance. It fails only where memory runs out.
    pub fn copied(&self, alloc: Global) -> Result<Instance, NoMemory>
        ensures { IfOk result (λ I. I ≡ self.now) }
    {
        let custs = Vec::from_slice(alloc, &self.custs)?;
        let sites = copied_sites(alloc, &self.sites)?;
        let site_places = self.site_places.clone()?;
        let cust_places = self.cust_places.clone()?;
        Ok(Instance {
            lo: self.lo,
            hi: self.hi,
            next_site: self.next_site,
            next_cust: self.next_cust,
            custs,
            sites,
            site_places,
            cust_places,
        })
    }

    /// The number of sites, which is at least 1.
    pub fn sites(&self) -> usize
        ensures count { result ≡ length self.now.sites }
        ensures valid { IsValid self.now }
    {
        self.sites.len()
    }

    /// The number of customers, which is at least 1.
    pub fn custs(&self) -> usize
        ensures count { result ≡ length self.now.customers }
        ensures valid { IsValid self.now }
    {
        self.custs.len()
    }

    /// The least and the greatest number of sites that a plan opens.
    pub fn count(&self) -> (u32, u32)
        ensures { result ≡ (self.now.lo, self.now.hi) }
    {
        (self.lo, self.hi)
    }

    /// The ids of the next site and of the next customer to come.
    pub fn next_ids(&self) -> (u32, u32)
        ensures { result ≡ (self.now.next_site, self.now.next_customer) }
    {
        (self.next_site, self.next_cust)
    }

    /// The id of the site at place `i`.
    pub fn site_id(&self, i: usize) -> SiteId
        requires { i < length self.now.sites }
        ensures { result ≡ (site_at self.now i).id }
    {
        self.sites[i].row.id
    }

    /// What it costs to open the site at place `i`, in millionths.
    pub fn fixed(&self, i: usize) -> u64
        requires { i < length self.now.sites }
        ensures exact { result ≡ (site_at self.now i).fixed }
        ensures small { result ≤ MAX_AMOUNT }
    {
        self.sites[i].row.fixed
    }

    /// The most demand that the site at place `i` serves, in millionths, and `None` where there is
    /// no limit.
    pub fn cap(&self, i: usize) -> Option<u64>
        requires { i < length self.now.sites }
        ensures exact { result ≡ (site_at self.now i).cap }
        ensures small { IsSmall result }
    {
        self.sites[i].row.cap
    }

    /// What is settled about the site at place `i`.
    pub fn status(&self, i: usize) -> SiteStatus
        requires { i < length self.now.sites }
        ensures { result ≡ (site_at self.now i).status }
    {
        self.sites[i].status
    }

    /// The id of the customer at place `j`.
    pub fn cust_id(&self, j: usize) -> CustId
        requires { j < length self.now.customers }
        ensures { result ≡ (customer_at self.now j).id }
    {
        self.custs[j].id
    }

    /// What the customer at place `j` demands, in millionths.
    pub fn demand(&self, j: usize) -> u64
        requires { j < length self.now.customers }
        ensures exact { result ≡ (customer_at self.now j).demand }
        ensures small { result ≤ MAX_AMOUNT }
    {
        self.custs[j].demand
    }

    /// What it costs to serve the whole customer at place `j` from the site at place `i`, in
    /// millionths, and `None` where there is no lane.
    pub fn lane(&self, i: usize, j: usize) -> Option<u64>
        requires site { i < length self.now.sites }
        requires customer { j < length self.now.customers }
        ensures exact { result ≡ lane self.now (site_at self.now i).id (customer_at self.now j).id }
        ensures small { IsSmall result }
    {
        self.sites[i].row.lanes.get(j)
    }

    /// The lanes from the site at place `i` to all customers, in their order.
    pub fn lanes(&self, i: usize) -> &LaneRow
        requires { i < length self.now.sites }
        ensures exact { result.now ≡ lanes_from self.now (site_at self.now i) }
        ensures each { (j : ℕ) → j < length self.now.customers → slice_index_or result.now j None ≡ lane self.now (site_at self.now i).id (customer_at self.now j).id }
        ensures length { length result.now ≡ length self.now.customers }
        ensures small { AreSmall result.now }
    {
        &self.sites[i].row.lanes
    }

    /// The place of the site of this id, and `None` exactly where there is no such site.
    pub fn site_at(&self, id: SiteId) -> Option<usize>
        ensures exact { result ≡ place_of id (site_ids self.now) }
        ensures found { IfSome result (λ i. (i < length self.now.sites) × ((site_at self.now i).id ≡ id)) }
        ensures known { IsSome result ↔ Contains (site_ids self.now) id }
    {
        self.site_places.get_index_of(&id.number())
    }

    /// The place of the customer of this id, and `None` exactly where there is no such customer.
    pub fn cust_at(&self, id: CustId) -> Option<usize>
        ensures exact { result ≡ place_of id (customer_ids self.now) }
        ensures found { IfSome result (λ j. (j < length self.now.customers) × ((customer_at self.now j).id ≡ id)) }
        ensures known { IsSome result ↔ Contains (customer_ids self.now) id }
    {
        self.cust_places.get_index_of(&id.number())
    }
}

// The rows as they are stored, each site free.
fn free_sites(alloc: Global, rows: Vec<SiteRow>) -> Result<Vec<StoredSite>, NoMemory>
    ensures { IfOk result (λ sites. sites.items ≡ map free_site rows.items) }
{
    let sites = rows
        .into_iter()
        .map(|row| StoredSite {
            row,
            status: SiteStatus::Free,
        })
        .collect(alloc)?;
    Ok(sites)
}

fn copied_sites(alloc: Global, sites: &[StoredSite]) -> Result<Vec<StoredSite>, NoMemory>
    ensures { IfOk result (λ copies. copies.items ≡ sites.now) }
{
    let mut copies = Vec::with_capacity(alloc, sites.len())?;
    for site in sites {
        copies.push(copied_site(alloc, site)?)?;
    }
    Ok(copies)
}

fn copied_site(alloc: Global, site: &StoredSite) -> Result<StoredSite, NoMemory>
    ensures { IfOk result (λ copy. copy ≡ site.now) }
{
    Ok(StoredSite {
        row: SiteRow {
            id: site.row.id,
            fixed: site.row.fixed,
            cap: site.row.cap,
            lanes: site.row.lanes.copied(alloc)?,
        },
        status: site.status,
    })
}

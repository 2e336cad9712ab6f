//! What changes in an instance, by place: one number, or a site or a customer that comes or goes.
ghost use Rattle.std.specs.Prelude.{◌≡◌, ◌<◌, ◌≤◌, length, take, All, IfOk, OnOk, IfErr, OnErr};
ghost use Rattle.location_terms.specs.Instance.{site_at, customer_at, site_ids, customer_ids, AreIds, IsValid};
ghost use Rattle.instance_store.specs.Small.{IsSmall};
ghost use Rattle.instance_store.specs.Columns.{column_in, AreWithout, AreWith};
ghost use Rattle.instance_store.specs.Changes.{with_fixed, with_cap, with_status, with_demand, with_lane_cost, with_count, with_next_ids, without_site, without_customer, with_site_in, with_customer_in, site_row, cust_row, column_of};

use super::{Instance, StoredSite};
use crate::{CustRow, LaneRow, NoMemory, SiteRow, SiteStatus};
use location_terms::{MAX_AMOUNT, MAX_SITES};
use std::alloc::Global;

impl Instance {
    /// Lets the site at place `site` cost so much to open, in millionths. It takes no memory.
    pub fn set_fixed(&mut self, site: usize, cost: u64)
        requires place { site < length self.old.sites }
        requires small { cost ≤ MAX_AMOUNT }
        ensures { self.new ≡ with_fixed self.old (site_at self.old site).id cost }
    {
        self.sites[site].row.fixed = cost;
    }

    /// Lets the site at place `site` serve at most so much demand, in millionths, or any. It takes no
    /// memory.
    pub fn set_cap(&mut self, site: usize, cap: Option<u64>)
        requires place { site < length self.old.sites }
        requires small { IsSmall cap }
        ensures { self.new ≡ with_cap self.old (site_at self.old site).id cap }
    {
        self.sites[site].row.cap = cap;
    }

    /// Settles the site at place `site`: whether it must be open, must be closed, or may be either.
    /// It takes no memory.
    pub fn set_status(&mut self, site: usize, status: SiteStatus)
        requires { site < length self.old.sites }
        ensures { self.new ≡ with_status self.old (site_at self.old site).id status }
    {
        self.sites[site].status = status;
    }

    /// Lets the customer at place `cust` demand so much, in millionths. It takes no memory.
    pub fn set_demand(&mut self, cust: usize, demand: u64)
        requires place { cust < length self.old.customers }
        requires small { demand ≤ MAX_AMOUNT }
        ensures { self.new ≡ with_demand self.old (customer_at self.old cust).id demand }
    {
        self.custs[cust].demand = demand;
    }

    /// Lets the lane from the site at place `site` to the customer at place `cust` cost so much, in
    /// millionths, or takes it away. It takes no memory.
    pub fn set_lane(&mut self, site: usize, cust: usize, cost: Option<u64>)
        requires site { site < length self.old.sites }
        requires customer { cust < length self.old.customers }
        requires small { IsSmall cost }
        ensures { self.new ≡ with_lane_cost self.old (site_at self.old site).id (customer_at self.old cust).id cost }
    {
        self.sites[site].row.lanes.set(cust, cost);
    }

    /// Lets a plan open from `lo` to `hi` sites. It takes no memory.
    pub fn set_count(&mut self, lo: u32, hi: u32)
        requires order { lo ≤ hi }
        requires small { hi ≤ MAX_SITES }
        ensures { self.new ≡ with_count self.old lo hi }
    {
        self.lo = lo;
        self.hi = hi;
    }

    /// Lets the next site and the next customer to come have these ids, which are above all that are
    /// there. It takes no memory.
    pub fn set_next_ids(&mut self, next_site: u32, next_cust: u32)
        requires sites { AreIds (site_ids self.old) next_site }
        requires customers { AreIds (customer_ids self.old) next_cust }
        ensures { self.new ≡ with_next_ids self.old next_site next_cust }
    {
        self.next_site = next_site;
        self.next_cust = next_cust;
    }

    /// Takes the site at place `site` out, and gives it back with its lanes and with what was settled
    /// of it. Another one has to stay. It takes no memory.
    pub fn remove_site(&mut self, site: usize) -> (SiteRow, SiteStatus)
        requires place { site < length self.old.sites }
        requires others { 1 < length self.old.sites }
        ensures rest { self.new ≡ without_site self.old (site_at self.old site).id }
        ensures row { result.0 ≡ site_row self.old (site_at self.old site) }
        ensures status { result.1 ≡ (site_at self.old site).status }
    {
        self.site_places.shift_remove_index(site);
        let gone = self.sites.remove(site);
        (gone.row, gone.status)
    }

    /// Puts a site before that at place `place`, or behind the others, with a lane or none for each
    /// customer. The instance has to stay valid. It fails only where memory runs out, and then leaves
    /// the instance as it was and gives the row back.
    pub fn insert_site(
        &mut self,
        place: usize,
        row: SiteRow,
        status: SiteStatus,
    ) -> Result<(), SiteRow>
        requires place { place ≤ length self.old.sites }
        requires lanes { length row.lanes ≡ length self.old.customers }
        requires valid { IsValid (with_site_in self.old place row status) }
        ensures inserted { OnOk result (self.new ≡ with_site_in self.old place row status) }
        ensures kept { OnErr result (self.new ≡ self.old) }
        ensures back { IfErr result (λ r. r ≡ row) }
    {
        if self
            .site_places
            .shift_insert(place, row.id.number())
            .is_err()
        {
            return Err(row);
        }
        match self.sites.insert(place, StoredSite { row, status }) {
            Ok(()) => Ok(()),
            Err(refused) => {
                self.site_places.shift_remove_index(place);
                Err(refused.value.row)
            }
        }
    }

    /// Takes the customer at place `cust` out, and gives it back with its lanes from the sites in
    /// their order. Another one has to stay. It fails only where memory runs out, and then leaves the
    /// instance as it was.
    pub fn remove_cust(
        &mut self,
        alloc: Global,
        cust: usize,
    ) -> Result<(CustRow, LaneRow), NoMemory>
        requires place { cust < length self.old.customers }
        requires others { 1 < length self.old.customers }
        ensures rest { OnOk result (self.new ≡ without_customer self.old (customer_at self.old cust).id) }
        ensures row { IfOk result (λ r. r.0 ≡ cust_row (customer_at self.old cust)) }
        ensures lanes { IfOk result (λ r. r.1 ≡ column_of self.old (customer_at self.old cust).id) }
        ensures kept { OnErr result (self.new ≡ self.old) }
    {
        let lanes = column_at(alloc, &self.sites, cust)?;
        let gone = self.take_cust(cust);
        Ok((gone, lanes))
    }

    /// Takes the customer at place `cust` out, and gives it back without its lanes. Another one has to
    /// stay. It takes no memory.
    pub fn take_cust(&mut self, cust: usize) -> CustRow
        requires place { cust < length self.old.customers }
        requires others { 1 < length self.old.customers }
        ensures rest { self.new ≡ without_customer self.old (customer_at self.old cust).id }
        ensures row { result ≡ cust_row (customer_at self.old cust) }
    {
        let rows = self.sites.len();
        drop_column(&mut self.sites, rows, cust);
        self.cust_places.shift_remove_index(cust);
        self.custs.remove(cust)
    }

    /// Puts a customer before that at place `place`, or behind the others, with a lane or none from
    /// each site. The instance has to stay valid. It fails only where memory runs out, and then leaves
    /// the instance as it was.
    pub fn insert_cust(
        &mut self,
        place: usize,
        row: CustRow,
        lanes: &LaneRow,
    ) -> Result<(), NoMemory>
        requires place { place ≤ length self.old.customers }
        requires lanes { length lanes.now ≡ length self.old.sites }
        requires valid { IsValid (with_customer_in self.old place row lanes.now) }
        ensures inserted { OnOk result (self.new ≡ with_customer_in self.old place row lanes.now) }
        ensures kept { OnErr result (self.new ≡ self.old) }
    {
        let id = row.id.number();
        self.custs.insert(place, row)?;
        if self.cust_places.shift_insert(place, id).is_err() {
            self.custs.remove(place);
            return Err(NoMemory);
        }
        if put_column(&mut self.sites, place, lanes).is_err() {
            self.cust_places.shift_remove_index(place);
            self.custs.remove(place);
            return Err(NoMemory);
        }
        Ok(())
    }
}

// The lanes to the customer at place `cust`, from the sites in their order.
fn column_at(alloc: Global, sites: &[StoredSite], cust: usize) -> Result<LaneRow, NoMemory>
    requires { All (λ s. cust < length s.row.lanes) sites.now }
    ensures { IfOk result (λ column. column ≡ column_in sites.now cust) }
{
    let mut column = LaneRow::with_capacity(alloc, sites.len())?;
    for site in sites {
        column.push(site.row.lanes.get(cust))?;
    }
    Ok(column)
}

// Takes the lane to the customer at place `cust` out of each of the first `n` rows.
fn drop_column(sites: &mut [StoredSite], n: usize, cust: usize)
    requires within { n ≤ length sites.old }
    requires place { All (λ s. cust < length s.row.lanes) (take n sites.old) }
    ensures { AreWithout n cust sites.old sites.new }
{
    for i in 0..n {
        sites[i].row.lanes.remove(cust);
    }
}

// Puts these lanes to a customer before those to the one at place `place`. It fails only where memory
// runs out, and then leaves the rows as they were.
fn put_column(sites: &mut [StoredSite], place: usize, lanes: &LaneRow) -> Result<(), NoMemory>
    requires lanes { length lanes.now ≡ length sites.old }
    requires place { All (λ s. place ≤ length s.row.lanes) sites.old }
    ensures put { OnOk result (AreWith (length sites.old) place lanes.now sites.old sites.new) }
    ensures kept { OnErr result (sites.new ≡ sites.old) }
{
    for i in 0..sites.len() {
        if sites[i].row.lanes.insert(place, lanes.get(i)).is_err() {
            drop_column(sites, i, place);
            return Err(NoMemory);
        }
    }
    Ok(())
}

ghost use Rattle.std.specs.Prelude.{◌≡◌, ℕ, ◌+◌, ◌<◌, ◌==◌, ◌↔◌, map, length, find, option_map, Contains, IsTrue, IfOk, SomeIff, slice_index, slice_index_or};
ghost use Rattle.std.specs.List.Sorted.{IsStrictlyIncreasing};
ghost use Rattle.location_terms.specs.Carried.{carried_plan};
ghost use Rattle.location_terms.specs.Plan.{IsPlan};
ghost use Rattle.plan_meaning.specs.Plan.{plan_of, serve_at};

use crate::carried::{carried_places, carried_serves, carried_sites};
use instance_store::{Instance, NoMemory};
use location_terms::{CustId, SiteId};
use std::alloc::Global;
use std::marker::Model;

/// Which sites are open, and from which site each customer is served.
///
/// Sites and customers are named by their ids, and stand in the order of these.
#[derive(Debug, Drop)]
pub struct Plan {
    sites: Vec<SiteId>,
    serves: Vec<(CustId, SiteId)>,
}

impl Model for Plan {
    ghost use Rattle.location_terms.specs.Plan.{Plan, plan_code, IsPlan};
    ghost use Rattle.plan_meaning.specs.Plan.{plan_of};

    ghost Value = { Plan };

    ghost coded = { plan_code };

    ghost view = { λ p. plan_of p.sites.items p.serves.items };

    ghost invariant = { λ p. IsPlan (plan_of p.sites.items p.serves.items) };
}

impl Plan {
    /// The plan that opens these sites and serves each customer from the site beside it.
    ///
    /// `None` where the sites or the customers do not stand once each, in the order of their ids.
    pub fn new(sites: Vec<SiteId>, serves: Vec<(CustId, SiteId)>) -> Option<Plan>
        ensures { let P = plan_of sites.items serves.items in SomeIff result (IsPlan P) P }
    {
        if sites_rise(&sites) && customers_rise(&serves) {
            Some(Plan { sites, serves })
        } else {
            None
        }
    }

    /// The number of open sites.
    pub fn site_count(&self) -> usize
        ensures count { result ≡ length self.now.sites }
        ensures plan { IsPlan self.now }
    {
        self.sites.len()
    }

    /// The id of the open site at place `k`.
    pub fn site(&self, k: usize) -> SiteId
        requires { k < length self.now.sites }
        ensures { result ≡ slice_index self.now.sites k }
    {
        self.sites[k]
    }

    /// The number of customers that are served.
    pub fn serve_count(&self) -> usize
        ensures count { result ≡ length self.now.serves }
        ensures plan { IsPlan self.now }
    {
        self.serves.len()
    }

    /// The id of the customer at place `k`, and of the site that serves it.
    pub fn serve(&self, k: usize) -> (CustId, SiteId)
        requires { k < length self.now.serves }
        ensures { result ≡ serve_at self.now k }
    {
        self.serves[k]
    }

    /// Whether the plan opens the site.
    pub fn opens(&self, id: SiteId) -> bool
        ensures { IsTrue result ↔ Contains self.now.sites id }
    {
        self.sites.binary_search(&id).is_ok()
    }

    /// The site that serves the customer, and `None` where the plan doesn't serve it.
    pub fn server(&self, id: CustId) -> Option<SiteId>
        ensures plan { IsPlan self.now }
        ensures exact { result ≡ option_map (λ v. v.1) (find (λ v. v.0 == id) self.now.serves) }
    {
        let k = self.serves.partition_point(|serve| serve.0 < id);
        let (cust, site) = *self.serves.get(k)?;
        if cust == id { Some(site) } else { None }
    }

    /// The plan carried over to an instance that was edited: of its open sites those that are still
    /// there and that no status closes, and those that must be open; and each customer served as
    /// before, where that is possible, else over its cheapest lane from an open site, and left out
    /// where there is no such lane. Nothing is asked of capacities and of the number of open sites.
    /// It fails only where memory runs out.
    pub fn carried(&self, alloc: Global, inst: &Instance) -> Result<Plan, NoMemory>
        ensures { IfOk result (λ P. P ≡ carried_plan inst.now self.now) }
    {
        let opened = carried_places(alloc, inst, self)?;
        let serves = carried_serves(alloc, inst, self, &opened)?;
        let sites = carried_sites(alloc, &opened)?;
        Ok(Plan { sites, serves })
    }
}

// Whether each site's id is above the one before it.
fn sites_rise(sites: &[SiteId]) -> bool
    ensures { IsTrue result ↔ IsStrictlyIncreasing sites.now }
{
    for k in 1..sites.len() {
        if sites[k - 1].number() >= sites[k].number() {
            return false;
        }
    }
    true
}

// Whether each customer's id is above the one before it.
fn customers_rise(serves: &[(CustId, SiteId)]) -> bool
    ensures { IsTrue result ↔ IsStrictlyIncreasing (map (λ v. v.0) serves.now) }
{
    for k in 1..serves.len() {
        if serves[k - 1].0.number() >= serves[k].0.number() {
            return false;
        }
    }
    true
}

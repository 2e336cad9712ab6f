//! Sets of sites that cost less, found by opening, closing and exchanging one free site at a time where
//! no site has a capacity. A set is only proposed here: what is packed for it shows what it costs.
ghost use Rattle.std.specs.Prelude.{◌≡◌, length};
ghost use Rattle.lane_order.specs.Order.{IsOrderOf};

use crate::changes::{Change, Count, best_change, best_single, open_count};
use crate::chosen::is_free;
use crate::exchanges::{look_anew, mark_all};
use crate::prospects::{Nearest, Prospect};
use crate::serving::{close, open, serve_all};
use assignment_search::Assignment;
use dual_value::PreparedBox;
use instance_store::{Instance, NoMemory, SiteId};
use lane_order::LaneOrder;
use std::alloc::Global;

// The most steps of a search. Each makes a change or looks at all exchanges.
const MAX_STEPS: usize = 20_000;

/// The arrays in which sets of open sites are searched. They are made once and used again, for boxes of
/// any instance, and grow where they are too short for one.
#[derive(Drop)]
pub struct LocalSearch {
    sites: Vec<Prospect>,
    custs: Vec<Nearest>,
    /// Where some site has a capacity.
    pub(crate) assignment: Assignment,
}

impl LocalSearch {
    /// Arrays for an instance of this size. It fails only where memory runs out.
    pub fn of(alloc: Global, inst: &Instance) -> Result<LocalSearch, NoMemory> {
        Ok(LocalSearch {
            sites: vec![in alloc; Prospect::closed(); inst.sites()]?,
            custs: vec![in alloc; Nearest::none(0); inst.custs()]?,
            assignment: Assignment::none(alloc),
        })
    }

    /// Searches from the set of the free sites that are flagged, by place, and of those that are opened in
    /// the box, as if no site had a capacity and each lane of an open site were allowed. It fails only
    /// where memory runs out.
    pub(crate) fn search(
        &mut self,
        boxed: &PreparedBox,
        order: &LaneOrder,
        flags: &[bool],
    ) -> Result<(), NoMemory>
        requires { IsOrderOf order.now boxed.now.instance }
    {
        let inst = boxed.instance();
        self.sites.resize(inst.sites(), Prospect::closed())?;
        self.custs.resize(inst.custs(), Nearest::none(0))?;
        start(boxed, flags, &mut self.sites);
        serve_all(order, &mut self.sites, &mut self.custs);
        improve(boxed, order, &mut self.sites, &mut self.custs);
        Ok(())
    }

    /// What the set costs to which the last search came, in millionths.
    pub(crate) fn cost(&self) -> u64 {
        opening_cost(&self.sites).saturating_add(serving_cost(&self.custs))
    }

    /// The sites of the instance that are open in that set. It fails only where memory runs out.
    pub(crate) fn open_sites(
        &self,
        alloc: Global,
        inst: &Instance,
    ) -> Result<Vec<SiteId>, NoMemory> {
        open_ids(alloc, inst, &self.sites)
    }
}

fn start(boxed: &PreparedBox, flags: &[bool], sites: &mut [Prospect])
    requires { length sites.old ≡ length boxed.now.instance.sites }
    ensures { length sites.new ≡ length sites.old }
{
    for site in 0..sites.len() {
        let is_free = is_free(boxed, site);
        let is_flagged = site < flags.len() && flags[site];
        let mut prospect = Prospect::closed();
        prospect.is_free = is_free;
        prospect.is_open = boxed.is_opened(site) || (is_free && is_flagged);
        prospect.fixed = boxed.instance().fixed(site);
        sites[site] = prospect;
    }
}

// Changes the set while that saves. Exchanges are looked at anew where a change touched their site's
// customers, and once more at all sites where no other change saves.
fn improve(boxed: &PreparedBox, order: &LaneOrder, sites: &mut [Prospect], custs: &mut [Nearest])
    requires order { IsOrderOf order.now boxed.now.instance }
    requires sites { length sites.old ≡ length boxed.now.instance.sites }
    requires custs { length custs.old ≡ length boxed.now.instance.customers }
    ensures sites { length sites.new ≡ length sites.old }
    ensures custs { length custs.new ≡ length custs.old }
{
    let mut all_known = true;
    for step in 0..MAX_STEPS {
        let count = count_of(boxed, sites);
        let mut change = best_single(sites, &count);
        if change.is_none() {
            look_anew(order, sites, custs, step);
            change = best_change(sites, &count);
        }
        match change {
            Some(change) => {
                make(boxed, order, sites, custs, &change);
                all_known = false;
            }
            None => {
                if all_known {
                    return;
                }
                mark_all(sites);
                all_known = true;
            }
        }
    }
}

fn count_of(boxed: &PreparedBox, sites: &[Prospect]) -> Count {
    let (lo, hi) = boxed.instance().count();
    Count {
        open: open_count(sites),
        lo: lo as usize,
        hi: hi as usize,
    }
}

fn make(
    boxed: &PreparedBox,
    order: &LaneOrder,
    sites: &mut [Prospect],
    custs: &mut [Nearest],
    change: &Change,
)
    requires order { IsOrderOf order.now boxed.now.instance }
    requires sites { length sites.old ≡ length boxed.now.instance.sites }
    requires custs { length custs.old ≡ length boxed.now.instance.customers }
    ensures sites { length sites.new ≡ length sites.old }
    ensures custs { length custs.new ≡ length custs.old }
{
    if let Some(site) = change.opens {
        if site < sites.len() {
            open(boxed, order, sites, custs, site);
        }
    }
    if let Some(site) = change.closes {
        if site < sites.len() {
            close(order, sites, custs, site);
        }
    }
}

fn opening_cost(sites: &[Prospect]) -> u64 {
    let mut cost = 0u64;
    for site in sites {
        if site.is_open {
            cost = cost.saturating_add(site.fixed);
        }
    }
    cost
}

fn serving_cost(custs: &[Nearest]) -> u64 {
    let mut cost = 0u64;
    for near in custs {
        cost = cost.saturating_add(near.cost);
    }
    cost
}

fn open_ids(alloc: Global, inst: &Instance, sites: &[Prospect]) -> Result<Vec<SiteId>, NoMemory> {
    let mut ids = Vec::new(alloc);
    for site in 0..inst.sites() {
        if site < sites.len() && sites[site].is_open {
            ids.push(inst.site_id(site))?;
        }
    }
    Ok(ids)
}

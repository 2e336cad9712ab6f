//! Sites and customers while a search assigns them.

use crate::assigned::{Service, SiteRoom, Worth, serve, whole_room, worth_of};
use crate::lane_table::LaneTable;
use crate::opening::{Change, make_change};
use crate::promise::{look_around, may_be_better};
use crate::regret::assign;
use crate::settling::settle;
use dual_value::{PreparedBox, SiteState};
use instance_store::{Instance, NoMemory};
use std::alloc::Global;

/// Sites, customers, and which site serves each of these.
#[derive(Drop)]
pub(crate) struct State {
    sites: Vec<SiteRoom>,
    custs: Vec<Service>,
    // The least and the greatest number of open sites.
    lo: usize,
    hi: usize,
}

impl State {
    /// One without sites and customers.
    pub(crate) fn none(alloc: Global) -> State {
        State {
            sites: Vec::new(alloc),
            custs: Vec::new(alloc),
            lo: 0,
            hi: 0,
        }
    }

    /// Takes the sites and the customers of the box, none of whom is served. Open are the free sites that are
    /// flagged, by place, and those that are opened in the box. It fails only where memory runs out.
    pub(crate) fn take(&mut self, boxed: &PreparedBox, flags: &[bool]) -> Result<(), NoMemory> {
        let inst = boxed.instance();
        let (lo, hi) = inst.count();
        self.lo = lo as usize;
        self.hi = hi as usize;
        take_sites(boxed, flags, &mut self.sites)?;
        take_custs(inst, &mut self.custs)?;
        Ok(())
    }

    /// Becomes what the other one is, of the same sites and customers.
    pub(crate) fn copy_from(&mut self, other: &State) {
        if self.sites.len() == other.sites.len() {
            self.sites.copy_from_slice(&other.sites);
        }
        if self.custs.len() == other.custs.len() {
            self.custs.copy_from_slice(&other.custs);
        }
    }

    /// Serves each customer from the site that is named for it, by place, where there is room.
    pub(crate) fn seat(&mut self, table: &LaneTable, named: &[usize]) {
        for cust in 0..self.custs.len().min(named.len()) {
            let site = named[cust];
            if site < self.sites.len() && self.sites[site].has_room(self.custs[cust].demand) {
                if let Some(cost) = table.cost(cust, site) {
                    serve(&mut self.sites, &mut self.custs, cust, site, cost);
                }
            }
        }
    }

    /// Assigns all customers whom no site serves.
    pub(crate) fn assign(&mut self, table: &LaneTable) {
        let pushes = self.custs.len().saturating_mul(4);
        assign(table, &mut self.sites, &mut self.custs, pushes);
        settle(table, &mut self.sites, &mut self.custs);
        look_around(table, &self.sites, &mut self.custs);
    }

    /// Makes the change.
    pub(crate) fn make(&mut self, table: &LaneTable, change: &Change) {
        make_change(table, &mut self.sites, &mut self.custs, change);
        look_around(table, &self.sites, &mut self.custs);
    }

    /// Moves customers and exchanges their sites while that saves.
    pub(crate) fn settle(&mut self, table: &LaneTable) {
        settle(table, &mut self.sites, &mut self.custs);
    }

    /// Whether the change can be made, and may be better than what is worth so much.
    pub(crate) fn promises(&self, table: &LaneTable, change: &Change, worth: &Worth) -> bool {
        self.lets(change) && may_be_better(table, &self.sites, &self.custs, change, worth)
    }

    /// Whether the box lets the site be opened and closed.
    pub(crate) fn lets(&self, change: &Change) -> bool {
        change.site < self.sites.len() && self.sites[change.site].is_free
    }

    /// What it is worth.
    pub(crate) fn worth(&self) -> Worth {
        worth_of(&self.sites, &self.custs, self.lo, self.hi)
    }

    /// The number of sites.
    pub(crate) fn sites(&self) -> usize {
        self.sites.len()
    }

    /// Whether the site at place `site` is open.
    pub(crate) fn is_open(&self, site: usize) -> bool {
        site < self.sites.len() && self.sites[site].is_open
    }

    /// The place of the site that serves the customer at place `cust`.
    pub(crate) fn site_of(&self, cust: usize) -> Option<usize> {
        if cust < self.custs.len() {
            return self.custs[cust].site;
        }
        None
    }
}

fn take_sites(
    boxed: &PreparedBox,
    flags: &[bool],
    sites: &mut Vec<SiteRoom>,
) -> Result<(), NoMemory> {
    let inst = boxed.instance();
    sites.clear();
    for site in 0..inst.sites() {
        let is_free = match boxed.state(site) {
            SiteState::Free => true,
            SiteState::Opened | SiteState::Closed => false,
        };
        let is_flagged = site < flags.len() && flags[site];
        let whole = whole_room(inst.cap(site));
        sites.push(SiteRoom {
            is_free,
            is_open: boxed.is_opened(site) || (is_free && is_flagged),
            fixed: inst.fixed(site),
            whole,
            left: whole,
        })?;
    }
    Ok(())
}

fn take_custs(inst: &Instance, custs: &mut Vec<Service>) -> Result<(), NoMemory> {
    custs.clear();
    for cust in 0..inst.custs() {
        custs.push(Service::none(inst.demand(cust)))?;
    }
    Ok(())
}

//! A search for open sites and for an assignment of each whole customer to one of them, where sites have
//! capacities. What is found is only proposed.
use crate::assigned::Worth;
use crate::lane_table::LaneTable;
use crate::opening::Change;
use crate::state::State;
use dual_value::PreparedBox;
use instance_store::NoMemory;
use std::alloc::Global;

// The most changes of the open sites in a search.
const MAX_CHANGES: usize = 2_000;

// How many lanes all changes that are tried may look at, about.
const MAX_LOOKS: usize = 4_000_000;

// How many changes may be tried whatever the size.
const LEAST_TRIES: usize = 100;

/// The arrays of the search. They are made once and used again, for boxes of any instance.
#[derive(Drop)]
pub struct Assignment {
    table: LaneTable,
    now: State,
    // After a change, and after a further one.
    tried: State,
    further: State,
    // How many changes may still be tried.
    tries: usize,
}

impl Assignment {
    /// Arrays without sites and customers.
    pub fn none(alloc: Global) -> Assignment {
        Assignment {
            table: LaneTable::none(alloc),
            now: State::none(alloc),
            tried: State::none(alloc),
            further: State::none(alloc),
            tries: 0,
        }
    }

    /// Searches from the set of the free sites that are flagged, by place, and of those that are opened in
    /// the box. It fails only where memory runs out.
    pub(crate) fn search(&mut self, boxed: &PreparedBox, flags: &[bool]) -> Result<(), NoMemory> {
        self.table.fill(boxed)?;
        self.now.take(boxed, flags)?;
        self.tried.take(boxed, flags)?;
        self.further.take(boxed, flags)?;
        self.tries = MAX_LOOKS / self.table.len().max(1) + LEAST_TRIES;
        self.now.assign(&self.table);
        self.improve();
        Ok(())
    }

    /// Assigns the customers to sites that are opened in the box, each to the one that is named for it, by
    /// place, as far as there is room. It fails only where memory runs out.
    pub(crate) fn seat(&mut self, boxed: &PreparedBox, named: &[usize]) -> Result<(), NoMemory> {
        self.table.fill(boxed)?;
        self.now.take(boxed, &[])?;
        self.now.seat(&self.table, named);
        self.now.assign(&self.table);
        Ok(())
    }

    /// Whether the site at place `site` is open.
    pub(crate) fn is_open(&self, site: usize) -> bool {
        self.now.is_open(site)
    }

    /// The place of the site that serves the customer at place `cust`.
    pub(crate) fn site_of(&self, cust: usize) -> Option<usize> {
        self.now.site_of(cust)
    }

    // Changes the open sites while that is better: a single one first, and several where no single change is.
    fn improve(&mut self) {
        for _ in 0..MAX_CHANGES {
            if !self.make_single() && !self.make_several() {
                return;
            }
            self.now.settle(&self.table);
        }
    }

    // Makes the best change of a single site, where one is better.
    fn make_single(&mut self) -> bool {
        let mut best = self.now.worth();
        let mut is_better = false;
        for site in 0..self.now.sites() {
            if let Some(worth) = self.single(site, &best) {
                best = worth;
                is_better = true;
                self.further.copy_from(&self.tried);
            }
        }
        if is_better {
            self.now.copy_from(&self.further);
        }
        is_better
    }

    // Tries the change of this site: what it is then worth, where that is better than what is known.
    fn single(&mut self, site: usize, best: &Worth) -> Option<Worth> {
        let change = Change {
            site,
            opens: !self.now.is_open(site),
        };
        if !self.now.promises(&self.table, &change, best) || !self.may_try() {
            return None;
        }
        self.tried.copy_from(&self.now);
        self.tried.make(&self.table, &change);
        let worth = self.tried.worth();
        if worth < *best { Some(worth) } else { None }
    }

    // Makes the first changes of several sites that are better together.
    fn make_several(&mut self) -> bool {
        for site in 0..self.now.sites() {
            if self.go_on_from(site) {
                return true;
            }
        }
        false
    }

    // Opens this site, whatever that costs, and closes others while that is better; or the other way round.
    // It is kept where all together is better.
    fn go_on_from(&mut self, site: usize) -> bool {
        let opens = !self.now.is_open(site);
        let change = Change { site, opens };
        if !self.now.lets(&change) || !self.may_try() {
            return false;
        }
        self.tried.copy_from(&self.now);
        self.tried.make(&self.table, &change);
        for other in 0..self.now.sites() {
            if other != site && self.tried.is_open(other) == opens {
                self.go_further(&Change {
                    site: other,
                    opens: !opens,
                });
            }
        }
        self.tried.settle(&self.table);
        if self.tried.worth() >= self.now.worth() {
            return false;
        }
        self.now.copy_from(&self.tried);
        true
    }

    // Makes one change more of what is tried, where that is better.
    fn go_further(&mut self, change: &Change) {
        let before = self.tried.worth();
        if !self.tried.promises(&self.table, change, &before) || !self.may_try() {
            return;
        }
        self.further.copy_from(&self.tried);
        self.further.make(&self.table, change);
        if self.further.worth() < before {
            self.tried.copy_from(&self.further);
        }
    }

    // Whether one change more may be tried, which is then counted.
    fn may_try(&mut self) -> bool {
        let may = self.tries > 0;
        self.tries = self.tries.saturating_sub(1);
        may
    }
}

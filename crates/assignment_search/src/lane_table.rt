//! The lanes that a box allows, by places, so that what one costs is looked up at once.
ghost use Rattle.std.specs.Prelude.{◌<◌, length};

use dual_value::PreparedBox;
use instance_store::NoMemory;
use std::alloc::Global;

// No lane costs as much: the box allows none there.
const BARRED: u64 = u64::MAX;

/// What each lane costs that a box allows. It is made once and filled for a box after the other.
#[derive(Drop)]
pub(crate) struct LaneTable {
    // The lanes of the first customer by site, then those of the second one, and so on.
    costs: Vec<u64>,
    sites: usize,
}

impl LaneTable {
    /// A table without lanes.
    pub(crate) fn none(alloc: Global) -> LaneTable {
        LaneTable {
            costs: Vec::new(alloc),
            sites: 0,
        }
    }

    /// Takes the lanes that the box allows, in the place of those before. It fails only where memory runs
    /// out.
    pub(crate) fn fill(&mut self, boxed: &PreparedBox) -> Result<(), NoMemory> {
        self.sites = boxed.instance().sites();
        self.costs.clear();
        for cust in 0..boxed.instance().custs() {
            push_lanes(boxed, cust, &mut self.costs)?;
        }
        Ok(())
    }

    /// The number of pairs of a customer and a site.
    pub(crate) fn len(&self) -> usize {
        self.costs.len()
    }

    /// What it costs to serve the customer from the site, by their places, in millionths, and `None`
    /// where the box doesn't let it.
    #[inline(always)]
    pub(crate) fn cost(&self, cust: usize, site: usize) -> Option<u64> {
        let place = cust.wrapping_mul(self.sites).wrapping_add(site);
        if place < self.costs.len() && self.costs[place] != BARRED {
            return Some(self.costs[place]);
        }
        None
    }
}

fn push_lanes(boxed: &PreparedBox, cust: usize, costs: &mut Vec<u64>) -> Result<(), NoMemory>
    requires { cust < length boxed.now.instance.customers }
{
    for site in 0..boxed.instance().sites() {
        costs.push(allowed_cost(boxed, site, cust).unwrap_or(BARRED))?;
    }
    Ok(())
}

fn allowed_cost(boxed: &PreparedBox, site: usize, cust: usize) -> Option<u64>
    requires site { site < length boxed.now.instance.sites }
    requires customer { cust < length boxed.now.instance.customers }
{
    let inst = boxed.instance();
    match inst.lane(site, cust) {
        Some(cost) if boxed.admits(site, cust, inst.demand(cust)) => Some(cost),
        _ => None,
    }
}

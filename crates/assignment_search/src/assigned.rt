//! What a search for an assignment knows of each site and of each customer, by their places.
ghost use Rattle.std.specs.Prelude.{◌≡◌, length};

use crate::lane_table::LaneTable;

// Of a site without a capacity: all demands together are less.
const NO_LIMIT: u64 = u64::MAX;

/// A site and the room that is left there.
#[derive(Clone, Copy)]
pub(crate) struct SiteRoom {
    /// Whether the box lets it be opened and closed.
    pub(crate) is_free: bool,
    pub(crate) is_open: bool,
    /// Its fixed cost, in millionths.
    pub(crate) fixed: u64,
    /// How much demand it can serve, in millionths.
    pub(crate) whole: u64,
    /// How much more, in millionths.
    pub(crate) left: u64,
}

/// A customer and the site that serves it.
#[derive(Clone, Copy)]
pub(crate) struct Service {
    /// In millionths.
    pub(crate) demand: u64,
    pub(crate) site: Option<usize>,
    /// What its lane costs, in millionths.
    pub(crate) cost: u64,
    /// While no site serves it, which ones could.
    pub(crate) choice: Choice,
    /// How often it lost its site to another customer.
    pub(crate) pushed: u32,
    /// The open sites at the least costs, full or not.
    pub(crate) nearest: Choice,
}

/// The two sites that can serve a customer at the least costs, in millionths.
#[derive(Clone, Copy)]
pub(crate) struct Choice {
    pub(crate) site: Option<usize>,
    pub(crate) cost: u64,
    pub(crate) second_site: Option<usize>,
    pub(crate) second: u64,
}

/// What an assignment is worth: less is better, and what is not to be comes before what it costs.
#[derive(Clone, Copy, PartialEq, Eq, PartialOrd, Ord)]
pub(crate) struct Worth {
    /// How many open sites are too few or too many.
    pub(crate) outside: usize,
    /// How many customers no site serves.
    pub(crate) unserved: usize,
    /// In millionths.
    pub(crate) cost: u64,
}

impl SiteRoom {
    /// A site of which nothing is known.
    pub(crate) fn closed() -> SiteRoom {
        SiteRoom {
            is_free: false,
            is_open: false,
            fixed: 0,
            whole: 0,
            left: 0,
        }
    }

    /// Whether it is open and has room for the demand.
    #[inline(always)]
    pub(crate) fn has_room(&self, demand: u64) -> bool {
        self.is_open && self.left >= demand
    }
}

impl Service {
    /// A customer with this demand whom no site serves.
    pub(crate) fn none(demand: u64) -> Service {
        Service {
            demand,
            site: None,
            cost: 0,
            choice: Choice::none(),
            pushed: 0,
            nearest: Choice::none(),
        }
    }

    /// Whether no site serves it, and one has room for it or others may be pushed out.
    pub(crate) fn waits(&self, may_push: bool) -> bool {
        self.site.is_none() && (may_push || self.choice.site.is_some())
    }
}

impl Choice {
    pub(crate) fn none() -> Choice {
        Choice {
            site: None,
            cost: u64::MAX,
            second_site: None,
            second: u64::MAX,
        }
    }

    /// With one more site, from which the customer is served at this cost.
    #[inline(always)]
    pub(crate) fn with(&self, site: usize, cost: u64) -> Choice {
        if cost < self.cost {
            return Choice {
                site: Some(site),
                cost,
                second_site: self.site,
                second: self.cost,
            };
        }
        if cost < self.second {
            return Choice {
                site: self.site,
                cost: self.cost,
                second_site: Some(site),
                second: cost,
            };
        }
        *self
    }

    /// How much is lost where the cheaper site is full, in millionths.
    pub(crate) fn regret(&self) -> u64 {
        self.second.saturating_sub(self.cost)
    }

    /// Whether the site is one of the two.
    pub(crate) fn has(&self, site: usize) -> bool {
        self.site == Some(site) || self.second_site == Some(site)
    }
}

/// The room at a site with this capacity that serves nobody, in millionths.
pub(crate) fn whole_room(cap: Option<u64>) -> u64 {
    cap.unwrap_or(NO_LIMIT)
}

/// The two open sites with room that serve the customer at the least costs, apart from one.
pub(crate) fn choice_of(
    table: &LaneTable,
    sites: &[SiteRoom],
    cust: usize,
    demand: u64,
    except: Option<usize>,
) -> Choice {
    let mut choice = Choice::none();
    for site in 0..sites.len() {
        if sites[site].has_room(demand) && except != Some(site) {
            if let Some(cost) = table.cost(cust, site) {
                choice = choice.with(site, cost);
            }
        }
    }
    choice
}

/// Serves the customer from the site at this cost.
pub(crate) fn serve(
    sites: &mut [SiteRoom],
    custs: &mut [Service],
    cust: usize,
    site: usize,
    cost: u64,
)
    ensures sites { length sites.new ≡ length sites.old }
    ensures custs { length custs.new ≡ length custs.old }
{
    if cust < custs.len() && site < sites.len() {
        sites[site].left = sites[site].left.wrapping_sub(custs[cust].demand);
        custs[cust].site = Some(site);
        custs[cust].cost = cost;
    }
}

/// Takes the customer's site from it.
pub(crate) fn release(sites: &mut [SiteRoom], custs: &mut [Service], cust: usize)
    ensures sites { length sites.new ≡ length sites.old }
    ensures custs { length custs.new ≡ length custs.old }
{
    if cust >= custs.len() {
        return;
    }
    if let Some(site) = custs[cust].site {
        if site < sites.len() {
            sites[site].left = sites[site].left.wrapping_add(custs[cust].demand);
        }
        custs[cust].site = None;
        custs[cust].cost = 0;
    }
}

/// What the assignment is worth where from `lo` to `hi` sites may be open.
pub(crate) fn worth_of(sites: &[SiteRoom], custs: &[Service], lo: usize, hi: usize) -> Worth {
    let mut open = 0usize;
    let mut cost = 0u64;
    for site in sites {
        if site.is_open {
            open = open.saturating_add(1);
            cost = cost.saturating_add(site.fixed);
        }
    }
    let (unserved, lanes) = lanes_worth(custs);
    Worth {
        outside: lo.saturating_sub(open).max(open.saturating_sub(hi)),
        unserved,
        cost: cost.saturating_add(lanes),
    }
}

// How many customers no site serves, and what the lanes of the others cost together.
fn lanes_worth(custs: &[Service]) -> (usize, u64) {
    let mut unserved = 0usize;
    let mut cost = 0u64;
    for cust in custs {
        if cust.site.is_none() {
            unserved = unserved.saturating_add(1);
        }
        cost = cost.saturating_add(cust.cost);
    }
    (unserved, cost)
}

/// What all customers demand together, in millionths.
pub(crate) fn demand_of(custs: &[Service]) -> u64 {
    let mut demand = 0u64;
    for cust in custs {
        demand = demand.saturating_add(cust.demand);
    }
    demand
}

/// How much demand the open sites can serve together, in millionths.
pub(crate) fn open_room(sites: &[SiteRoom]) -> u64 {
    let mut room = 0u64;
    for site in sites {
        if site.is_open {
            room = room.saturating_add(site.whole);
        }
    }
    room
}

//! A set of so many sites that can serve all customers, sought by exchanges: the site goes without which the least weight
//! is left unserved, and one comes in that can serve a customer who is left. Whoever is left weighs more from then on
//! (row weighting: Gao, Yao, Weise and Li, European Journal of Operational Research 246, 2015).
ghost use Rattle.std.specs.Prelude.{◌≡◌, length};

use dual_value::{PreparedBox, SiteState};
use instance_store::{Instance, NoMemory};
use lane_order::{LaneOrder, PlacedLane};
use std::alloc::Global;

// The most exchanges. On networks of 100 to 900 vertices each set that was found took at most a fourth of them.
const MAX_TURNS: u32 = 5_000;

// The numbers that draw customers are those of a linear congruence modulo 2^64 (Knuth's).
const FACTOR: u64 = 6_364_136_223_846_793_005;

const SUMMAND: u64 = 1_442_695_040_888_963_407;

/// Flags at most so many sites, by place, that can serve all customers in the box, where they are found. That none are says
/// nothing of the box. It fails only where memory runs out.
pub(crate) fn few_sites(
    alloc: Global,
    boxed: &PreparedBox<'_>,
    order: &LaneOrder,
    most: usize,
) -> Result<Option<Vec<bool>>, NoMemory> {
    let mut exchanges = Exchanges::of(alloc, boxed)?;
    if !exchanges.seek(boxed, order, most)? {
        return Ok(None);
    }
    Ok(Some(exchanges.flags(alloc)?))
}

// A set of open sites, and which customers it can serve. Sites and customers are known by their places.
#[derive(Drop)]
struct Exchanges {
    sites: Vec<Chosen>,
    custs: Vec<Served>,
    // The customers whom no open site can serve.
    left: Vec<usize>,
    // What decides between sites: see `fill_losses` and `fill_wants`.
    worths: Vec<u64>,
    // The site that came in last.
    last: Option<usize>,
    drawn: u64,
}

#[derive(Clone, Copy)]
struct Chosen {
    is_open: bool,
    // In which turn it came or went.
    turn: u32,
}

// How many open sites can serve a customer, and what their places sum up to: where it is one, this is its place.
#[derive(Clone, Copy)]
struct Served {
    sites: u32,
    sum: usize,
    weight: u64,
}

impl Exchanges {
    // With the sites that are opened in the box. It fails only where memory runs out.
    fn of(alloc: Global, boxed: &PreparedBox<'_>) -> Result<Exchanges, NoMemory> {
        let inst = boxed.instance();
        let closed = Chosen {
            is_open: false,
            turn: 0,
        };
        let unserved = Served {
            sites: 0,
            sum: 0,
            weight: 1,
        };
        let mut exchanges = Exchanges {
            sites: vec![in alloc; closed; inst.sites()]?,
            custs: vec![in alloc; unserved; inst.custs()]?,
            left: Vec::with_capacity(alloc, inst.custs())?,
            worths: vec![in alloc; 0; inst.sites()]?,
            last: None,
            drawn: 1,
        };
        for site in 0..inst.sites() {
            if boxed.is_opened(site) {
                exchanges.open(inst, site, 0);
            }
        }
        Ok(exchanges)
    }

    // Seeks at most so many sites that can serve all customers, and whether they were found. It fails only where memory
    // runs out.
    fn seek(
        &mut self,
        boxed: &PreparedBox<'_>,
        order: &LaneOrder,
        most: usize,
    ) -> Result<bool, NoMemory> {
        for turn in 1..MAX_TURNS {
            list_left(&self.custs, &mut self.left)?;
            if self.left.is_empty() {
                return Ok(true);
            }
            if open_count(&self.sites) >= most && !self.let_go(boxed, turn) {
                return Ok(false);
            }
            list_left(&self.custs, &mut self.left)?;
            if !self.let_in(boxed, order, turn) {
                return Ok(false);
            }
            weigh_more(&mut self.custs);
        }
        Ok(false)
    }

    // Flags the open sites, by place. It fails only where memory runs out.
    fn flags(&self, alloc: Global) -> Result<Vec<bool>, NoMemory> {
        let mut flags = Vec::with_capacity(alloc, self.sites.len())?;
        for site in 0..self.sites.len() {
            flags.push(self.sites[site].is_open)?;
        }
        Ok(flags)
    }

    // Closes the free site without which the least weight is left, but not the one that came last. Whether there is one.
    fn let_go(&mut self, boxed: &PreparedBox<'_>, turn: u32) -> bool {
        fill_losses(&self.custs, &mut self.worths);
        match least(boxed, &self.sites, &self.worths, self.last) {
            None => false,
            Some(site) => {
                self.close(boxed.instance(), site, turn);
                true
            }
        }
    }

    // Opens the site that can serve the most weight of those who are left, of those that can serve one of them that is
    // drawn. Whether there is one.
    fn let_in(&mut self, boxed: &PreparedBox<'_>, order: &LaneOrder, turn: u32) -> bool {
        fill_wants(order, &self.custs, &self.left, &mut self.worths);
        let Some(cust) = self.draw() else {
            return false;
        };
        match greatest(
            boxed,
            lanes_to(order, cust),
            &self.sites,
            &self.worths,
            turn,
        ) {
            None => false,
            Some(site) => {
                self.open(boxed.instance(), site, turn);
                self.last = Some(site);
                true
            }
        }
    }

    // One of the customers who are left.
    fn draw(&mut self) -> Option<usize> {
        self.drawn = self.drawn.wrapping_mul(FACTOR).wrapping_add(SUMMAND);
        if self.left.is_empty() {
            return None;
        }
        let place = (self.drawn >> 33) as usize % self.left.len();
        Some(self.left[place])
    }

    fn open(&mut self, inst: &Instance, site: usize, turn: u32) {
        set(&mut self.sites, site, true, turn);
        serve_more(inst, site, &mut self.custs);
    }

    fn close(&mut self, inst: &Instance, site: usize, turn: u32) {
        set(&mut self.sites, site, false, turn);
        serve_less(inst, site, &mut self.custs);
    }
}

// The site can serve its customers now.
fn serve_more(inst: &Instance, site: usize, custs: &mut [Served])
    ensures { length custs.new ≡ length custs.old }
{
    for cust in 0..custs.len() {
        if has_lane(inst, site, cust) {
            let Served { sites, sum, weight } = custs[cust];
            custs[cust] = Served {
                sites: sites.wrapping_add(1),
                sum: sum.wrapping_add(site),
                weight,
            };
        }
    }
}

// The site can't any more.
fn serve_less(inst: &Instance, site: usize, custs: &mut [Served])
    ensures { length custs.new ≡ length custs.old }
{
    for cust in 0..custs.len() {
        if has_lane(inst, site, cust) {
            let Served { sites, sum, weight } = custs[cust];
            custs[cust] = Served {
                sites: sites.wrapping_sub(1),
                sum: sum.wrapping_sub(site),
                weight,
            };
        }
    }
}

fn set(sites: &mut [Chosen], site: usize, is_open: bool, turn: u32)
    ensures { length sites.new ≡ length sites.old }
{
    if site < sites.len() {
        sites[site] = Chosen { is_open, turn };
    }
}

fn has_lane(inst: &Instance, site: usize, cust: usize) -> bool {
    site < inst.sites() && cust < inst.custs() && inst.lane(site, cust).is_some()
}

fn lanes_to(order: &LaneOrder, cust: usize) -> &[PlacedLane] {
    if cust < order.custs() {
        order.lanes(cust)
    } else {
        &[]
    }
}

// Lists the customers who are left. It fails only where memory runs out.
fn list_left(custs: &[Served], left: &mut Vec<usize>) -> Result<(), NoMemory> {
    left.clear();
    for cust in 0..custs.len() {
        if custs[cust].sites == 0 {
            left.push(cust)?;
        }
    }
    Ok(())
}

fn open_count(sites: &[Chosen]) -> usize {
    let mut count = 0_usize;
    for site in 0..sites.len() {
        if sites[site].is_open {
            count = count.saturating_add(1);
        }
    }
    count
}

// The weight of the customers whom an open site alone can serve.
fn fill_losses(custs: &[Served], losses: &mut [u64])
    ensures { length losses.new ≡ length losses.old }
{
    losses.fill(0);
    for cust in 0..custs.len() {
        let Served { sites, sum, weight } = custs[cust];
        if sites == 1 && sum < losses.len() {
            losses[sum] = losses[sum].saturating_add(weight);
        }
    }
}

// The greatest number less the weight of those who are left and whom a site can serve.
fn fill_wants(order: &LaneOrder, custs: &[Served], left: &[usize], wants: &mut [u64])
    ensures { length wants.new ≡ length wants.old }
{
    wants.fill(u64::MAX);
    for k in 0..left.len() {
        let cust = left[k];
        if cust < custs.len() {
            take_off(lanes_to(order, cust), custs[cust].weight, wants);
        }
    }
}

fn take_off(lanes: &[PlacedLane], weight: u64, wants: &mut [u64])
    ensures { length wants.new ≡ length wants.old }
{
    for k in 0..lanes.len() {
        let site = lanes[k].site as usize;
        if site < wants.len() {
            wants[site] = wants[site].saturating_sub(weight);
        }
    }
}

// The open site of the least loss that the box leaves free, but for one.
fn least(
    boxed: &PreparedBox<'_>,
    sites: &[Chosen],
    losses: &[u64],
    but: Option<usize>,
) -> Option<usize> {
    let mut found = None;
    for site in 0..sites.len() {
        if sites[site].is_open
            && but != Some(site)
            && is_free(boxed, site)
            && comes_before(rank_at(sites, losses, site), rank_of(sites, losses, found))
        {
            found = Some(site);
        }
    }
    found
}

// The closed site of the greatest gain that the box leaves free among those of these lanes, but for those that went in this
// turn. `wants` are the greatest number less the gains.
fn greatest(
    boxed: &PreparedBox<'_>,
    lanes: &[PlacedLane],
    sites: &[Chosen],
    wants: &[u64],
    turn: u32,
) -> Option<usize> {
    let mut found = None;
    for k in 0..lanes.len() {
        let site = lanes[k].site as usize;
        if site < sites.len()
            && !sites[site].is_open
            && sites[site].turn != turn
            && is_free(boxed, site)
            && comes_before(rank_at(sites, wants, site), rank_of(sites, wants, found))
        {
            found = Some(site);
        }
    }
    found
}

// What decides between sites: what is lost or wanting, and then in which turn a site came or went.
#[derive(Clone, Copy)]
struct Rank {
    worth: u64,
    turn: u32,
}

fn rank_at(sites: &[Chosen], worths: &[u64], site: usize) -> Rank {
    if site >= sites.len() || site >= worths.len() {
        return LAST;
    }
    Rank {
        worth: worths[site],
        turn: sites[site].turn,
    }
}

fn rank_of(sites: &[Chosen], worths: &[u64], site: Option<usize>) -> Rank {
    match site {
        None => LAST,
        Some(site) => rank_at(sites, worths, site),
    }
}

const LAST: Rank = Rank {
    worth: u64::MAX,
    turn: u32::MAX,
};

fn comes_before(one: Rank, other: Rank) -> bool {
    one.worth < other.worth || (one.worth == other.worth && one.turn < other.turn)
}

fn is_free(boxed: &PreparedBox<'_>, site: usize) -> bool {
    site < boxed.instance().sites() && matches!(boxed.state(site), SiteState::Free)
}

// Those who are left weigh more.
fn weigh_more(custs: &mut [Served])
    ensures { length custs.new ≡ length custs.old }
{
    for cust in 0..custs.len() {
        let Served { sites, sum, weight } = custs[cust];
        if sites == 0 {
            custs[cust] = Served {
                sites,
                sum,
                weight: weight.saturating_add(1),
            };
        }
    }
}

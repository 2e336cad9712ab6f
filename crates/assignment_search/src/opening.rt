//! Changes of the open sites under capacities: what they do to the customers.
ghost use Rattle.std.specs.Prelude.{◌≡◌, length};

use crate::assigned::{Service, SiteRoom, release, serve};
use crate::lane_table::LaneTable;
use crate::regret::assign;
use crate::settling::shift_all;

// The most customers that are pushed out after a change.
const PUSHES: usize = 10;

/// The opening or the closing of the site at a place.
#[derive(Clone, Copy)]
pub(crate) struct Change {
    pub(crate) site: usize,
    pub(crate) opens: bool,
}

/// Makes the change, and assigns the customers anew whom it touches.
pub(crate) fn make_change(
    table: &LaneTable,
    sites: &mut [SiteRoom],
    custs: &mut [Service],
    change: &Change,
)
    ensures sites { length sites.new ≡ length sites.old }
    ensures custs { length custs.new ≡ length custs.old }
{
    if change.opens {
        open(table, sites, custs, change.site);
    } else {
        close(sites, custs, change.site);
    }
    assign(table, sites, custs, PUSHES);
    shift_all(table, sites, custs);
}

// Closes the site: it serves nobody any more.
fn close(sites: &mut [SiteRoom], custs: &mut [Service], site: usize)
    ensures sites { length sites.new ≡ length sites.old }
    ensures custs { length custs.new ≡ length custs.old }
{
    if site >= sites.len() {
        return;
    }
    sites[site].is_open = false;
    for cust in 0..custs.len() {
        if custs[cust].site == Some(site) {
            release(sites, custs, cust);
        }
    }
}

// Opens the site: while it has room, the customer moves there who saves the most.
fn open(table: &LaneTable, sites: &mut [SiteRoom], custs: &mut [Service], site: usize)
    ensures sites { length sites.new ≡ length sites.old }
    ensures custs { length custs.new ≡ length custs.old }
{
    if site >= sites.len() {
        return;
    }
    sites[site].is_open = true;
    for _ in 0..custs.len() {
        match most_drawn(table, &sites[site], custs, site) {
            None => return,
            Some((cust, cost)) => {
                release(sites, custs, cust);
                serve(sites, custs, cust, site, cost);
            }
        }
    }
}

// The customer who saves the most by moving to the site, of those for whom it has room, and what the lane
// from there costs it.
fn most_drawn(
    table: &LaneTable,
    room: &SiteRoom,
    custs: &[Service],
    site: usize,
) -> Option<(usize, u64)> {
    let mut best = None;
    let mut most = 0;
    for cust in 0..custs.len() {
        if custs[cust].site.is_some() && room.has_room(custs[cust].demand) {
            if let Some(cost) = table.cost(cust, site) {
                let saves = custs[cust].cost.saturating_sub(cost);
                if saves > most {
                    most = saves;
                    best = Some((cust, cost));
                }
            }
        }
    }
    best
}

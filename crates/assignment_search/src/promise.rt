//! What a change of the open sites can save at most: as if each site that stays open had room for all.
ghost use Rattle.std.specs.Prelude.{◌≡◌, length};

use crate::assigned::{Choice, Service, SiteRoom, Worth};
use crate::lane_table::LaneTable;
use crate::opening::Change;

// Customers, and their lanes: what they demand and what they cost together, in millionths.
#[derive(Clone, Copy)]
struct Lanes {
    demand: u64,
    cost: u64,
}

// Open sites: how much they can serve and what they cost together, in millionths.
#[derive(Clone, Copy)]
struct Open {
    room: u64,
    cost: u64,
}

/// Finds the nearest open sites of each customer.
pub(crate) fn look_around(table: &LaneTable, sites: &[SiteRoom], custs: &mut [Service])
    ensures { length custs.new ≡ length custs.old }
{
    for cust in 0..custs.len() {
        custs[cust].nearest = nearest(table, sites, cust);
    }
}

fn nearest(table: &LaneTable, sites: &[SiteRoom], cust: usize) -> Choice {
    let mut choice = Choice::none();
    for site in 0..sites.len() {
        if sites[site].is_open {
            if let Some(cost) = table.cost(cust, site) {
                choice = choice.with(site, cost);
            }
        }
    }
    choice
}

/// Whether the change may be better than what is worth `before`, where the nearest sites are those before it.
/// It is not where the sites that are open then cost as much with the cheapest lanes from them, or have not
/// room for all.
pub(crate) fn may_be_better(
    table: &LaneTable,
    sites: &[SiteRoom],
    custs: &[Service],
    change: &Change,
    before: &Worth,
) -> bool {
    if before.outside > 0 || before.unserved > 0 {
        return true;
    }
    let least = lanes_after(table, custs, change);
    let after = open_after(sites, change);
    least.demand <= after.room && least.cost.saturating_add(after.cost) < before.cost
}

// The demand of all customers, and the least that their lanes cost after the change.
fn lanes_after(table: &LaneTable, custs: &[Service], change: &Change) -> Lanes {
    let mut demand = 0u64;
    let mut cost = 0u64;
    for cust in 0..custs.len() {
        demand = demand.saturating_add(custs[cust].demand);
        cost = cost.saturating_add(least_lane(table, &custs[cust], cust, change));
    }
    Lanes { demand, cost }
}

fn least_lane(table: &LaneTable, service: &Service, cust: usize, change: &Change) -> u64 {
    let near = &service.nearest;
    if change.opens {
        return near
            .cost
            .min(table.cost(cust, change.site).unwrap_or(u64::MAX));
    }
    if near.site == Some(change.site) {
        near.second
    } else {
        near.cost
    }
}

// The room at the sites that are open after the change, and what they cost.
fn open_after(sites: &[SiteRoom], change: &Change) -> Open {
    let mut room = 0u64;
    let mut cost = 0u64;
    for site in 0..sites.len() {
        let is_open = if site == change.site {
            change.opens
        } else {
            sites[site].is_open
        };
        if is_open {
            room = room.saturating_add(sites[site].whole);
            cost = cost.saturating_add(sites[site].fixed);
        }
    }
    Open { room, cost }
}

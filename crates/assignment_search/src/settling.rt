//! Customers that move to other open sites with room, and pairs of customers that exchange their sites.
ghost use Rattle.std.specs.Prelude.{◌≡◌, length};

use crate::assigned::{Service, SiteRoom, choice_of, release, serve};
use crate::lane_table::LaneTable;

// The most passes over all customers.
const MAX_PASSES: usize = 50;

/// Two customers who are to exchange their sites.
#[derive(Clone, Copy)]
struct Exchange {
    // The place of the other customer.
    other: usize,
    // What the lanes of the two then cost, in millionths.
    cost: u64,
    other_cost: u64,
    saves: u64,
}

/// Moves customers and exchanges the sites of pairs while that saves.
pub(crate) fn settle(table: &LaneTable, sites: &mut [SiteRoom], custs: &mut [Service])
    ensures sites { length sites.new ≡ length sites.old }
    ensures custs { length custs.new ≡ length custs.old }
{
    for _ in 0..MAX_PASSES {
        shift_all(table, sites, custs);
        if !exchange_all(table, sites, custs) {
            return;
        }
    }
}

/// Moves each customer, one after the other, to its cheapest open site with room where that saves.
pub(crate) fn shift_all(table: &LaneTable, sites: &mut [SiteRoom], custs: &mut [Service])
    ensures sites { length sites.new ≡ length sites.old }
    ensures custs { length custs.new ≡ length custs.old }
{
    for cust in 0..custs.len() {
        shift(table, sites, custs, cust);
    }
}

fn shift(table: &LaneTable, sites: &mut [SiteRoom], custs: &mut [Service], cust: usize)
    ensures sites { length sites.new ≡ length sites.old }
    ensures custs { length custs.new ≡ length custs.old }
{
    if cust >= custs.len() || custs[cust].site.is_none() {
        return;
    }
    let choice = choice_of(table, sites, cust, custs[cust].demand, custs[cust].site);
    if let Some(site) = choice.site {
        if choice.cost < custs[cust].cost {
            release(sites, custs, cust);
            serve(sites, custs, cust, site, choice.cost);
        }
    }
}

// Lets each customer make the exchange that saves the most. The answer is whether one was made.
fn exchange_all(table: &LaneTable, sites: &mut [SiteRoom], custs: &mut [Service]) -> bool
    ensures sites { length sites.new ≡ length sites.old }
    ensures custs { length custs.new ≡ length custs.old }
{
    let mut has_changed = false;
    for cust in 0..custs.len() {
        if let Some(exchange) = best_exchange(table, sites, custs, cust) {
            make(sites, custs, cust, &exchange);
            has_changed = true;
        }
    }
    has_changed
}

fn make(sites: &mut [SiteRoom], custs: &mut [Service], cust: usize, exchange: &Exchange)
    ensures sites { length sites.new ≡ length sites.old }
    ensures custs { length custs.new ≡ length custs.old }
{
    if cust >= custs.len() || exchange.other >= custs.len() {
        return;
    }
    if let (Some(site), Some(other_site)) = (custs[cust].site, custs[exchange.other].site) {
        release(sites, custs, cust);
        release(sites, custs, exchange.other);
        serve(sites, custs, cust, other_site, exchange.cost);
        serve(sites, custs, exchange.other, site, exchange.other_cost);
    }
}

// The customer's exchange with one behind it that saves the most, where one saves.
fn best_exchange(
    table: &LaneTable,
    sites: &[SiteRoom],
    custs: &[Service],
    cust: usize,
) -> Option<Exchange> {
    let mut best = None;
    let mut most = 0;
    for other in 0..custs.len() {
        if other > cust {
            if let Some(exchange) = exchange_of(table, sites, custs, cust, other) {
                if exchange.saves > most {
                    most = exchange.saves;
                    best = Some(exchange);
                }
            }
        }
    }
    best
}

// The exchange of two customers, where it saves and both find room.
#[inline(always)]
fn exchange_of(
    table: &LaneTable,
    sites: &[SiteRoom],
    custs: &[Service],
    cust: usize,
    other: usize,
) -> Option<Exchange> {
    if cust >= custs.len() || other >= custs.len() {
        return None;
    }
    let (one, two) = (&custs[cust], &custs[other]);
    let (site, other_site) = (one.site?, two.site?);
    if site == other_site || site >= sites.len() || other_site >= sites.len() {
        return None;
    }
    let cost = table.cost(cust, other_site)?;
    let other_cost = table.cost(other, site)?;
    let before = one.cost.saturating_add(two.cost);
    let after = cost.saturating_add(other_cost);
    let fits = sites[site].left.saturating_add(one.demand) >= two.demand
        && sites[other_site].left.saturating_add(two.demand) >= one.demand;
    if after >= before || !fits {
        return None;
    }
    Some(Exchange {
        other,
        cost,
        other_cost,
        saves: before.saturating_sub(after),
    })
}

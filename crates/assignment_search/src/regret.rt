//! An assignment of the customers whom no site serves: the one who would lose the most by waiting comes
//! first, and one for whom no site has room pushes another one out.
ghost use Rattle.std.specs.Prelude.{◌≡◌, length};

use crate::assigned::{Choice, Service, SiteRoom, choice_of, demand_of, open_room, release, serve};
use crate::lane_table::LaneTable;
use location_terms::MAX_AMOUNT;

// What it counts for that a customer is left without a site: more than what any change of lanes costs.
const LOST: u64 = 4 * MAX_AMOUNT;

/// A customer that makes room at its site for another one.
#[derive(Clone, Copy)]
struct Push {
    // The places of the customer and of its site.
    cust: usize,
    site: usize,
    // What the lane from there costs that other customer.
    cost: u64,
    // Whether there is then room enough for that one.
    is_enough: bool,
    // Where the customer goes to.
    choice: Choice,
    // Less is better.
    price: u64,
}

/// Assigns the customers whom no site serves, as far as that is found with so many pushes. Nobody is pushed
/// out where the open sites have not room for all.
pub(crate) fn assign(
    table: &LaneTable,
    sites: &mut [SiteRoom],
    custs: &mut [Service],
    pushes: usize,
)
    ensures sites { length sites.new ≡ length sites.old }
    ensures custs { length custs.new ≡ length custs.old }
{
    choose_all(table, sites, custs);
    let has_room = demand_of(custs) <= open_room(sites);
    let mut left = if has_room { pushes } else { 0 };
    for _ in 0..custs.len().saturating_add(pushes.saturating_mul(2)) {
        match next(custs, left > 0) {
            None => return,
            Some(cust) => {
                left = assign_one(table, sites, custs, cust, left);
            }
        }
    }
}

// Finds the sites that can serve each customer whom none serves.
fn choose_all(table: &LaneTable, sites: &[SiteRoom], custs: &mut [Service])
    ensures { length custs.new ≡ length custs.old }
{
    for cust in 0..custs.len() {
        if custs[cust].site.is_none() {
            custs[cust].choice = choice_of(table, sites, cust, custs[cust].demand, None);
        }
    }
}

// The same where the site has less room than before.
fn choose_again(table: &LaneTable, sites: &[SiteRoom], custs: &mut [Service], site: usize)
    ensures { length custs.new ≡ length custs.old }
{
    for cust in 0..custs.len() {
        if custs[cust].site.is_none() && custs[cust].choice.has(site) {
            custs[cust].choice = choice_of(table, sites, cust, custs[cust].demand, None);
        }
    }
}

// The customer to be assigned next; where nobody may be pushed out, of those for whom a site has room.
fn next(custs: &[Service], may_push: bool) -> Option<usize> {
    let mut best = None;
    for cust in 0..custs.len() {
        if custs[cust].waits(may_push) {
            best = Some(match best {
                Some(other) if !is_before(custs, cust, other) => other,
                _ => cust,
            });
        }
    }
    best
}

// Whether the one customer comes before the other: those for whom no site has room, then the greater
// regret, then the greater demand.
fn is_before(custs: &[Service], cust: usize, other: usize) -> bool {
    if cust >= custs.len() || other >= custs.len() {
        return false;
    }
    let (one, two) = (&custs[cust], &custs[other]);
    let (lost, other_lost) = (one.choice.site.is_none(), two.choice.site.is_none());
    if lost != other_lost {
        return lost;
    }
    let (regret, other_regret) = (one.choice.regret(), two.choice.regret());
    if regret != other_regret {
        return regret > other_regret;
    }
    one.demand > two.demand
}

// Assigns the customer, or makes some room for it. The answer is how many pushes are then left.
fn assign_one(
    table: &LaneTable,
    sites: &mut [SiteRoom],
    custs: &mut [Service],
    cust: usize,
    pushes: usize,
) -> usize
    ensures sites { length sites.new ≡ length sites.old }
    ensures custs { length custs.new ≡ length custs.old }
{
    if cust >= custs.len() {
        return 0;
    }
    let choice = custs[cust].choice;
    if let Some(site) = choice.site {
        serve(sites, custs, cust, site, choice.cost);
        choose_again(table, sites, custs, site);
        return pushes;
    }
    if make_room(table, sites, custs, cust) {
        pushes.saturating_sub(1)
    } else {
        0
    }
}

// Pushes another customer out for this one.
fn make_room(table: &LaneTable, sites: &mut [SiteRoom], custs: &mut [Service], cust: usize) -> bool
    ensures sites { length sites.new ≡ length sites.old }
    ensures custs { length custs.new ≡ length custs.old }
{
    match best_push(table, sites, custs, cust) {
        None => false,
        Some(push) => {
            push_out(sites, custs, &push);
            if push.is_enough {
                serve(sites, custs, cust, push.site, push.cost);
            }
            choose_all(table, sites, custs);
            true
        }
    }
}

fn push_out(sites: &mut [SiteRoom], custs: &mut [Service], push: &Push)
    ensures sites { length sites.new ≡ length sites.old }
    ensures custs { length custs.new ≡ length custs.old }
{
    release(sites, custs, push.cust);
    match push.choice.site {
        Some(site) => serve(sites, custs, push.cust, site, push.choice.cost),
        None => {
            if push.cust < custs.len() {
                custs[push.cust].pushed = custs[push.cust].pushed.saturating_add(1);
            }
        }
    }
}

fn best_push(
    table: &LaneTable,
    sites: &[SiteRoom],
    custs: &[Service],
    cust: usize,
) -> Option<Push> {
    let mut best = None;
    let mut least = u64::MAX;
    for other in 0..custs.len() {
        if let Some(push) = push_of(table, sites, custs, cust, other) {
            if push.price < least {
                least = push.price;
                best = Some(push);
            }
        }
    }
    best
}

// The other customer makes room for this one.
fn push_of(
    table: &LaneTable,
    sites: &[SiteRoom],
    custs: &[Service],
    cust: usize,
    other: usize,
) -> Option<Push> {
    if cust >= custs.len() || other >= custs.len() {
        return None;
    }
    let site = custs[other].site?;
    if site >= sites.len() {
        return None;
    }
    let cost = table.cost(cust, site)?;
    let room = sites[site].left.saturating_add(custs[other].demand);
    let short = custs[cust].demand.saturating_sub(room);
    let choice = choice_of(table, sites, other, custs[other].demand, Some(site));
    Some(Push {
        cust: other,
        site,
        cost,
        is_enough: short == 0,
        choice,
        price: price_of(&custs[other], cost, short, &choice),
    })
}

// What it counts for that the customer is pushed out: what all lanes then cost more, where it finds
// another site, and else the more, the more often it was pushed out before. Room that isn't enough
// counts for more than the loss of a site.
fn price_of(pushed: &Service, cost: u64, short: u64, choice: &Choice) -> u64 {
    let times = u64::from(pushed.pushed).saturating_add(1);
    let loss = match choice.site {
        Some(_) => choice.cost,
        None => LOST.saturating_mul(times),
    };
    let lack = if short == 0 {
        0
    } else {
        LOST.saturating_mul(2).saturating_add(short)
    };
    cost.saturating_add(loss)
        .saturating_add(lack)
        .saturating_sub(pushed.cost)
}

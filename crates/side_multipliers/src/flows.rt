//! The transportation problem of a box without free sites: each customer's demand may be split among its
//! kept lanes. Flows are shifted along cheapest ways from overfull rooms to others until all rooms hold what
//! is loaded; amounts are whole numbers, kept as floats.
ghost use Rattle.std.specs.Prelude.{◌≡◌, length};

use crate::room_lanes::{Guest, LaneUse, RoomLane, lane_count, lanes_of, site_of};
use crate::rooms::{Move, NO_MOVE, Room, empty_rooms, fixed_cost, level_at, load, price_at};

// How many lanes may be looked at, about, and how often flows may be shifted whatever the size.
const MAX_LOOKS: usize = 40_000_000;

const LEAST_TURNS: usize = 50;

// Costs of a unit of demand that differ by less are the same.
const SAME: f64 = 1.0e-9;

/// Finds the kept lane of the least level at the prices for each customer. The answer is the sum of the
/// levels.
pub(crate) fn find_levels(guests: &mut [Guest], lanes: &[RoomLane], rooms: &[Room]) -> f64
    ensures { length guests.new ≡ length guests.old }
{
    let mut sum = 0.0;
    for j in 0..guests.len() {
        let guest = levelled(guests[j], lanes, rooms);
        sum += guest.level;
        guests[j] = guest;
    }
    sum
}

// The customer with its kept lane of the least level; the level is 0 where none is kept.
fn levelled(guest: Guest, lanes: &[RoomLane], rooms: &[Room]) -> Guest {
    let own = lanes_of(lanes, guest);
    let mut next = guest;
    next.level = f64::MAX;
    for rank in 0..own.len() {
        let lane = own[rank];
        if lane.cost >= next.level {
            return next;
        }
        if lane.lane_use == LaneUse::Kept {
            let level = level_at(lane, guest.weight, rooms);
            if level < next.level {
                next.level = level;
                next.best = guest.start.saturating_add(rank);
            }
        }
    }
    if next.level == f64::MAX {
        next.level = 0.0;
    }
    next
}

/// Lets each customer flow along the lane of its least level, and fills up the rooms that cost nothing.
pub(crate) fn seat_all(guests: &[Guest], lanes: &[RoomLane], rooms: &mut [Room], flows: &mut [f64])
    ensures rooms { length rooms.new ≡ length rooms.old }
    ensures flows { length flows.new ≡ length flows.old }
{
    empty_rooms(rooms);
    for guest in guests {
        seat(*guest, lanes, rooms, flows);
    }
    spread_spare(guests, rooms);
}

fn seat(guest: Guest, lanes: &[RoomLane], rooms: &mut [Room], flows: &mut [f64])
    ensures rooms { length rooms.new ≡ length rooms.old }
    ensures flows { length flows.new ≡ length flows.old }
{
    for k in guest.start..guest.end.min(flows.len()) {
        flows[k] = 0.0;
    }
    if guest.best < flows.len() && guest.kept > 0 {
        flows[guest.best] = guest.weight;
        load(rooms, site_of(lanes, guest.best), guest.weight);
    }
}

// The room that all sites have more than is demanded is left empty where the price is the least.
fn spread_spare(guests: &[Guest], rooms: &mut [Room])
    ensures { length rooms.new ≡ length rooms.old }
{
    let mut left = 0.0;
    let mut least = f64::MAX;
    let mut cheapest = 0;
    for i in 0..rooms.len() {
        rooms[i].spare = 0.0;
        if rooms[i].is_opened {
            left += rooms[i].cap;
            if rooms[i].price < least {
                least = rooms[i].price;
                cheapest = i;
            }
        }
    }
    for guest in guests {
        left -= guest.weight;
    }
    leave_empty(least, cheapest, left.max(0.0), rooms);
}

fn leave_empty(least: f64, cheapest: usize, room: f64, rooms: &mut [Room])
    ensures { length rooms.new ≡ length rooms.old }
{
    let mut left = room;
    for i in 0..rooms.len() {
        if rooms[i].is_opened && rooms[i].price <= least {
            let spare = left.min((rooms[i].cap - rooms[i].load).max(0.0));
            rooms[i].spare = spare;
            left -= spare;
        }
    }
    if cheapest < rooms.len() {
        rooms[cheapest].spare += left;
    }
}

/// Moves a customer's flows off the lanes that are no longer kept, to the kept one of the least level.
pub(crate) fn reseat(guest: Guest, lanes: &[RoomLane], rooms: &mut [Room], flows: &mut [f64])
    ensures rooms { length rooms.new ≡ length rooms.old }
    ensures flows { length flows.new ≡ length flows.old }
{
    let to = levelled(guest, lanes, rooms).best;
    for k in guest.start..guest.end.min(lanes.len()).min(flows.len()) {
        if lanes[k].lane_use != LaneUse::Kept && flows[k] > 0.0 {
            let amount = flows[k];
            shift(lanes, k, to, amount, rooms, flows);
        }
    }
}

// Shifts so much from one lane to another.
fn shift(
    lanes: &[RoomLane],
    from: usize,
    to: usize,
    amount: f64,
    rooms: &mut [Room],
    flows: &mut [f64],
)
    ensures rooms { length rooms.new ≡ length rooms.old }
    ensures flows { length flows.new ≡ length flows.old }
{
    if from < flows.len() && to < flows.len() {
        flows[from] -= amount;
        flows[to] += amount;
        load(rooms, site_of(lanes, from), -amount);
        load(rooms, site_of(lanes, to), amount);
    }
}

/// What shifting flows comes to.
#[derive(Clone, Copy)]
pub(crate) enum Shifted {
    /// No room is overfull.
    Balanced,
    /// Some room stays overfull: all the rooms to which a way leads from it are full.
    Stuck,
    /// Balanced flows cost at least as much as they may.
    TooDear,
}

/// Shifts flows until no room is overfull, as long as they may cost less than `most` millionths with the
/// fixed costs.
pub(crate) fn balance(
    guests: &[Guest],
    lanes: &[RoomLane],
    most: f64,
    rooms: &mut [Room],
    flows: &mut [f64],
) -> Shifted
    ensures rooms { length rooms.new ≡ length rooms.old }
    ensures flows { length flows.new ≡ length flows.old }
{
    let mut cost = flow_cost(guests, lanes, flows) + fixed_cost(rooms);
    for _turn in 0..MAX_LOOKS / lane_count(guests).max(1) + LEAST_TURNS {
        if !begin_ways(rooms) {
            return Shifted::Balanced;
        }
        find_ways(guests, lanes, flows, rooms);
        let Some(gap) = nearest_gap(rooms) else {
            return Shifted::Stuck;
        };
        // No later way is shorter.
        let way = way_to(rooms, gap);
        if most <= cost + way * excess_of_all(rooms) {
            return Shifted::TooDear;
        }
        cost += way * fill_gap(gap, lanes, rooms, flows);
    }
    Shifted::Balanced
}

// What the flows cost.
fn flow_cost(guests: &[Guest], lanes: &[RoomLane], flows: &[f64]) -> f64 {
    let mut sum = 0.0;
    for guest in guests {
        for k in guest.start..guest.end.min(lanes.len()).min(flows.len()) {
            if flows[k] > 0.0 {
                sum += flows[k] * guest.ratio(lanes[k]);
            }
        }
    }
    sum
}

// How much more is loaded than rooms hold, over all overfull ones.
fn excess_of_all(rooms: &[Room]) -> f64 {
    let mut sum = 0.0;
    for room in rooms {
        if room.is_opened {
            sum += room.excess().max(0.0);
        }
    }
    sum
}

// Ways begin at overfull rooms. Whether there are any.
fn begin_ways(rooms: &mut [Room]) -> bool
    ensures { length rooms.new ≡ length rooms.old }
{
    let mut any = false;
    for i in 0..rooms.len() {
        let is_over = rooms[i].is_opened && rooms[i].excess() > 0.0;
        rooms[i].way = if is_over { 0.0 } else { f64::MAX };
        rooms[i].last = NO_MOVE;
        any |= is_over;
    }
    any
}

// Makes ways longer by one move after the other, until none becomes cheaper.
fn find_ways(guests: &[Guest], lanes: &[RoomLane], flows: &[f64], rooms: &mut [Room])
    ensures { length rooms.new ≡ length rooms.old }
{
    for _turn in 0..rooms.len() {
        let mut changed = move_spare(rooms);
        for guest in guests {
            changed |= move_guest(*guest, lanes, flows, rooms);
        }
        if !changed {
            return;
        }
    }
}

// Moves empty room: what comes to a room that has some can go on to each other room.
fn move_spare(rooms: &mut [Room]) -> bool
    ensures { length rooms.new ≡ length rooms.old }
{
    let mut way = f64::MAX;
    let mut from = 0;
    for i in 0..rooms.len() {
        if rooms[i].is_opened && rooms[i].spare > 0.0 && rooms[i].way < way {
            way = rooms[i].way;
            from = i;
        }
    }
    let mut changed = false;
    for i in 0..rooms.len() {
        if rooms[i].is_opened && is_shorter(way, rooms[i].way) {
            rooms[i].way = way;
            rooms[i].last = Move { from, lanes: None };
            changed = true;
        }
    }
    changed
}

fn is_shorter(way: f64, other: f64) -> bool {
    way < f64::MAX && way + SAME * (1.0 + way.abs()) < other
}

// Moves demand of a customer from one of its lanes to the others.
fn move_guest(guest: Guest, lanes: &[RoomLane], flows: &[f64], rooms: &mut [Room]) -> bool
    ensures { length rooms.new ≡ length rooms.old }
{
    let end = guest.end.min(lanes.len()).min(flows.len());
    let mut way = f64::MAX;
    let mut from = 0;
    for k in guest.start..end {
        if flows[k] > 0.0 {
            let own = way_to(rooms, lanes[k].site());
            if own < f64::MAX && own - guest.ratio(lanes[k]) < way {
                way = own - guest.ratio(lanes[k]);
                from = k;
            }
        }
    }
    if way == f64::MAX {
        return false;
    }
    let mut changed = false;
    for k in guest.start..end {
        if lanes[k].lane_use == LaneUse::Kept && k != from {
            changed |= shorten(lanes, from, k, way + guest.ratio(lanes[k]), rooms);
        }
    }
    changed
}

fn way_to(rooms: &[Room], site: usize) -> f64 {
    match rooms.get(site) {
        None => f64::MAX,
        Some(room) => room.way,
    }
}

fn shorten(lanes: &[RoomLane], from: usize, to: usize, way: f64, rooms: &mut [Room]) -> bool
    ensures { length rooms.new ≡ length rooms.old }
{
    let site = site_of(lanes, to);
    if site >= rooms.len() || !is_shorter(way, rooms[site].way) {
        return false;
    }
    rooms[site].way = way;
    rooms[site].last = Move {
        from: site_of(lanes, from),
        lanes: Some((from, to)),
    };
    true
}

// The room with too little in it to which the cheapest way leads.
fn nearest_gap(rooms: &[Room]) -> Option<usize> {
    let mut way = f64::MAX;
    let mut nearest = None;
    for i in 0..rooms.len() {
        if rooms[i].is_opened && rooms[i].excess() < 0.0 && rooms[i].way < way {
            way = rooms[i].way;
            nearest = Some(i);
        }
    }
    nearest
}

// Shifts as much as there is along the way to a room. The answer is how much.
fn fill_gap(gap: usize, lanes: &[RoomLane], rooms: &mut [Room], flows: &mut [f64]) -> f64
    ensures rooms { length rooms.new ≡ length rooms.old }
    ensures flows { length flows.new ≡ length flows.old }
{
    let amount = most_along(gap, rooms, flows);
    let mut at = gap;
    for _turn in 0..rooms.len() {
        if at >= rooms.len() || rooms[at].last.from >= rooms.len() {
            return amount;
        }
        let last = rooms[at].last;
        make_move(at, last, amount, lanes, rooms, flows);
        at = last.from;
    }
    amount
}

// The most that can be shifted along the way to a room.
fn most_along(gap: usize, rooms: &[Room], flows: &[f64]) -> f64 {
    let mut amount = f64::MAX;
    let mut at = gap;
    for _turn in 0..rooms.len() {
        if at >= rooms.len() {
            return 0.0;
        }
        let room = rooms[at];
        if at == gap {
            amount = -room.excess();
        }
        if room.last.from >= rooms.len() {
            return amount.min(room.excess()).max(0.0);
        }
        amount = amount.min(most_of(room.last, rooms, flows));
        at = room.last.from;
    }
    0.0
}

// The most that one move can shift.
fn most_of(last: Move, rooms: &[Room], flows: &[f64]) -> f64 {
    match last.lanes {
        None => match rooms.get(last.from) {
            None => 0.0,
            Some(room) => room.spare,
        },
        Some((from, _)) => match flows.get(from) {
            None => 0.0,
            Some(flow) => *flow,
        },
    }
}

fn make_move(
    at: usize,
    last: Move,
    amount: f64,
    lanes: &[RoomLane],
    rooms: &mut [Room],
    flows: &mut [f64],
)
    ensures rooms { length rooms.new ≡ length rooms.old }
    ensures flows { length flows.new ≡ length flows.old }
{
    match last.lanes {
        Some((from, to)) => shift(lanes, from, to, amount, rooms, flows),
        None => {
            if at < rooms.len() && last.from < rooms.len() {
                rooms[last.from].spare -= amount;
                rooms[at].spare += amount;
            }
        }
    }
}

/// Finds the prices of the capacities at which no flow can be shifted to advantage: what a unit of demand
/// saves that leaves the room for an empty one, and `most` where there is no way to one.
pub(crate) fn find_prices(
    guests: &[Guest],
    lanes: &[RoomLane],
    flows: &[f64],
    most: f64,
    rooms: &mut [Room],
)
    ensures { length rooms.new ≡ length rooms.old }
{
    for i in 0..rooms.len() {
        let is_full = rooms[i].is_opened && rooms[i].spare <= 0.0;
        rooms[i].price = if is_full { most } else { 0.0 };
    }
    for _turn in 0..rooms.len() {
        let mut changed = false;
        for guest in guests {
            changed |= lower_prices(*guest, lanes, flows, rooms);
        }
        if !changed {
            return;
        }
    }
}

// No room of the customer costs more than what it saves to leave it for the cheapest.
fn lower_prices(guest: Guest, lanes: &[RoomLane], flows: &[f64], rooms: &mut [Room]) -> bool
    ensures { length rooms.new ≡ length rooms.old }
{
    let end = guest.end.min(lanes.len()).min(flows.len());
    let mut least = f64::MAX;
    for k in guest.start..end {
        if lanes[k].lane_use == LaneUse::Kept {
            least = least.min(guest.ratio(lanes[k]) + price_at(rooms, lanes[k].site()));
        }
    }
    let mut changed = false;
    for k in guest.start..end {
        let site = lanes[k].site();
        if flows[k] > 0.0 && site < rooms.len() {
            let price = (least - guest.ratio(lanes[k])).max(0.0);
            if is_shorter(price, rooms[site].price) {
                rooms[site].price = price;
                changed = true;
            }
        }
    }
    changed
}

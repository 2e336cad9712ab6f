//! The knapsacks of the sites: which customers a site serves best where each one is served as a whole (Martello and
//! Toth, Knapsack Problems, 1990). Sets are made item by item, as pairs of what they load and what they are worth: of
//! two pairs one goes that loads no less and is worth no more, and each goes with which even parts of all items behind
//! can't reach the best set.
ghost use Rattle.std.specs.Prelude.{◌≡◌, length};

use crate::lane::Lane;
use instance_store::NoMemory;
use std::alloc::Global;

// How many pairs there are at once, and how many items are taken into pairs in all. More than that is seen nowhere.
const MOST_PAIRS: usize = 1024;

const MOST_TAKEN: usize = 16_384;

// What a set has to be worth more than the best one to be looked for, in millionths.
const LEAST_GAIN: f64 = 0.001;

/// What a set of items loads, what it is worth, and the item that was taken last: 1 more than its place among those
/// that were taken, and 0 for none.
#[derive(Clone, Copy)]
struct Pair {
    load: f64,
    worth: f64,
    last: usize,
}

/// A lane that was taken, by its place, and the item that was taken before, as in a pair.
#[derive(Clone, Copy)]
struct Taken {
    place: usize,
    before: usize,
}

/// Arrays in which sets are made. The pairs of an item and those of the next one take turns in both halves of one.
#[derive(Drop)]
pub(crate) struct Desk {
    pairs: Vec<Pair>,
    taken: Vec<Taken>,
    // What the first items load together and are worth, from none on.
    loads: Vec<f64>,
    worths: Vec<f64>,
}

impl Desk {
    /// For sites with up to so many lanes. It fails only where memory runs out.
    pub(crate) fn of(alloc: Global, lanes: usize) -> Result<Desk, NoMemory> {
        let no_pair = Pair {
            load: 0.0,
            worth: 0.0,
            last: 0,
        };
        let none_taken = Taken {
            place: 0,
            before: 0,
        };
        Ok(Desk {
            pairs: vec![in alloc; no_pair; 2 * MOST_PAIRS]?,
            taken: vec![in alloc; none_taken; MOST_TAKEN]?,
            loads: vec![in alloc; 0.0; lanes.saturating_add(1)]?,
            worths: vec![in alloc; 0.0; lanes.saturating_add(1)]?,
        })
    }
}

/// The lanes that pay, from the best on, as far as they fit one after the other: where they end, what they are worth
/// with a part of the first one that doesn't fit, and whether all fit.
#[derive(Clone, Copy)]
pub(crate) struct Greedy {
    pub(crate) end: usize,
    pub(crate) worth: f64,
    pub(crate) all_fit: bool,
}

/// How far the lanes between these places, which are in order, pay and fit.
pub(crate) fn fill_in_order(start: usize, end: usize, room: f64, lanes: &[Lane]) -> Greedy {
    let mut left = room;
    let mut worth = 0.0;
    let mut all_fit = true;
    let last = end.min(lanes.len());
    for k in start..last {
        let lane = lanes[k];
        if lane.profit <= 0.0 {
            return Greedy {
                end: k,
                worth,
                all_fit,
            };
        }
        if all_fit {
            if lane.weight <= left {
                left -= lane.weight;
                worth += lane.profit;
            } else {
                worth += left * lane.ratio;
                all_fit = false;
            }
        }
    }
    Greedy {
        end: last,
        worth,
        all_fit,
    }
}

/// Chooses all lanes between these places.
pub(crate) fn choose_all(start: usize, end: usize, lanes: &mut [Lane])
    ensures { length lanes.new ≡ length lanes.old }
{
    for k in start..end.min(lanes.len()) {
        lanes[k].is_chosen = true;
    }
}

// How far sets are made.
#[derive(Clone, Copy)]
struct Making {
    // The places of the lanes, and the room for them.
    start: usize,
    end: usize,
    room: f64,
    // How many pairs there are, and where they begin.
    count: usize,
    from: usize,
    // How many items were taken.
    taken: usize,
    // The best set: what it is worth, its item that was taken last, and the places of lanes that it has besides.
    best: f64,
    last: usize,
    first: usize,
    behind: usize,
    // Whether there were too many pairs.
    is_full: bool,
}

/// Chooses the lanes between these places, which are in order, that are worth most together in this room. The answer
/// is what they are worth, and where the search for them took too much, `worth`.
pub(crate) fn choose_best(
    start: usize,
    end: usize,
    room: f64,
    worth: f64,
    lanes: &mut [Lane],
    desk: &mut Desk,
) -> f64
    ensures { length lanes.new ≡ length lanes.old }
{
    let mut making = begun(start, end, room, lanes, desk);
    for k in start..making.end {
        if making.count == 0 || making.is_full {
            break;
        }
        making = grown(k, lanes, desk, making);
    }
    choose_taken(&desk.taken, making, lanes);
    choose_all(making.first, making.behind, lanes);
    if making.is_full { worth } else { making.best }
}

// Before the first item: the empty set.
fn begun(start: usize, end: usize, room: f64, lanes: &[Lane], desk: &mut Desk) -> Making {
    let last = end.min(lanes.len());
    add_up(start, last, lanes, &mut desk.loads, &mut desk.worths);
    put(
        Pair {
            load: 0.0,
            worth: 0.0,
            last: 0,
        },
        0,
        &mut desk.pairs,
    );
    Making {
        start,
        end: last,
        room,
        count: 1,
        from: 0,
        taken: 0,
        best: 0.0,
        last: 0,
        first: start,
        behind: start,
        is_full: false,
    }
}

fn add_up(start: usize, end: usize, lanes: &[Lane], loads: &mut [f64], worths: &mut [f64]) {
    let mut load = 0.0;
    let mut worth = 0.0;
    for k in start..end.min(lanes.len()) {
        load += lanes[k].weight;
        worth += lanes[k].profit;
        let place = (k - start).saturating_add(1);
        if place < loads.len() && place < worths.len() {
            loads[place] = load;
            worths[place] = worth;
        }
    }
}

#[inline(always)]
fn put(pair: Pair, place: usize, pairs: &mut [Pair])
    ensures { length pairs.new ≡ length pairs.old }
{
    if place < pairs.len() {
        pairs[place] = pair;
    }
}

// How far the pairs with one more item are made: how many of those without it and of those with it are behind, how many
// were made, what the last one is worth, and how far behind items fit with it.
#[derive(Clone, Copy)]
struct Level {
    without: usize,
    with: usize,
    made: usize,
    top: f64,
    reach: usize,
}

// The pairs with and without the lane at place `k`.
fn grown(k: usize, lanes: &[Lane], desk: &mut Desk, making: Making) -> Making {
    if k >= lanes.len() {
        return making;
    }
    let lane = lanes[k];
    let to = if making.from == 0 { MOST_PAIRS } else { 0 };
    let mut next = making;
    let mut level = Level {
        without: 0,
        with: 0,
        made: 0,
        top: -1.0,
        reach: making.end,
    };
    for _turn in 0..making.count.saturating_mul(2) {
        let is_with = takes(lane, &desk.pairs, making, level);
        let mut pair = pair_at(
            &desk.pairs,
            making,
            if is_with { level.with } else { level.without },
        );
        if is_with {
            level.with = level.with.saturating_add(1);
            pair.load += lane.weight;
            pair.worth += lane.profit;
            if pair.load > making.room {
                level.with = making.count;
                continue;
            }
        } else {
            level.without = level.without.saturating_add(1);
        }
        if pair.worth <= level.top {
            continue;
        }
        level.reach = reach(&desk.loads, making, pair, k, level.reach);
        let sure = pair.worth + between(&desk.worths, making.start, k, level.reach);
        let most = sure + part(lanes, &desk.loads, making, pair, k, level.reach);
        if most <= next.best + LEAST_GAIN {
            continue;
        }
        if next.taken >= MOST_TAKEN || level.made >= MOST_PAIRS {
            next.is_full = true;
            return next;
        }
        if is_with {
            note(k, pair.last, next.taken, &mut desk.taken);
            next.taken = next.taken.saturating_add(1);
            pair.last = next.taken;
        }
        if sure > next.best {
            next.best = sure;
            next.last = pair.last;
            next.first = k.saturating_add(1);
            next.behind = level.reach;
        }
        level.top = pair.worth;
        put(pair, to.saturating_add(level.made), &mut desk.pairs);
        level.made = level.made.saturating_add(1);
    }
    next.count = level.made;
    next.from = to;
    next
}

// Whether the next pair is one with the lane: of the next two that which loads less, and of those that load the same
// that without.
#[inline(always)]
fn takes(lane: Lane, pairs: &[Pair], making: Making, level: Level) -> bool {
    if level.without >= making.count {
        return true;
    }
    if level.with >= making.count {
        return false;
    }
    pair_at(pairs, making, level.with).load + lane.weight
        < pair_at(pairs, making, level.without).load
}

#[inline(always)]
fn pair_at(pairs: &[Pair], making: Making, place: usize) -> Pair {
    let k = making.from.saturating_add(place);
    if place < making.count && k < pairs.len() {
        return pairs[k];
    }
    Pair {
        load: f64::MAX,
        worth: 0.0,
        last: 0,
    }
}

// The place behind the lanes that fit one after the other from behind place `k` on, beside the pair.
#[inline(always)]
fn reach(loads: &[f64], making: Making, pair: Pair, k: usize, most: usize) -> usize {
    let limit = making.room - pair.load + sum_at(loads, making.start, k.saturating_add(1));
    let mut place = most;
    for _ in k..most {
        if place <= k.saturating_add(1) || sum_at(loads, making.start, place) <= limit {
            break;
        }
        place = place.saturating_sub(1);
    }
    place
}

// The sum before the lane at place `k`.
#[inline(always)]
fn sum_at(sums: &[f64], start: usize, k: usize) -> f64 {
    let place = k.saturating_sub(start);
    if place < sums.len() { sums[place] } else { 0.0 }
}

// What the lanes behind place `k` are worth, up to another place.
#[inline(always)]
fn between(worths: &[f64], start: usize, k: usize, end: usize) -> f64 {
    sum_at(worths, start, end) - sum_at(worths, start, k.saturating_add(1))
}

// What a part of the lane at the place `end` is worth that fits beside the pair and the lanes behind place `k`.
#[inline(always)]
fn part(lanes: &[Lane], loads: &[f64], making: Making, pair: Pair, k: usize, end: usize) -> f64 {
    if end >= making.end || end >= lanes.len() {
        return 0.0;
    }
    let left = making.room - pair.load - between(loads, making.start, k, end);
    left * lanes[end].ratio
}

#[inline(always)]
fn note(place: usize, before: usize, at: usize, taken: &mut [Taken])
    ensures { length taken.new ≡ length taken.old }
{
    if at < taken.len() {
        taken[at] = Taken { place, before };
    }
}

// Chooses the lanes of the best set that were taken.
fn choose_taken(taken: &[Taken], making: Making, lanes: &mut [Lane])
    ensures { length lanes.new ≡ length lanes.old }
{
    let mut last = making.last;
    for _ in 0..making.taken {
        if last == 0 || last > taken.len() {
            return;
        }
        let one = taken[last - 1];
        if one.place < lanes.len() {
            lanes[one.place].is_chosen = true;
        }
        last = one.before;
    }
}

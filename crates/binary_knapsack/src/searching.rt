//! The greatest worth of loads within a capacity.
ghost use Rattle.std.specs.Prelude.{◌≡◌, ◌+◌, ◌<◌, ◌≤◌, ◌^◌, List, [], max, sum_by, IfOk, drop};
ghost use Rattle.binary_knapsack.specs.Loads.{Load, most, reach};
ghost use Rattle.binary_knapsack.specs.Bounds.{excess};

use crate::item::{Choice, Load};
use crate::limit::{Limit, PARTS, excess};
use crate::merging::add_load;
use instance_store::NoMemory;
use std::cmp::Ordering;
use std::mem;

// The greatest worth of loads that weigh at most `cap` together, or what is known where that is greater.
pub(crate) fn search(
    loads: &mut Vec<Load>,
    cap: u64,
    known: u128,
    now: &mut Vec<Choice>,
    next: &mut Vec<Choice>,
) -> Result<u128, NoMemory>
    requires sum { sum_by (λ x. x.worth) loads.old.items < 2 ^ 110 }
    requires known { known < 2 ^ 110 }
    ensures { IfOk result (λ worth. worth ≡ max known (most cap loads.old.items)) }
{
    loads.sort_unstable_by(|a, b| by_rate(a, b));
    let worth = search_sorted(loads, cap, known, now, next)?;
    Ok(worth)
}

// The loads of most worth for their weight come first. Where products are past all numbers, the order
// only costs time.
fn by_rate(a: &Load, b: &Load) -> Ordering {
    let with_a = a.worth.saturating_mul(u128::from(b.weight));
    let with_b = b.worth.saturating_mul(u128::from(a.weight));
    with_b.cmp(&with_a)
}

fn search_sorted(
    loads: &[Load],
    cap: u64,
    known: u128,
    now: &mut Vec<Choice>,
    next: &mut Vec<Choice>,
) -> Result<u128, NoMemory>
    requires sum { sum_by (λ x. x.worth) loads.now < 2 ^ 110 }
    requires known { known < 2 ^ 110 }
    ensures { IfOk result (λ worth. worth ≡ max known (most cap loads.now)) }
{
    let mut limit = first_limit(loads, cap, known);
    now.clear();
    now.push(Choice {
        room: cap,
        worth: 0,
    })?;
    for k in 0..loads.len() {
        limit.pass(&loads[k]);
        add_load(now, loads, k, &limit, next)?;
        mem::swap(now, next);
        limit.best = raised(limit.best, now);
    }
    Ok(greatest(now, limit.best))
}

// The worth of the last choice, which has the greatest, where that is above what is reached.
fn raised(reached: u128, choices: &[Choice]) -> u128
    ensures { (rest : List Load) → max result (reach rest choices.now) ≡ max reached (reach rest choices.now) }
{
    let Some(last) = choices.last() else {
        return reached;
    };
    if last.worth <= reached {
        return reached;
    }
    last.worth
}

// The limit before any load is looked at.
fn first_limit(loads: &[Load], cap: u64, known: u128) -> Limit
    requires { sum_by (λ x. x.worth) loads.now < 2 ^ 110 }
    ensures best { max result.best (most cap loads.now) ≡ max known (most cap loads.now) }
    ensures gain { result.gain ≡ sum_by (excess result.price) loads.now }
{
    let price = break_rate(loads, cap);
    Limit {
        best: packed(loads, cap).max(known),
        gain: total_excess(price, loads),
        price,
    }
}

// The worth of the loads that are taken one after another where they still fit.
fn packed(loads: &[Load], cap: u64) -> u128
    requires { sum_by (λ x. x.worth) loads.now < 2 ^ 110 }
    ensures { result ≤ most cap loads.now }
{
    let mut room = cap;
    let mut worth = 0;
    for load in loads {
        if load.weight <= room {
            room -= load.weight;
            worth += load.worth;
        }
    }
    worth
}

// What the first load that no longer fits is worth for a unit of its weight, in parts.
fn break_rate(loads: &[Load], cap: u64) -> u64 {
    let mut room = cap;
    for load in loads {
        if load.weight > room {
            let rate = PARTS.saturating_mul(load.worth) / u128::from(load.weight);
            return u64::try_from(rate).unwrap_or(u64::MAX);
        }
        room -= load.weight;
    }
    0
}

fn total_excess(price: u64, loads: &[Load]) -> u128
    requires { sum_by (λ x. x.worth) loads.now < 2 ^ 110 }
    ensures { result ≡ sum_by (excess price) loads.now }
{
    let mut sum = 0;
    for load in loads {
        sum += excess(price, load);
    }
    sum
}

// The greatest worth of a choice, or of what is reached.
fn greatest(choices: &[Choice], reached: u128) -> u128
    ensures { result ≡ max reached (reach [] choices.now) }
{
    let mut best = reached;
    for choice in choices {
        if choice.worth > best {
            best = choice.worth;
        }
    }
    best
}

//! The continuous knapsacks of the sites: which payments fit into a capacity, and what a unit of it is
//! worth. Payments are parted around a pivot time and again, and never sorted.
ghost use Rattle.std.specs.Prelude.{◌≡◌, ◌<◌, length};

use crate::payments::{Payment, Purse};
use dual_steps::site::Site;

/// Packs each site's payments into its capacity, and fills in the slacks that are left.
pub(crate) fn pack_all(
    sites: &[Site],
    purses: &mut [Purse],
    payments: &mut [Payment],
    slacks: &mut [f64],
)
    requires sites { length sites.now ≡ length slacks.old }
    requires purses { length purses.old ≡ length slacks.old }
    ensures purses { length purses.new ≡ length purses.old }
    ensures payments { length payments.new ≡ length payments.old }
    ensures slacks { length slacks.new ≡ length slacks.old }
{
    for i in 0..slacks.len() {
        let packed = packed(purses[i], payments);
        purses[i] = packed;
        slacks[i] = sites[i].fixed - packed.gain;
    }
}

// What fits of the purse.
fn packed(purse: Purse, payments: &mut [Payment]) -> Purse
    ensures { length payments.new ≡ length payments.old }
{
    let mut next = purse;
    next.price = 0.0;
    next.part = 0.0;
    next.whole = purse.count;
    if purse.load <= purse.room {
        return next;
    }
    let cut = cut_off(payments, purse);
    next.gain = cut.gain;
    next.price = cut.price;
    next.whole = cut.low.saturating_sub(purse.start);
    next.part = cut.part;
    next
}

// How far a purse is cut: the payments before `low` fit and leave so much room, and what is cut is before
// `high`.
#[derive(Clone, Copy)]
struct Cut {
    low: usize,
    high: usize,
    left: f64,
    gain: f64,
    price: f64,
    part: f64,
}

// Finds the payment that fits in part, with those that fit before it and those that don't behind it.
fn cut_off(payments: &mut [Payment], purse: Purse) -> Cut
    ensures { length payments.new ≡ length payments.old }
{
    let end = purse.start.saturating_add(purse.count);
    let mut cut = Cut {
        low: purse.start,
        high: end.min(payments.len()),
        left: purse.room,
        gain: 0.0,
        price: 0.0,
        part: 0.0,
    };
    // Each turn takes a payment off what is left between the ends.
    for _turn in 0..purse.count {
        if cut.low >= cut.high {
            return cut;
        }
        cut = narrowed(payments, cut);
    }
    cut
}

// One turn: the payments between the ends are parted around one of them.
fn narrowed(payments: &mut [Payment], cut: Cut) -> Cut
    requires { cut.low < cut.high }
    ensures { length payments.new ≡ length payments.old }
{
    let last = cut.high - 1;
    if last >= payments.len() {
        return cut;
    }
    let middle = cut.low + (last - cut.low) / 2;
    exchange(payments, middle, last);
    let pivot = payments[last];
    let above = parted(payments, cut.low, last, pivot.ratio);
    let mut next = cut;
    if above.weight > cut.left {
        next.high = above.end;
        return next;
    }
    exchange(payments, above.end, last);
    next.low = above.end;
    next.gain += above.profit;
    next.left -= above.weight;
    taken(next, pivot)
}

// Behind the payments that fit comes the pivot, as a whole or in part.
fn taken(cut: Cut, pivot: Payment) -> Cut {
    let mut next = cut;
    if pivot.weight <= cut.left {
        next.low = cut.low.saturating_add(1);
        next.gain += pivot.profit;
        next.left -= pivot.weight;
        return next;
    }
    let part = cut.left / pivot.weight;
    next.high = cut.low;
    next.gain += part * pivot.profit;
    next.price = pivot.ratio;
    next.part = part;
    next
}

// Payments of the greater ratios, and the place behind them.
#[derive(Clone, Copy)]
struct Above {
    end: usize,
    weight: f64,
    profit: f64,
}

// Moves the payments with a greater ratio ahead of the others.
fn parted(payments: &mut [Payment], low: usize, high: usize, ratio: f64) -> Above
    ensures { length payments.new ≡ length payments.old }
{
    let mut above = Above {
        end: low,
        weight: 0.0,
        profit: 0.0,
    };
    for k in low..high.min(payments.len()) {
        let payment = payments[k];
        if payment.ratio > ratio {
            exchange(payments, above.end, k);
            above.end = above.end.saturating_add(1);
            above.weight += payment.weight;
            above.profit += payment.profit;
        }
    }
    above
}

#[inline(always)]
fn exchange(payments: &mut [Payment], a: usize, b: usize)
    ensures { length payments.new ≡ length payments.old }
{
    if a < payments.len() && b < payments.len() {
        let kept = payments[a];
        payments[a] = payments[b];
        payments[b] = kept;
    }
}

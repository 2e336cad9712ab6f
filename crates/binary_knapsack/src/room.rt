//! The memory of a search, and what is found in it.
ghost use Rattle.std.specs.Prelude.{◌≡◌, ◌≤◌, ◌<◌, ◌^◌, length, All, IfOk, ◌≤ℤ◌, IsTrue, max, pos, sum_by};
ghost use Rattle.std.specs.Int.{int_max};
ghost use Rattle.binary_knapsack.specs.Knapsack.{best_worth};
ghost use Rattle.binary_knapsack.specs.Loads.{most, most_in};

use crate::item::{Choice, Item, Load};
use crate::keeping::keep;
use crate::searching::search;
use instance_store::NoMemory;
use std::alloc::Global;

/// The greatest number of items.
pub const MAX_ITEMS: usize = 1_000_000;

/// The greatest worth of an item.
pub const MAX_WORTH: i128 = 1_000_000_000_000_000_000_000_000_000;

/// The greatest worth of a set of items.
pub const MAX_TOTAL: i128 = 1_000_000_000_000_000_000_000_000_000_000_000;

/// Room in memory for a search. It is made once and used again; it grows where a search needs more.
#[derive(Drop)]
pub struct KnapsackRoom {
    loads: Vec<Load>,
    now: Vec<Choice>,
    next: Vec<Choice>,
}

impl KnapsackRoom {
    /// Room that holds nothing yet.
    pub fn new(alloc: Global) -> KnapsackRoom {
        KnapsackRoom {
            loads: Vec::new(alloc),
            now: Vec::new(alloc),
            next: Vec::new(alloc),
        }
    }

    /// The greatest worth of a set of items whose weights together are at most `cap`, or of any set where
    /// there is no capacity. The empty set is one, so it is at least 0.
    ///
    /// It takes at most a step for each item and each weight that a set within the capacity may have, in
    /// memory for the weights alone. It fails only where memory runs out.
    pub fn best_worth(&mut self, items: &[Item], cap: Option<u64>) -> Result<i128, NoMemory>
        requires count { length items.now ≤ MAX_ITEMS }
        requires worths { All (λ x. x.worth ≤ℤ MAX_WORTH) items.now }
        ensures exact { IfOk result (λ worth. worth ≡ best_worth cap items.now) }
        ensures low { IfOk result (λ worth. pos 0 ≤ℤ worth) }
        ensures high { IfOk result (λ worth. worth ≤ℤ MAX_TOTAL) }
    {
        let worth = self.best_worth_from(items, cap, 0)?;
        Ok(worth)
    }

    /// The same, or `least` where that is greater. The search is the shorter the greater `least` is, and
    /// little more than a look at the items where they couldn't come to it in part.
    pub fn best_worth_from(
        &mut self,
        items: &[Item],
        cap: Option<u64>,
        least: i128,
    ) -> Result<i128, NoMemory>
        requires count { length items.now ≤ MAX_ITEMS }
        requires worths { All (λ x. x.worth ≤ℤ MAX_WORTH) items.now }
        requires least { least ≤ℤ MAX_TOTAL }
        ensures exact { IfOk result (λ worth. worth ≡ int_max least (best_worth cap items.now)) }
        ensures low { IfOk result (λ worth. pos 0 ≤ℤ worth) }
        ensures high { IfOk result (λ worth. worth ≤ℤ MAX_TOTAL) }
    {
        keep(items, cap, &mut self.loads)?;
        let worth = self.best_of_loads(cap, known_worth(least))?;
        Ok(worth as i128)
    }

    // The greatest worth of the loads within the capacity, or what is known where that is greater.
    fn best_of_loads(&mut self, cap: Option<u64>, known: u128) -> Result<u128, NoMemory>
        requires sum { sum_by (λ x. x.worth) self.old.loads.items < 2 ^ 110 }
        requires known { known < 2 ^ 110 }
        ensures { IfOk result (λ worth. worth ≡ max known (most_in cap self.old.loads.items)) }
    {
        match cap {
            None => Ok(total_worth(&self.loads).max(known)),
            Some(cap) => self.best_within(cap, known),
        }
    }

    fn best_within(&mut self, cap: u64, known: u128) -> Result<u128, NoMemory>
        requires sum { sum_by (λ x. x.worth) self.old.loads.items < 2 ^ 110 }
        requires known { known < 2 ^ 110 }
        ensures { IfOk result (λ worth. worth ≡ max known (most cap self.old.loads.items)) }
    {
        if fit_together(&self.loads, cap) {
            return Ok(total_worth(&self.loads).max(known));
        }
        let worth = search(&mut self.loads, cap, known, &mut self.now, &mut self.next)?;
        Ok(worth)
    }
}

// What is reached before any item is looked at: `least`, or the worth of the empty set.
fn known_worth(least: i128) -> u128
    requires { least ≤ℤ MAX_TOTAL }
    ensures exact { pos result ≡ int_max least (pos 0) }
    ensures small { result < 2 ^ 110 }
{
    if least > 0 { least.unsigned_abs() } else { 0 }
}

fn fit_together(loads: &[Load], cap: u64) -> bool
    ensures { IsTrue result → sum_by (λ x. x.weight) loads.now ≤ cap }
{
    let mut room = cap;
    for load in loads {
        if load.weight > room {
            return false;
        }
        room -= load.weight;
    }
    true
}

fn total_worth(loads: &[Load]) -> u128
    requires { sum_by (λ x. x.worth) loads.now < 2 ^ 110 }
    ensures { result ≡ sum_by (λ x. x.worth) loads.now }
{
    loads.iter().map(|load| load.worth).sum()
}

//! The 0-1 knapsack: the greatest worth of a set of whole items whose weights together are within a
//! capacity.
#![tactic(auto)]

mod item;
mod keeping;
mod limit;
mod merging;
mod room;
mod searching;

pub use instance_store::NoMemory;
pub use item::Item;
pub use room::{KnapsackRoom, MAX_ITEMS, MAX_TOTAL, MAX_WORTH};

#[cfg(test)]
mod tests;

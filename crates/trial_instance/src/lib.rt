//! Instances that a seed, a number of sites and a number of customers stand for, the same on every
//! machine: large ones without a file, to try a search on.
#![tactic(auto)]

mod draws;
mod instance;
mod square;

pub use instance::trial;

#[cfg(test)]
mod tests;

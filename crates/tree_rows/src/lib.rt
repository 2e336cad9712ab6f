//! Rows over the crates of trees: bounds of leaves, trees and their books, what a strategy is told, searches, and ranges.
//! There is nothing here but tests, which in a crate of their own are proved without those crates.
#![tactic(auto)]

#[cfg(test)]
mod books;
#[cfg(test)]
mod bounds;
#[cfg(test)]
mod given;
#[cfg(test)]
mod moves;
#[cfg(test)]
mod ranges;
#[cfg(test)]
mod searches;
#[cfg(test)]
mod trees;

//! Trees that are carried over edits of their instance: duals are read by the ids on which the tree
//! stood, and what speaks of sites and customers that are gone is left out. The definitions are in
//! `specs/`.
#![tactic(auto)]

mod carrying;
mod holding;
mod numbers;
mod places;
mod reducing;

pub use branch_tree::{MAX_TREE_NUMBERS, Tree};
pub use carrying::carry;
pub use holding::held;
pub use instance_store::{Instance, NoMemory};
pub use lane_order::LaneOrder;

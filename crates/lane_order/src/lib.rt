//! The lanes of an instance in order: for each customer the lanes from the cheapest on, as an ascent
//! of duals walks them.
#![tactic(auto)]

mod build;
mod edits;
mod lane_list;
mod order;
mod shifting;

pub use instance_store::{Instance, LaneRow, NoMemory};
pub use location_terms::SiteId;
pub use order::{LaneOrder, PlacedLane};

#[cfg(test)]
mod tests;

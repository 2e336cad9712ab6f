//! Steps that raise Lagrangean bounds without capacities: smoothed subgradients (the volume algorithm of
//! Barahona and Anbil, Mathematical Programming 87, 2000), steps of Polyak to a known cost, and cyclic
//! projections on the slacks. They propose duals and sets of sites, and nothing that they answer is
//! believed: of it is proved that it comes, and what its lengths are. Numbers are floats, in millionths.
#![tactic(auto)]

mod choosing;
mod closing;
pub mod customer;
mod favouring;
mod near;
mod payers;
mod paying;
mod progress;
pub mod rounding;
pub mod site;
mod snapping;
pub mod start;
mod steps;
mod units;
mod volume;

pub use instance_store::{Instance, NoMemory};
pub use lane_order::LaneOrder;
pub use progress::Progress;
pub use steps::Steps;

//! How far the farthest customer of a plan is, and the instances that say whether a plan can do better: those
//! with the cheap lanes alone. The definitions are in `specs/`.
#![tactic(auto)]

mod cheaper;
mod lane_change;
mod laws;
mod radius;

pub use cheaper::{below_cost, clear_costs};
pub use laws::{cheap_plans, costless_bounds, least_radii};
pub use radius::radius_of;

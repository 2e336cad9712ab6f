//! Duals for whole knapsacks, sought by steps in floats. Where capacities are tight, a site that serves each customer
//! as a whole or not at all collects less than one that may serve parts, so the bound is greater (Holmberg,
//! Rönnqvist and Yuan, European Journal of Operational Research 113, 1999). Nothing that the steps answer is
//! believed: of it is proved that it comes, and what its lengths are. Numbers are floats, in millionths.
#![tactic(auto)]

mod climbing;
mod filling;
mod gait;
mod inherited;
mod lane;
mod packing;
mod splits;
mod steps;
mod volume;

pub use inherited::Inherited;
pub use instance_store::{Instance, NoMemory};
pub use splits::LanePlace;
pub use steps::WholeSteps;

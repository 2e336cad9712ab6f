//! What a search tries in the boxes of its tree: by which steps duals are sought and for how long, around which sites
//! plans are, and on which site or lane a box is best split. It only proposes, and nothing of it is believed: of it
//! is proved that it answers, and what its lengths are. Its numbers stand in `constants`.
#![tactic(auto)]

mod beginning;
mod constants;
mod course;
mod full;
mod kept;
mod knapsacks;
mod leaves;
mod lookout;
mod plans;
mod prices;
mod pricing;
mod regrowing;
mod splitting;
mod stepping;
mod strategy;
mod trail;
mod tried;
mod widening;

pub use instance_store::{Instance, NoMemory};
pub use kept::{Kept, KeptCustomer, KeptSite};
pub use lane_order::LaneOrder;
pub use strategy::SearchStrategy;
pub use strategy_port::Strategy;

//! The outside of a search of a tree of boxes, as a trait: what proposes duals and plans for an open leaf, and how
//! its box is to be split. The search tries what is proposed and keeps what it sees to be better, so nothing that a
//! strategy answers is believed, and nothing is asked of it but that it answers.
#![tactic(auto)]

mod moves;
mod plain;
mod scene;
mod strategy;

pub use dual_value::{Duals, PreparedBox};
pub use instance_store::NoMemory;
pub use lane_order::LaneOrder;
pub use moves::{Move, Wish};
pub use plain::PlainStrategy;
pub use plan_meaning::Plan;
pub use scene::Scene;
pub use strategy::Strategy;

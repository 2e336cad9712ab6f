//! Prices of capacities. Steps and flows in floats find them, together with the duals of the customers and the
//! price of the number of open sites; nothing that they answer is believed: of it is proved that it comes,
//! and what its lengths are. The call `improve` is believed: it keeps what raises the bound.
//!
//! Where sites are free, a set of duals of the customers leaves each site a continuous knapsack, whose
//! critical ratio is the best price of its capacity (Sridharan, European Journal of Operational Research
//! 87, 1995). So steps go in the customers' duals alone. Where no site is free, the box is a transportation
//! problem, whose solution has the best prices. Numbers are floats, in millionths.
#![tactic(auto)]

mod box_lanes;
mod cap_steps;
mod flows;
mod improving;
mod links;
mod pace;
mod packing;
mod payments;
mod refusing;
mod room_lanes;
mod rooms;
mod transport;
mod trials;
mod volume;

pub use cap_steps::CapSteps;
pub use improving::improve;
pub use instance_store::{Instance, NoMemory};
pub use lane_order::LaneOrder;
pub use links::LanePlace;
pub use pace::{AT_ROOT, IN_NODE, Pace};
pub use transport::Transport;

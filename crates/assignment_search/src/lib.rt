//! Plans where sites have capacities: a search for open sites and for an assignment of each whole customer to
//! one of them. What it finds is only proposed, and judged before it is given.
#![tactic(auto)]

mod assigned;
mod assignment;
mod lane_table;
mod opening;
mod promise;
mod proposing;
mod regret;
mod settling;
mod state;
mod within;

pub use assignment::Assignment;
pub use proposing::{assigned_plan, seated_plan};

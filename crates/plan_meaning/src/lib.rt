//! Plans: which sites are open and which site serves each customer, and their judge, which says
//! whether a plan is feasible for an instance and what it costs.
#![tactic(auto)]

mod amounts;
mod carried;
mod fault;
mod judging;
mod parts;
mod plan;

pub use amounts::{cost, fixed_cost, lane_used, load};
pub use fault::PlanFault;
pub use judging::judge;
pub use plan::Plan;

#[cfg(test)]
mod tests;

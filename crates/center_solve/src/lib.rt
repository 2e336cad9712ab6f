//! Centers and the cost curve: the plan whose farthest customer is as near as can be, and what each number of
//! warehouses costs. The definitions are in `specs/`.
#![tactic(auto)]

mod answer;
mod counted;
mod former;
mod greatest;
mod hint;
mod known;
mod lane_costs;
mod near;
mod probe;
mod ray;
mod reach;
mod searched;
mod seeking;

pub use answer::CenterAnswer;
pub use counted::{curve, curve_from, with_exact_count};
pub use hint::Hint;
pub use plan_radius::{below_cost, radius_of};
pub use seeking::center;
pub use tree_search::{Answer, Instance, NoMemory, Plan, Tree};

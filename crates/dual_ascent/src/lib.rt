//! The dual ascent: how far the customers' duals rise, one after the other, round after round, with
//! the slacks kept while they do. The definitions are in `specs/`, and what follows from them is the
//! law `ascents`.
#![tactic(auto)]

mod ascending;
mod climbing;
mod laws;
mod looking;
mod lowering;
mod seating;
mod workspace;

pub use ascending::{ascend, ascend_in, ascend_others, ascend_others_in};
pub use dual_value::{Duals, Path, PreparedBox};
pub use instance_store::{Instance, NoMemory};
pub use lane_order::LaneOrder;
pub use laws::ascents;
pub use workspace::Workspace;

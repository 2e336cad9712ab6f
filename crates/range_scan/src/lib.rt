//! How far one cost may move while a plan stays proved optimal: the range of a site's fixed cost, or of a
//! lane's cost, in which the tree that proves the plan optimal now still does.
#![tactic(auto)]

mod lacking;
mod laws;
mod range;
mod refusal;
mod scanning;

pub use laws::{proved_between, proved_beyond};
pub use range::Range;
pub use refusal::RangeRefusal;
pub use scanning::{fixed_range, lane_range};

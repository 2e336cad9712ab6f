//! Plans in a box: what is packed for a hint of sites, by rule, and what is found from there. The
//! definitions are in `specs/`, and what follows from them is the law `packed_plans`.
#![tactic(auto)]

mod caps;
mod changes;
mod chosen;
mod exchanges;
mod flags;
mod known;
mod lanes;
mod laws;
mod local;
mod packing;
mod prospects;
mod seeking;
mod serving;
mod turns;

pub use caps::has_no_caps;
pub use chosen::opened_count;
pub use known::is_path_of;
pub use laws::packed_plans;
pub use local::LocalSearch;
pub use seeking::{best_seen, improved_set, packed_in, plan_around};

//! Exact answers for instances of few sites, where every site may be opened and serve everyone: a
//! walk over all sets of sites. It looks at each set that is not empty, serves each customer from
//! the nearest site of the set, and keeps a set of least cost.
#![tactic(auto)]

mod plain;
mod pricing;
mod site_set;
mod walk;

pub use plain::is_plain;
pub use walk::{Cheapest, cheapest_plan};

/// The most sites that the walk takes.
pub const MAX_WALK_SITES: usize = 12;

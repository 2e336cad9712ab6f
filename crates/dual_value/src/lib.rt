//! Boxes of decisions and the bounds that duals give in them: what a path of decisions settles of an
//! instance, whether duals are within their limits, the slack of a site, the bound of a box, and
//! whether a bound closes a box. The definitions are those of `location_terms`.
#![tactic(auto)]

mod bounds;
mod box_bounds;
mod by_place;
mod closing;
mod duals;
mod fit;
mod lane_steps;
mod laws;
mod path;
mod prepared;
mod preparing;
mod scales;
mod seen_path;
mod settled;
mod slacks;

pub use bounds::{MAX_BOUND, MAX_SLACK, bound, count_price, level, slack, value_total};
pub use box_bounds::BoxBounds;
pub use by_place::DualsByPlace;
pub use closing::closes;
pub use duals::Duals;
pub use fit::{RangeFault, fits, tame};
pub use laws::bounds_rise;
pub use location_terms::Decision;
pub use path::Path;
pub use prepared::PreparedBox;
pub use scales::{is_at_least, is_greater};
pub use settled::{SiteState, allowed, is_torn, site_state};
pub use slacks::{bound_from, fill_slacks};

#[cfg(test)]
mod bound_tests;
#[cfg(test)]
mod tests;

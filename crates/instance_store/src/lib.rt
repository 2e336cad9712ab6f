//! Instances of a warehouse location problem as they are stored: a row of lanes for each site, by
//! place, and the places by id. A clause sees an instance as the definition of `location_terms`,
//! whose lanes are a map from pairs of ids, and each one is valid.
#![tactic(auto)]

mod index;
mod instance;
mod memory;
mod numbered;
mod rows;

pub use instance::Instance;
pub use location_terms::{CustId, SiteId, SiteStatus};
pub use memory::NoMemory;
pub use numbered::{CustLanes, ListedSite, SiteLanes};
pub use rows::{CustRow, LaneRow, SiteRow};

#[cfg(test)]
mod tests;

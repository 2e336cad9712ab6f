//! The bounds of leaves in both forms: by prices, or by whole knapsacks, in which a site collects from
//! the best set of whole customers that fits into its capacity. The definitions are those of
//! `location_terms`.
#![tactic(auto)]

mod fit;
mod gathering;
mod leaf_bounds;
mod small;
mod whole;

pub use fit::LeafFault;
pub use leaf_bounds::LeafBounds;
pub use small::has_small_knapsacks;

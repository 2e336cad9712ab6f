//! Trees of boxes, which certificates carry and searches grow: a leaf has duals, and a split on a site
//! or a lane has two children that together hold every plan of its box. A clause sees a tree as the
//! definition of `location_terms`.
#![tactic(auto)]

mod bounds;
mod builder;
mod course;
mod entry;
mod growth;
mod laws;
mod leaves;
mod limits;
mod node;
mod open_split;
mod renewal;
mod tree;
mod walk;

pub use builder::Builder;
pub use dual_value::{Decision, Duals, Path};
pub use growth::Growth;
pub use laws::closes_against_its_low_end;
pub use limits::MAX_TREE_NUMBERS;
pub use location_terms::Split;
pub use node::NodeKind;
pub use renewal::Renewal;
pub use tree::Tree;
pub use walk::{LeafWalk, pass_leaf};

//! The slacks and bounds of the leaves of a tree, as it is carried over to an instance. They follow the
//! instance's edits without being added up anew.
#![tactic(auto)]

mod book;
mod change;
mod ids;
mod kept;
mod one_site;
mod places;
mod row;
mod row_sums;
mod rows;
mod seen;

pub use book::LeafBook;
pub use branch_tree::Tree;
pub use change::Change;
pub use instance_edits::{Edit, Inverse};
pub use instance_store::{Instance, NoMemory};
pub use places::LeafPlace;

//! The rows of a store's two tables as scenarios and lists of names.
//!
//! What a store answers is taken whole or not at all: a row of another shape, a place that is missing, a
//! number that isn't that of the lines, or names that don't rise make the whole answer unlike.
#![tactic(auto)]

mod cells;
mod fault;
mod names;
mod scenario;

pub use fault::RowsFault;
pub use names::names_of;
pub use scenario::scenario_of;

//! What is told of an answer, as text.
#![tactic(auto)]

mod duals;
mod json_line;
mod plan;
mod served;
mod table;

pub use duals::duals_text;
pub use json_line::json_text;
pub use plan::plan_text;
pub use table::site_table;

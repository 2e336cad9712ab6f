//! A strategy for instances whose plans may open few sites only: in a box where no plan is known it seeks the fewest sites
//! that can serve all customers. Where these are too many, a ray shows the box to be empty; where they are few enough,
//! they are a plan. It only proposes, and nothing of it is believed.
#![tactic(auto)]

mod counted;
mod covering;
mod exchanges;
mod raised;
mod strategy;

pub use covering::{covering_of, is_count_tight};
pub use strategy::CoverStrategy;

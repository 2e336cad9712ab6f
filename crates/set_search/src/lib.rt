//! Plans by a search among sets of open sites, where sites have capacities. What a set costs at least is told
//! by its transportation problem, in which a customer's demand may be split; at the cheapest sets customers
//! are seated whole by moves in no order that may also cost something. What is found is only proposed.
#![tactic(auto)]

mod change;
mod moves;
mod ordered;
mod seating;
mod seeking;
mod set;

pub use ordered::Ordered;
pub use seeking::SetSearch;

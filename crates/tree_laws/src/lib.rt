//! What holds of the trees and answers of one search after another, by the definitions alone. Each law is
//! the contract of a function that does nothing.
#![tactic(auto)]

mod answers;
mod trees;

pub use answers::answers_have_texts;
pub use trees::trees_decide_once;

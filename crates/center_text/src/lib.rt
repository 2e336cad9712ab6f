//! The text of a center's plan file.
#![tactic(auto)]

mod claim;
mod text;

pub use claim::RadiusClaim;
pub use text::{center_text, push_radius};

#[cfg(test)]
mod tests;

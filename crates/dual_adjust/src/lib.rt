//! Complementary slackness and the adjustment of ascended duals: a dual that pays more than one tight
//! site is lowered where the others' rise makes the bound greater. The definitions are in `specs/`, and
//! what follows from them alone is the law `candidates`.
#![tactic(auto)]

mod adjusting;
mod laws;
mod lowering;
mod slackness;
mod trials;

pub use adjusting::{adjust, adjust_in, adjust_once, gain};
pub use laws::candidates;
pub use slackness::{tight_sites, violations};
pub use trials::Trials;

//! The checker of certificates.
#![tactic(auto)]

mod against;
mod checker;
mod laws;
mod verdict;

pub use certificate_reader::{CertFault, CertKind, MAX_CERTIFICATE_BYTES};
pub use checker::check;
pub use laws::verdicts;
pub use verdict::{Verdict, Why};

#[cfg(test)]
mod endless_tests;
#[cfg(test)]
mod status_tests;
#[cfg(test)]
mod tests;
#[cfg(test)]
mod whole_tests;

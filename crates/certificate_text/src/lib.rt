//! Certificates as text: written to a file leaf by leaf, and read back from one.
#![tactic(auto)]

mod certificate;
mod kept;
mod laws;
mod print;
mod read;
mod write;

pub use certificate::{Certificate, CertificateRef};
pub use certificate_reader::{CertFault, CertKind, MAX_CERTIFICATE_BYTES};
pub use laws::one_text;
pub use read::read_cert;
pub use write::write_cert;

#[cfg(test)]
mod tests;

//! The text of a certificate, read from a file a line at a time: what each line shows, and how the
//! text ends. What keeps certificates and what judges them stand on this one reader.
#![tactic(auto)]

mod reader;

pub use certificate_lines::{CertFault, CertKind, MAX_CERTIFICATE_BYTES};
pub use reader::{CertReader, Seen};

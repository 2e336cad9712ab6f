//! The lines of a certificate's text: which one is due, what a line says there, and the first kind of
//! fault that it has. What writes, reads and checks certificates stands on these.
#![tactic(auto)]

mod claim_line;
mod fault;
mod head;
mod kind;
mod laws;
mod leaf;
mod limited;
mod limits;
mod line;
mod node;
mod plan_lines;
mod row;
mod row_checks;
mod statuses;

pub use fault::CertFault;
pub use kind::CertKind;
pub use laws::texts_fit;
pub use limits::MAX_CERTIFICATE_BYTES;
pub use line::{Due, LeafHead, LineFault, Shown};
pub use statuses::{is_all_free, is_status, version};

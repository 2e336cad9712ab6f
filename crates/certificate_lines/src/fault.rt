ghost use Rattle.std.specs.Prelude.{◌≡◌};
ghost use Rattle.certificate_lines.specs.declared.fault.CertFault.TheVariants.{NoMemory as OutOfMemory};

use crate::CertKind;
use instance_store::NoMemory;
use thiserror::Error;

/// Why a certificate is not read: the first fault of its text, or what kept it from being read.
#[derive(Clone, Copy, Debug, PartialEq, Eq, Error)]
pub enum CertFault {
    /// The text has a fault in this line, counted from 1.
    #[error("line {line}: {kind}")]
    Text { kind: CertKind, line: u64 },
    /// The file is longer than `MAX_CERTIFICATE_BYTES`, and nothing was decided within them.
    #[error("the certificate is too long")]
    TooLong,
    /// A read of the file failed.
    #[error("the certificate could not be read")]
    ReadFailed,
    /// Memory ran out.
    #[error("out of memory")]
    NoMemory,
}

impl From<NoMemory> for CertFault {
    ghost from_gives = { λ _ fault. fault ≡ OutOfMemory };

    fn from(_e: NoMemory) -> CertFault {
        CertFault::NoMemory
    }
}

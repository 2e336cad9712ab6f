// Why a line was not read.
ghost use Rattle.std.specs.Prelude.{◌≡◌};
ghost use Rattle.shelf_lines.specs.Faults.{input_fault, line_fault};
ghost use Rattle.shelf_lines.specs.declared.fault.LineFault.TheVariants as line;

use shelf_port::{ShelfFault, SourceFault};
use std::alloc::AllocError;
use thiserror::Error;

/// Why a line was not read.
#[derive(Clone, Copy, Debug, PartialEq, Eq, Error)]
pub enum LineFault {
    /// A read of the file or of the input failed.
    #[error("the lines could not be read")]
    Failed,
    /// Memory ran out.
    #[error("out of memory")]
    NoMemory,
}

impl From<AllocError> for LineFault {
    ghost from_gives = { λ _ e. e ≡ line.NoMemory };

    fn from(_: AllocError) -> Self {
        LineFault::NoMemory
    }
}

impl From<ShelfFault> for LineFault {
    ghost from_gives = { λ fault e. e ≡ line_fault fault };

    fn from(fault: ShelfFault) -> Self {
        match fault {
            ShelfFault::Failed => LineFault::Failed,
            ShelfFault::NoMemory => LineFault::NoMemory,
        }
    }
}

impl From<SourceFault> for LineFault {
    ghost from_gives = { λ fault e. e ≡ input_fault fault };

    fn from(fault: SourceFault) -> Self {
        match fault {
            SourceFault::Failed => LineFault::Failed,
            SourceFault::NoMemory => LineFault::NoMemory,
        }
    }
}

// Why rows were not taken.
ghost use Rattle.std.specs.Prelude.{◌≡◌};
ghost use Rattle.sqlite_rows.specs.declared.fault.RowsFault.TheVariants as fault;

use scenario_keeper::NoMemory;
use std::alloc::{AllocError, AllocFailed};
use thiserror::Error;

/// Why rows were not taken.
#[derive(Clone, Copy, Debug, PartialEq, Eq, Error)]
pub enum RowsFault {
    /// They aren't those of any scenario, or of any list of names.
    #[error("the rows are of another kind")]
    Unlike,
    /// Memory ran out.
    #[error("out of memory")]
    NoMemory,
}

impl From<NoMemory> for RowsFault {
    ghost from_gives = { λ _ e. e ≡ fault.NoMemory };

    fn from(_: NoMemory) -> Self {
        RowsFault::NoMemory
    }
}

impl From<AllocError> for RowsFault {
    ghost from_gives = { λ _ e. e ≡ fault.NoMemory };

    fn from(_: AllocError) -> Self {
        RowsFault::NoMemory
    }
}

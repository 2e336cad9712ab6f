// Why a call on a keeper was refused.
ghost use Rattle.std.specs.Prelude.{◌≡◌};
ghost use Rattle.scenario_keeper.specs.declared.fault.KeeperFault.TheVariants as keeper;

use std::alloc::{AllocError, AllocFailed};
use thiserror::Error;

/// Memory ran out, and nothing else was wrong.
#[derive(Clone, Copy, Debug, PartialEq, Eq, Error)]
#[error("out of memory")]
pub struct NoMemory;

/// Why one call on a keeper was refused.
#[derive(Clone, Copy, Debug, PartialEq, Eq, Error)]
pub enum KeeperFault {
    /// The scenarios could not be reached or changed.
    #[error("the scenarios could not be reached")]
    Failed,
    /// Memory ran out.
    #[error("out of memory")]
    NoMemory,
}

impl From<AllocError> for NoMemory {
    fn from(_: AllocError) -> Self {
        NoMemory
    }
}

impl<T: Drop> From<AllocFailed<T>> for NoMemory {
    fn from(_: AllocFailed<T>) -> Self {
        NoMemory
    }
}

impl From<NoMemory> for KeeperFault {
    ghost from_gives = { λ _ e. e ≡ keeper.NoMemory };

    fn from(_: NoMemory) -> Self {
        KeeperFault::NoMemory
    }
}

impl From<AllocError> for KeeperFault {
    ghost from_gives = { λ _ e. e ≡ keeper.NoMemory };

    fn from(_: AllocError) -> Self {
        KeeperFault::NoMemory
    }
}

impl<T: Drop> From<AllocFailed<T>> for KeeperFault {
    ghost from_gives = { λ _ e. e ≡ keeper.NoMemory };

    fn from(_: AllocFailed<T>) -> Self {
        KeeperFault::NoMemory
    }
}

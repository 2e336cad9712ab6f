// Why a call on a shelf, a source or a sink was refused.
ghost use Rattle.std.specs.Prelude.{◌≡◌};
ghost use Rattle.shelf_port.specs.Faults.{read_fault, put_fault};
ghost use Rattle.shelf_port.specs.declared.fault.ShelfFault.TheVariants as shelf;
ghost use Rattle.shelf_port.specs.declared.fault.SinkFault.TheVariants as sink;
ghost use Rattle.shelf_port.specs.declared.fault.ReadWhole.TheVariants as read;
ghost use Rattle.shelf_port.specs.declared.fault.PutFault.TheVariants as put;

use std::alloc::{AllocError, AllocFailed};
use thiserror::Error;

/// Why one call on a shelf was refused.
#[derive(Clone, Copy, Debug, PartialEq, Eq, Error)]
pub enum ShelfFault {
    /// The file could not be read or written, or isn't there to be read.
    #[error("the file could not be read or written")]
    Failed,
    /// Memory ran out.
    #[error("out of memory")]
    NoMemory,
}

/// Why one read of a source was refused.
#[derive(Clone, Copy, Debug, PartialEq, Eq, Error)]
pub enum SourceFault {
    /// The input could not be read.
    #[error("the input could not be read")]
    Failed,
    /// Memory ran out.
    #[error("out of memory")]
    NoMemory,
}

/// Why one write to a sink was refused.
#[derive(Clone, Copy, Debug, PartialEq, Eq, Error)]
pub enum SinkFault {
    /// The output could not be written.
    #[error("the output could not be written")]
    Failed,
    /// Memory ran out.
    #[error("out of memory")]
    NoMemory,
}

/// Why a file was not read whole.
#[derive(Clone, Copy, Debug, PartialEq, Eq, Error)]
pub enum ReadWhole {
    /// A read failed.
    #[error("the file could not be read")]
    Failed,
    /// More bytes came than the limit allows.
    #[error("the file is too long")]
    TooLong,
    /// Memory ran out.
    #[error("out of memory")]
    NoMemory,
}

/// Why a file was not written whole.
#[derive(Clone, Copy, Debug, PartialEq, Eq, Error)]
pub enum PutFault {
    /// A write failed.
    #[error("the file could not be written")]
    Failed,
    /// Memory ran out.
    #[error("out of memory")]
    NoMemory,
}

impl From<AllocError> for ShelfFault {
    ghost from_gives = { λ _ e. e ≡ shelf.NoMemory };

    fn from(_: AllocError) -> Self {
        ShelfFault::NoMemory
    }
}

impl<T: Drop> From<AllocFailed<T>> for ShelfFault {
    ghost from_gives = { λ _ e. e ≡ shelf.NoMemory };

    fn from(_: AllocFailed<T>) -> Self {
        ShelfFault::NoMemory
    }
}

impl From<AllocError> for SinkFault {
    ghost from_gives = { λ _ e. e ≡ sink.NoMemory };

    fn from(_: AllocError) -> Self {
        SinkFault::NoMemory
    }
}

impl From<AllocError> for ReadWhole {
    ghost from_gives = { λ _ e. e ≡ read.NoMemory };

    fn from(_: AllocError) -> Self {
        ReadWhole::NoMemory
    }
}

impl From<ShelfFault> for ReadWhole {
    ghost from_gives = { λ fault e. e ≡ read_fault fault };

    fn from(fault: ShelfFault) -> Self {
        match fault {
            ShelfFault::Failed => ReadWhole::Failed,
            ShelfFault::NoMemory => ReadWhole::NoMemory,
        }
    }
}

impl From<AllocError> for PutFault {
    ghost from_gives = { λ _ e. e ≡ put.NoMemory };

    fn from(_: AllocError) -> Self {
        PutFault::NoMemory
    }
}

impl From<ShelfFault> for PutFault {
    ghost from_gives = { λ fault e. e ≡ put_fault fault };

    fn from(fault: ShelfFault) -> Self {
        match fault {
            ShelfFault::Failed => PutFault::Failed,
            ShelfFault::NoMemory => PutFault::NoMemory,
        }
    }
}

// Why a call on a store was refused.
use sqlite::{Error, ErrorCode};
use sqlite_rows::RowsFault;
use std::alloc::{AllocError, AllocFailed};

/// Why a call on a store was refused, before it is counted.
#[derive(Clone, Copy, Debug, PartialEq, Eq)]
pub(crate) enum Refusal {
    /// The store isn't there, isn't one of this crate, is locked, or doesn't take or give what it should.
    Store,
    NoMemory,
}

impl From<Error> for Refusal {
    fn from(error: Error) -> Self {
        match error {
            Error::SqliteFailure(ErrorCode::OutOfMemory) => Refusal::NoMemory,
            _ => Refusal::Store,
        }
    }
}

impl From<RowsFault> for Refusal {
    fn from(fault: RowsFault) -> Self {
        match fault {
            RowsFault::Unlike => Refusal::Store,
            RowsFault::NoMemory => Refusal::NoMemory,
        }
    }
}

impl From<AllocError> for Refusal {
    fn from(_: AllocError) -> Self {
        Refusal::NoMemory
    }
}

impl<T: Drop> From<AllocFailed<T>> for Refusal {
    fn from(_: AllocFailed<T>) -> Self {
        Refusal::NoMemory
    }
}

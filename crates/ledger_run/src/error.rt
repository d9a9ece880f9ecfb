//! Why an act on a ledger failed.

use ledger_disk::DiskError;
use std::alloc::{AllocError, AllocFailed};

/// Why an act on a ledger failed. Whichever it was: the ledger in memory is to be opened anew, unless the act says that it stays.
#[derive(Clone, Copy, PartialEq, Eq)]
pub enum LedgerError {
    /// The disk failed, or a growth was refused.
    Disk(DiskError),
    /// What is recorded can't stand behind the commits before it, or a commit names another one before it than there is.
    Refused,
    /// A text ran longer than it may.
    Late,
    /// It printed more than it may.
    Long,
}

impl From<DiskError> for LedgerError {
    fn from(error: DiskError) -> LedgerError {
        LedgerError::Disk(error)
    }
}

impl From<AllocError> for LedgerError {
    fn from(_: AllocError) -> LedgerError {
        LedgerError::Disk(DiskError::Memory)
    }
}

impl<T: Drop> From<AllocFailed<T>> for LedgerError {
    fn from(_: AllocFailed<T>) -> LedgerError {
        LedgerError::Disk(DiskError::Memory)
    }
}

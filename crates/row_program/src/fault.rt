//! Why a row is not run.

use std::alloc::{AllocError, AllocFailed};
use thiserror::Error;

/// Why a row was not run.
#[derive(Debug, Drop, Error)]
pub enum RowFault {
    /// The row lacks this key, or has the wrong kind of value under it.
    #[error("`{0}` is missing or of the wrong kind")]
    Key(&'static str),
    /// What the row is run on could not be made, for this reason.
    #[error("{0}")]
    Refused(String),
    /// There was no memory to run the row.
    #[error("out of memory")]
    Memory,
}

impl From<AllocError> for RowFault {
    fn from(_refused: AllocError) -> RowFault {
        RowFault::Memory
    }
}

impl<T: Drop> From<AllocFailed<T>> for RowFault {
    fn from(_refused: AllocFailed<T>) -> RowFault {
        RowFault::Memory
    }
}

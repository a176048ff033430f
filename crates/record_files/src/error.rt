//! Why a file was not read.

ghost use Rattle.std.specs.Prelude.{◌≡◌};

use crate::field::Field;
use crate::key::Key;
use std::alloc::{AllocError, AllocFailed};
use thiserror::Error;

/// Why a file was not read.
#[derive(Debug, Drop, PartialEq, Eq, Error)]
pub enum ReadError {
    /// The bytes are not JSON.
    #[error("not JSON")]
    BadJson,
    /// The first that is missing or of the wrong kind.
    #[error("`{0}` is missing or of the wrong kind")]
    BadShape(Field),
    /// There was no memory for what the file holds.
    #[error("out of memory")]
    Memory,
}

impl ReadError {
    /// The fault of a key's value.
    pub fn at(key: Key) -> ReadError
        ensures { result ≡ ReadError.BadShape (Field.Key key) }
    {
        ReadError::BadShape(Field::Key(key))
    }
}

impl From<AllocError> for ReadError {
    ghost use Rattle.std.specs.Prelude.{◌≡◌};
    ghost use Rattle.record_files.specs.declared.error.ReadError.TheVariants.{Memory};

    ghost from_gives = { λ _ e. e ≡ Memory };

    fn from(_refused: AllocError) -> ReadError {
        ReadError::Memory
    }
}

impl<T: Drop> From<AllocFailed<T>> for ReadError {
    ghost use Rattle.std.specs.Prelude.{◌≡◌};
    ghost use Rattle.record_files.specs.declared.error.ReadError.TheVariants.{Memory};

    ghost from_gives = { λ _ e. e ≡ Memory };

    fn from(_refused: AllocFailed<T>) -> ReadError {
        ReadError::Memory
    }
}

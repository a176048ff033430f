//! Why metadata are not read.

ghost use Rattle.std.specs.Prelude.{◌≡◌};

use crate::key::Key;
use std::alloc::{AllocError, AllocFailed};
use thiserror::Error;

/// Why metadata are not read.
#[derive(Debug, Drop, PartialEq, Eq, Error)]
pub enum MetadataError {
    /// The bytes are not JSON.
    #[error("not JSON")]
    BadJson,
    /// The first key whose value is missing or of the wrong kind, of no package that is called something.
    #[error("`{0}` is missing or of the wrong kind")]
    BadShape(Key),
    /// The first key of a package, by its name or else its id, whose value is so.
    #[error("package {0}: `{1}` is missing or of the wrong kind")]
    BadPackage(String, Key),
    /// A package's target, by its name, has a kind that is not known.
    #[error("{0}: target {1}: unknown kind `{2}`")]
    UnknownKind(String, String, String),
    /// There was no memory for what the file holds.
    #[error("out of memory")]
    Memory,
}

impl MetadataError {
    /// The fault of a key's value.
    pub(crate) fn at(key: Key) -> MetadataError
        ensures { result ≡ MetadataError.BadShape key }
    {
        MetadataError::BadShape(key)
    }
}

impl From<AllocError> for MetadataError {
    ghost use Rattle.std.specs.Prelude.{◌≡◌};
    ghost use Rattle.cargo_metadata.specs.declared.error.MetadataError.TheVariants.{Memory};

    ghost from_gives = { λ _ e. e ≡ Memory };

    fn from(_refused: AllocError) -> MetadataError {
        MetadataError::Memory
    }
}

impl<T: Drop> From<AllocFailed<T>> for MetadataError {
    ghost use Rattle.std.specs.Prelude.{◌≡◌};
    ghost use Rattle.cargo_metadata.specs.declared.error.MetadataError.TheVariants.{Memory};

    ghost from_gives = { λ _ e. e ≡ Memory };

    fn from(_refused: AllocFailed<T>) -> MetadataError {
        MetadataError::Memory
    }
}

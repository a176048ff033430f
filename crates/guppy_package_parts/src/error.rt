//! Why a question to a graph has no answer.

use std::alloc::{AllocError, AllocFailed};
use thiserror::Error;

// Its texts are guppy's words without the ids; warnings have no printed text.
/// Why a question to a package graph or a feature graph has no answer.
#[derive(Clone, Copy, Debug, PartialEq, Eq, Error)]
pub enum Error {
    /// No package of the graph has the id.
    #[error("unknown package ID")]
    UnknownPackageId,
    /// No package of the graph has the feature.
    #[error("unknown feature ID")]
    UnknownFeatureId,
    /// No member of the workspace has the path.
    #[error("unknown workspace path")]
    UnknownWorkspacePath,
    /// No member of the workspace has the name.
    #[error("unknown workspace name")]
    UnknownWorkspaceName,
    /// A package graph breaks one of its own rules.
    #[error("internal error in a package graph")]
    PackageGraphInternalError,
    /// A feature graph breaks one of its own rules.
    #[error("internal error in a feature graph")]
    FeatureGraphInternalError,
    /// Memory ran out.
    #[error("out of memory")]
    Memory,
}

impl From<AllocError> for Error {
    ghost use Rattle.std.specs.Prelude.{◌≡◌};
    ghost use Rattle.guppy_package_parts.specs.declared.error.Error.TheVariants.{Memory};

    ghost from_gives = { λ _ e. e ≡ Memory };

    fn from(_refused: AllocError) -> Error {
        Error::Memory
    }
}

impl<T: Drop> From<AllocFailed<T>> for Error {
    ghost use Rattle.std.specs.Prelude.{◌≡◌};
    ghost use Rattle.guppy_package_parts.specs.declared.error.Error.TheVariants.{Memory};

    ghost from_gives = { λ _ e. e ≡ Memory };

    fn from(_refused: AllocFailed<T>) -> Error {
        Error::Memory
    }
}

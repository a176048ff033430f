//! What changed, and why that cannot be said.

ghost use Rattle.std.specs.Prelude.{◌≡◌};
ghost use Rattle.test_select_changes.specs.declared.changed.ChangedError.TheVariants.{Memory};

use std::alloc::{AllocError, AllocFailed};

/// What changed paths come to.
#[derive(Debug, Drop)]
pub enum Changed {
    /// Any package may have changed.
    All,
    /// The packages with these names, ascending, each once.
    Packages(Vec<String>),
}

/// Why it is not known what changed.
#[derive(Clone, Copy, Debug, Drop, PartialEq, Eq)]
pub enum ChangedError {
    /// The path at this place is absolute, or has a part `..`.
    Path(usize),
    /// There was no memory.
    Memory,
}

impl From<AllocError> for ChangedError {
    ghost from_gives = { λ _ e. e ≡ Memory };

    fn from(_: AllocError) -> Self {
        ChangedError::Memory
    }
}

impl<T: Drop> From<AllocFailed<T>> for ChangedError {
    ghost from_gives = { λ _ e. e ≡ Memory };

    fn from(_: AllocFailed<T>) -> Self {
        ChangedError::Memory
    }
}

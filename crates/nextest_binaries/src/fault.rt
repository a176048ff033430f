//! Why there is no listing.

ghost use Rattle.std.specs.Prelude.{◌≡◌};
ghost use Rattle.nextest_binaries.specs.declared.fault.AskError.TheVariants.{Memory};

use std::alloc::{AllocError, AllocFailed};
use std::fmt;
use thiserror::Error;

/// A lister has no answer, for a reason that it does not tell.
#[derive(Clone, Copy, Debug, PartialEq, Eq, Error)]
#[error("no listing")]
pub struct ListFault;

impl From<AllocError> for ListFault {
    fn from(_: AllocError) -> Self {
        ListFault
    }
}

impl<T: Drop> From<AllocFailed<T>> for ListFault {
    fn from(_: AllocFailed<T>) -> Self {
        ListFault
    }
}

/// What is wrong with a listing.
#[derive(Clone, Copy, Debug, PartialEq, Eq)]
pub enum ListingFault {
    /// A name holds a line feed.
    LineFeed,
    /// A name stands twice.
    RepeatedName,
}

impl fmt::Display for ListingFault {
    ghost use Rattle.std.specs.Prelude.{Some};
    ghost use Rattle.nextest_binaries.specs.Faults.{fault_text};

    ghost output = { λ fault. Some (fault_text fault) };

    fn fmt<W: fmt::Write>(&self, f: &mut fmt::Formatter<W>) -> fmt::Result {
        f.write_str(match self {
            ListingFault::LineFeed => "line feed",
            ListingFault::RepeatedName => "repeated name",
        })
    }
}

impl std::error::Error for ListingFault {}

/// Why not all binaries have a listing. A number is the place of the binary.
#[derive(Clone, Copy, Debug, PartialEq, Eq, Error)]
pub enum AskError {
    #[error("no listing for binary {0}")]
    Lister(usize),
    #[error("bad listing for binary {0}: {1}")]
    BadListing(usize, ListingFault),
    #[error("out of memory")]
    Memory,
}

impl From<AllocError> for AskError {
    ghost from_gives = { λ _ e. e ≡ Memory };

    fn from(_: AllocError) -> Self {
        AskError::Memory
    }
}

impl<T: Drop> From<AllocFailed<T>> for AskError {
    ghost from_gives = { λ _ e. e ≡ Memory };

    fn from(_: AllocFailed<T>) -> Self {
        AskError::Memory
    }
}

//! Why a text is no glob.

use std::alloc::{AllocError, Global};
use std::{error, fmt};
use thiserror::Error;

/// Why a text is no glob.
#[derive(Clone, Copy, Debug, PartialEq, Eq, Hash)]
pub enum GlobError {
    UnclosedClass,
    InvalidRange,
    UnopenedAlternates,
    UnclosedAlternates,
}

impl fmt::Display for GlobError {
    ghost use Rattle.std.specs.Prelude.{Some};
    ghost use Rattle.nextest_filter_matchers.specs.Faults.{fault_text};

    ghost output = { λ fault. Some (fault_text fault) };

    fn fmt<W: fmt::Write>(&self, f: &mut fmt::Formatter<W>) -> fmt::Result {
        f.write_str(match self {
            GlobError::UnclosedClass => "unclosed character class; missing ']'",
            GlobError::InvalidRange => "invalid range",
            GlobError::UnopenedAlternates => "unopened alternate group; missing '{'",
            GlobError::UnclosedAlternates => "unclosed alternate group; missing '}'",
        })
    }
}

impl error::Error for GlobError {}

/// Why a matcher was not made of a text.
#[derive(Debug, Drop, PartialEq, Eq, Error)]
pub enum GlobConstructError {
    /// The text is no glob.
    #[error("{0}")]
    InvalidGlob(GlobError),
    /// Kept for its name: globs are not matched by regular expressions here.
    #[error("{0}")]
    RegexError(String),
}

impl GlobConstructError {
    ghost use Rattle.std.specs.Prelude.{IfOk};
    ghost use Rattle.nextest_filter_matchers.specs.Copies.{SameError};

    /// An equal reason in memory of its own.
    pub fn copy(&self, alloc: Global) -> Result<GlobConstructError, AllocError>
        ensures { IfOk result (λ c. SameError self.now c) }
    {
        match self {
            GlobConstructError::InvalidGlob(error) => Ok(GlobConstructError::InvalidGlob(*error)),
            GlobConstructError::RegexError(message) => {
                let message = String::from_str(alloc, message.as_str())?;
                Ok(GlobConstructError::RegexError(message))
            }
        }
    }
}

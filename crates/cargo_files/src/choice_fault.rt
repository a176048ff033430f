//! Why words of Cargo's command line give no choice.

use std::alloc::{AllocError, AllocFailed};
use std::fmt;

/// Why there is no choice.
#[derive(Debug, Drop, PartialEq, Eq)]
pub enum ChoiceFault {
    /// No member has the feature that is named, and these are like it.
    NoFeature(String, String),
    /// The package that is named is no member, and these are like it.
    NoMember(String, String),
    /// There was no memory for the choice.
    Memory,
}

impl fmt::Display for ChoiceFault {
    fn fmt<W: fmt::Write>(&self, f: &mut fmt::Formatter<W>) -> fmt::Result {
        match self {
            ChoiceFault::NoFeature(word, near) => {
                write!(f, "no member has the feature `{word}`")?;
                f.write_str(remedy(near.as_str()))
            }
            ChoiceFault::NoMember(word, near) => {
                write!(f, "no workspace member matches `{word}`")?;
                f.write_str(remedy(near.as_str()))
            }
            ChoiceFault::Memory => f.write_str("out of memory"),
        }
    }
}

/// The near names, or else what can be named.
fn remedy(near: &str) -> &str {
    if near.is_empty() {
        ": expected a feature of a member, as NAME or PACKAGE/NAME"
    } else {
        near
    }
}

impl From<AllocError> for ChoiceFault {
    ghost use Rattle.std.specs.Prelude.{◌≡◌};
    ghost use Rattle.cargo_files.specs.declared.choice_fault.ChoiceFault.TheVariants.{Memory};

    ghost from_gives = { λ _ e. e ≡ Memory };

    fn from(_refused: AllocError) -> ChoiceFault {
        ChoiceFault::Memory
    }
}

impl<T: Drop> From<AllocFailed<T>> for ChoiceFault {
    ghost use Rattle.std.specs.Prelude.{◌≡◌};
    ghost use Rattle.cargo_files.specs.declared.choice_fault.ChoiceFault.TheVariants.{Memory};

    ghost from_gives = { λ _ e. e ≡ Memory };

    fn from(_refused: AllocFailed<T>) -> ChoiceFault {
        ChoiceFault::Memory
    }
}

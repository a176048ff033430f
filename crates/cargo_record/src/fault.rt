//! Why metadata give no record.

use std::alloc::{AllocError, AllocFailed};
use std::fmt;

/// Why there is no record. Packages, dependencies, targets and features are named by their texts.
#[derive(Debug, Drop, PartialEq, Eq)]
pub enum RecordFault {
    /// The format has another version than 1.
    Format,
    /// Nothing was resolved.
    NoResolve,
    /// The package was not resolved, or not in the order of the packages.
    NoNode(String),
    /// A member is not among the packages.
    NoPackage(String),
    /// No member has the name that is asked for.
    NoMember(String),
    /// A package's dependency was resolved to nothing.
    NoDependency(String, String),
    /// A member's optional dependency was resolved to nothing.
    NoOptional(String, String),
    /// A package's dependency matches several packages.
    Ambiguous(String, String),
    /// A member's target requires a feature that its package does not have.
    ForeignFeature(String, String, String),
    /// There was no memory for the record.
    Memory,
}

impl fmt::Display for RecordFault {
    fn fmt<W: fmt::Write>(&self, f: &mut fmt::Formatter<W>) -> fmt::Result {
        match self {
            RecordFault::Format => f.write_str(
                "expected format version 1: run `cargo metadata --format-version 1 --all-features`",
            ),
            RecordFault::NoResolve => f.write_str(
                "no dependency is resolved: run `cargo metadata` without --no-deps",
            ),
            RecordFault::NoNode(id) => {
                write!(
                    f,
                    "package {id}: `resolve.nodes` is not in package order; pass Cargo's output unchanged"
                )
            }
            RecordFault::NoPackage(id) => {
                write!(
                    f,
                    "member {id} is not among the packages; pass Cargo's output unchanged"
                )
            }
            RecordFault::NoMember(name) => {
                write!(
                    f,
                    "no workspace member matches {name}: -p takes the name of a member"
                )
            }
            _ => write_dependency(f, self),
        }
    }
}

fn write_dependency<W: fmt::Write>(f: &mut fmt::Formatter<W>, fault: &RecordFault) -> fmt::Result {
    match fault {
        RecordFault::NoDependency(id, name) => write!(
            f,
            "package {id}: dependency {name} is not resolved: run `cargo metadata` without --filter-platform",
        ),
        RecordFault::NoOptional(id, name) => write!(
            f,
            "package {id}: optional dependency {name} is not resolved: run `cargo metadata` with --all-features",
        ),
        RecordFault::Ambiguous(id, name) => write!(
            f,
            "package {id}: dependency {name} matches several packages; rename the dependency",
        ),
        RecordFault::ForeignFeature(id, target, feature) => write!(
            f,
            "package {id}: target {target} requires {feature}, which is not a feature of the package: add a feature that enables it",
        ),
        _ => f.write_str("out of memory"),
    }
}

impl From<AllocError> for RecordFault {
    ghost use Rattle.std.specs.Prelude.{◌≡◌};
    ghost use Rattle.cargo_record.specs.declared.fault.RecordFault.TheVariants.{Memory};

    ghost from_gives = { λ _ e. e ≡ Memory };

    fn from(_refused: AllocError) -> RecordFault {
        RecordFault::Memory
    }
}

impl<T: Drop> From<AllocFailed<T>> for RecordFault {
    ghost use Rattle.std.specs.Prelude.{◌≡◌};
    ghost use Rattle.cargo_record.specs.declared.fault.RecordFault.TheVariants.{Memory};

    ghost from_gives = { λ _ e. e ≡ Memory };

    fn from(_refused: AllocFailed<T>) -> RecordFault {
        RecordFault::Memory
    }
}

//! Why a record is refused.

ghost use Rattle.std.specs.Prelude.{◌≡◌};
ghost use Rattle.test_select_checks.specs.declared.record_error.RecordError.TheVariants.{Memory};

use crate::fault_lines::write_faults;
use guppy_package_graph::PackageGraphError;
use nextest_filter_tokens::ParseSingleError;
use std::alloc::{AllocError, AllocFailed};
use std::fmt;
use test_select_rules::RecordRule;

/// Why a record is refused.
#[derive(Debug, Drop, PartialEq, Eq)]
pub enum RecordError {
    /// The first broken rule, at the first place that breaks it. Places count the packages, links,
    /// members, default members, binaries or groups from 0, as the rule says; of two equal entries the
    /// later one breaks it.
    Broken {
        rule: RecordRule,
        place: usize,
    },
    /// The first filter that is refused, with its faults. Places count the groups; the default filter
    /// has the number of groups.
    Filter {
        place: usize,
        errors: Vec<ParseSingleError>,
    },
    /// Memory ran out.
    Memory,
}

impl fmt::Display for RecordError {
    ghost use Rattle.std.specs.Prelude.{Some};
    ghost use Rattle.test_select_checks.specs.ErrorTexts.{error_text};

    ghost output = { λ error. Some (error_text error) };

    fn fmt<W: fmt::Write>(&self, f: &mut fmt::Formatter<W>) -> fmt::Result {
        match self {
            RecordError::Broken { rule, place } => write!(f, "rule {rule} at {place}"),
            RecordError::Filter { place, errors } => write_faults(f, "", *place, errors),
            RecordError::Memory => f.write_str("out of memory"),
        }
    }
}

impl From<PackageGraphError> for RecordError {
    ghost use Rattle.test_select_checks.specs.Errors.{graph_error_of};

    ghost from_gives = { λ refused e. e ≡ graph_error_of refused };

    fn from(refused: PackageGraphError) -> Self {
        match refused {
            PackageGraphError::Broken { rule, place } => RecordError::Broken { rule, place },
            PackageGraphError::Memory => RecordError::Memory,
        }
    }
}

impl From<AllocError> for RecordError {
    ghost from_gives = { λ _ e. e ≡ Memory };

    fn from(_: AllocError) -> Self {
        RecordError::Memory
    }
}

impl<T: Drop> From<AllocFailed<T>> for RecordError {
    ghost from_gives = { λ _ e. e ≡ Memory };

    fn from(_: AllocFailed<T>) -> Self {
        RecordError::Memory
    }
}

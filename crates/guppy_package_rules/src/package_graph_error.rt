//! Why rows make no graph.

use crate::record_rule::RecordRule;
use std::alloc::{AllocError, AllocFailed};
use thiserror::Error;

/// Why rows make no package graph.
#[derive(Clone, Copy, Debug, PartialEq, Eq, Error)]
pub enum PackageGraphError {
    /// The first broken rule, at the first place that breaks it. Places count the packages, links,
    /// members or default members from 0, as the rule says.
    #[error("rule {rule} at {place}")]
    Broken { rule: RecordRule, place: usize },
    /// Memory ran out.
    #[error("out of memory")]
    Memory,
}

impl From<AllocError> for PackageGraphError {
    ghost use Rattle.std.specs.Prelude.{◌≡◌};
    ghost use Rattle.guppy_package_rules.specs.declared.package_graph_error.PackageGraphError.TheVariants.{Memory};

    ghost from_gives = { λ _ e. e ≡ Memory };

    fn from(_refused: AllocError) -> PackageGraphError {
        PackageGraphError::Memory
    }
}

impl<T: Drop> From<AllocFailed<T>> for PackageGraphError {
    ghost use Rattle.std.specs.Prelude.{◌≡◌};
    ghost use Rattle.guppy_package_rules.specs.declared.package_graph_error.PackageGraphError.TheVariants.{Memory};

    ghost from_gives = { λ _ e. e ≡ Memory };

    fn from(_refused: AllocFailed<T>) -> PackageGraphError {
        PackageGraphError::Memory
    }
}

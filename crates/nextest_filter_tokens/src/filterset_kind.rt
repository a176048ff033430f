//! Where a filter stands, and which predicates it may not have there.

use std::{error, fmt};

/// Where a filter stands.
#[derive(Clone, Copy, Debug, PartialEq, Eq, Hash)]
pub enum FiltersetKind {
    /// A filter of tests that are run.
    Test,
    /// A filter of what is archived.
    TestArchive,
    /// A filter of overrides, as of a test group.
    OverrideFilter,
    /// The filter that stands for `default()`.
    DefaultFilter,
}

/// Why a predicate may not stand where it does.
#[derive(Clone, Copy, Debug, PartialEq, Eq, Hash)]
pub enum BannedPredicateReason {
    DefaultInfiniteRecursion,
    GroupCircularDependency,
    GroupNotAvailableInDefaultFilter,
    GroupNotAvailableInArchive,
    TestNotAvailableInArchive,
}

impl fmt::Display for FiltersetKind {
    ghost use Rattle.std.specs.Prelude.{Some};
    ghost use Rattle.nextest_filter_tokens.specs.FaultTexts.{kind_text};

    ghost output = { λ kind. Some (kind_text kind) };

    fn fmt<W: fmt::Write>(&self, f: &mut fmt::Formatter<W>) -> fmt::Result {
        match self {
            FiltersetKind::Test => f.write_str("test"),
            FiltersetKind::TestArchive => f.write_str("archive-filter"),
            FiltersetKind::OverrideFilter => f.write_str("override-filter"),
            FiltersetKind::DefaultFilter => f.write_str("default-filter"),
        }
    }
}

impl fmt::Display for BannedPredicateReason {
    ghost use Rattle.std.specs.Prelude.{Some};
    ghost use Rattle.nextest_filter_tokens.specs.FaultTexts.{reason_text};

    ghost output = { λ reason. Some (reason_text reason) };

    fn fmt<W: fmt::Write>(&self, f: &mut fmt::Formatter<W>) -> fmt::Result {
        match self {
            BannedPredicateReason::DefaultInfiniteRecursion => {
                f.write_str("default() causes infinite recursion")
            }
            BannedPredicateReason::GroupCircularDependency => {
                f.write_str("group() creates a circular dependency with overrides")
            }
            BannedPredicateReason::GroupNotAvailableInDefaultFilter => {
                f.write_str("group() is not available in default-filter expressions")
            }
            BannedPredicateReason::GroupNotAvailableInArchive => {
                f.write_str("group() predicates are not supported while archiving")
            }
            BannedPredicateReason::TestNotAvailableInArchive => {
                f.write_str("test() predicates are not supported while archiving")
            }
        }
    }
}

impl error::Error for BannedPredicateReason {}

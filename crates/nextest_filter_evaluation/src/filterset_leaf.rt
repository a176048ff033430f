//! The leaves of compiled filters.

ghost use Rattle.std.specs.Prelude.{◌≡◌, IfOk};

use guppy_package_parts::PackageId;
use nextest_filter_matchers::{NameMatcher, SourceSpan};
use nextest_filter_tokens::BuildPlatform;
use std::alloc::{AllocError, Global};
use std::collections::BTreeSet;

/// A set of tests that a compiled filter names, with where its matcher stands in the text.
#[derive(Debug, Drop, PartialEq, Eq)]
pub enum FiltersetLeaf {
    /// All tests of these packages.
    Packages(BTreeSet<PackageId>),
    /// All tests of binaries of a kind.
    Kind(NameMatcher, SourceSpan),
    /// All tests that are built for a platform.
    Platform(BuildPlatform, SourceSpan),
    /// All tests of binaries by their names.
    Binary(NameMatcher, SourceSpan),
    /// All tests of binaries by their ids.
    BinaryId(NameMatcher, SourceSpan),
    /// Tests by their names.
    Test(NameMatcher, SourceSpan),
    /// All tests of groups.
    Group(NameMatcher, SourceSpan),
    /// The tests of the default filter.
    Default,
    All,
    None,
}

impl FiltersetLeaf {
    ghost use Rattle.nextest_filter_evaluation.specs.Compiled.{is_runtime_only, leaf_of};

    /// Whether the leaf can be told only of a test, or only at run time.
    pub fn is_runtime_only(&self) -> bool
        ensures runtime { result ≡ is_runtime_only (leaf_of self.now) }
    {
        matches!(
            self,
            FiltersetLeaf::Test(..) | FiltersetLeaf::Group(..) | FiltersetLeaf::Default
        )
    }

    /// An equal leaf in memory of its own.
    pub fn copy(&self, alloc: Global) -> Result<FiltersetLeaf, AllocError>
        ensures equal { IfOk result (λ c. leaf_of c ≡ leaf_of self.now) }
    {
        match self {
            FiltersetLeaf::Packages(ids) => {
                let ids = same_ids(alloc, ids)?;
                Ok(FiltersetLeaf::Packages(ids))
            }
            FiltersetLeaf::Kind(matcher, span) => {
                let matcher = matcher.copy(alloc)?;
                Ok(FiltersetLeaf::Kind(matcher, *span))
            }
            FiltersetLeaf::Platform(platform, span) => {
                Ok(FiltersetLeaf::Platform(*platform, *span))
            }
            FiltersetLeaf::Binary(matcher, span) => {
                let matcher = matcher.copy(alloc)?;
                Ok(FiltersetLeaf::Binary(matcher, *span))
            }
            FiltersetLeaf::BinaryId(matcher, span) => {
                let matcher = matcher.copy(alloc)?;
                Ok(FiltersetLeaf::BinaryId(matcher, *span))
            }
            FiltersetLeaf::Test(matcher, span) => {
                let matcher = matcher.copy(alloc)?;
                Ok(FiltersetLeaf::Test(matcher, *span))
            }
            FiltersetLeaf::Group(matcher, span) => {
                let matcher = matcher.copy(alloc)?;
                Ok(FiltersetLeaf::Group(matcher, *span))
            }
            FiltersetLeaf::Default => Ok(FiltersetLeaf::Default),
            FiltersetLeaf::All => Ok(FiltersetLeaf::All),
            FiltersetLeaf::None => Ok(FiltersetLeaf::None),
        }
    }
}

/// The same ids in memory of their own.
fn same_ids(alloc: Global, ids: &BTreeSet<PackageId>) -> Result<BTreeSet<PackageId>, AllocError>
    ensures { IfOk result (λ c. c.keys ≡ ids.now.keys) }
{
    let mut copies = BTreeSet::new(alloc);
    for id in ids {
        let id = id.copy(alloc)?;
        copies.insert(id)?;
    }
    Ok(copies)
}

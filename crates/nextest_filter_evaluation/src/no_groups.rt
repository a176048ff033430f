//! The lookup where no groups are known.

use crate::groups::GroupLookup;
use nextest_binaries::TestQuery;
use nextest_filter_matchers::NameMatcher;
use std::alloc::AllocError;

/// Stands for groups where none is named: no test is in any.
pub struct NoGroups;

impl GroupLookup for NoGroups {
    ghost member = { λ _ _ _. ⊥ };

    ghost ready = { λ _ _ _. Unit {0} };

    fn is_member_test(
        &self,
        _test: &TestQuery<'_>,
        _matcher: &NameMatcher,
    ) -> Result<bool, AllocError> {
        Ok(false)
    }
}

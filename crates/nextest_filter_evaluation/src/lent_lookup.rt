//! Lookups of groups that are lent.

use crate::groups::GroupLookup;
use nextest_binaries::TestQuery;
use nextest_filter_matchers::NameMatcher;
use std::alloc::AllocError;

/// A lookup of any type that is lent.
#[derive(Drop)]
pub(crate) struct LentLookup<L> {
    pub(crate) lookup: L,
}

impl GroupLookup for LentLookup<&dyn GroupLookup> {
    ghost member = { λ l. (GroupLookup-dyn l.lookup.now).member l.lookup.now.1 };

    ghost ready = { λ l. (GroupLookup-dyn l.lookup.now).ready l.lookup.now.1 };

    fn is_member_test(
        &self,
        test: &TestQuery<'_>,
        matcher: &NameMatcher,
    ) -> Result<bool, AllocError> {
        self.lookup.is_member_test(test, matcher)
    }
}

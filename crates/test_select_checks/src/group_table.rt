//! The groups of tests that a record names.

ghost use Rattle.std.specs.Prelude.{◌≡◌, ◌↔◌, IfOk, IsTrue, map};
ghost use Rattle.nextest_binaries.specs.Queries.{test_of};
ghost use Rattle.nextest_filter_evaluation.specs.Compiled.{compiled_of};
ghost use Rattle.nextest_filter_evaluation.specs.Meaning.{Passes};
ghost use Rattle.test_select_checks.specs.CompiledViews.{filters_view, group_view};
ghost use Rattle.test_select_checks.specs.Groups.{IsGroupOf};

use crate::filter_parts::{GroupFilter, RecordFilters};
use nextest_filter_evaluation::{NoGroups, suits};
use nextest_filtering::{EvalContext, GroupLookup, NameMatcher, TestQuery};
use std::alloc::{AllocError, Global};

/// The groups of a record, of which a test is in the first whose filter holds of it, else in `@global`.
#[derive(Clone, Copy)]
pub struct GroupTable<'a> {
    alloc: Global,
    filters: &'a RecordFilters,
}

impl<'a> GroupTable<'a> {
    /// The groups with these filters; who asks for a group takes memory from the allocator.
    pub fn new(alloc: Global, filters: &'a RecordFilters) -> GroupTable<'a>
        ensures filters { filters_view result.filters.now ≡ filters_view filters.entry.now }
    {
        GroupTable { alloc, filters }
    }

    /// The name of the test's group.
    pub fn group_of(&self, test: &TestQuery<'_>) -> Result<&'a str, AllocError>
        ensures first { IfOk result (λ name. IsGroupOf
            (Passes (filters_view self.now.filters.now).default (λ _. ⊥) (test_of test.now))
            (filters_view self.now.filters.now).groups name.now) }
    {
        let cx = self.filters.eval_context();
        first_group(self.alloc, self.filters.groups(), test, &cx)
    }
}

impl GroupLookup for GroupTable<'_> {
    ghost use Rattle.test_select_checks.specs.CompiledViews.{filters_view};
    ghost use Rattle.test_select_checks.specs.Groups.{IsGroupMember};

    ghost member = { λ table t m. IsGroupMember (filters_view table.filters.now) t m };

    ghost ready = { λ _ _ _. ⊥ };

    fn is_member_test(
        &self,
        test: &TestQuery<'_>,
        matcher: &NameMatcher,
    ) -> Result<bool, AllocError> {
        let name = self.group_of(test)?;
        suits(self.alloc, matcher, name)
    }
}

/// The name of the first group whose filter holds of the test, else `@global`.
fn first_group<'a>(
    alloc: Global,
    groups: &'a [GroupFilter],
    test: &TestQuery<'_>,
    cx: &EvalContext<'_>,
) -> Result<&'a str, AllocError>
    ensures { IfOk result (λ name. IsGroupOf
        (Passes (compiled_of cx.now.default_filter.now) (λ _. ⊥) (test_of test.now))
        (map group_view groups.entry.now) name.now) }
{
    for group in groups {
        if holds(alloc, group, test, cx)? {
            return Ok(group.name());
        }
    }
    Ok("@global")
}

/// Whether the group's filter, which names no group, holds of the test.
fn holds(
    alloc: Global,
    group: &GroupFilter,
    test: &TestQuery<'_>,
    cx: &EvalContext<'_>,
) -> Result<bool, AllocError>
    ensures { IfOk result (λ r. IsTrue r
        ↔ Passes (compiled_of cx.now.default_filter.now) (λ _. ⊥) (test_of test.now)
        (group_view group.now).1) }
{
    group.filter().matches_test_by(alloc, test, cx, &NoGroups)
}

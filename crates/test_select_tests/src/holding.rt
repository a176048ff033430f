//! What the filters of a question say of tests.

ghost use Rattle.std.specs.Prelude.{◌↔◌, IfOk, IsTrue, map};
ghost use Rattle.nextest_filter_evaluation.specs.Compiled.{compiled_of};
ghost use Rattle.nextest_filter_evaluation.specs.Meaning.{DefaultHolds, Passes};
ghost use Rattle.nextest_binaries.specs.Queries.{test_of};
ghost use Rattle.test_select_tests.specs.FirstTexts.{FindsFirst};
ghost use Rattle.test_select_tests.specs.QuestionFilters.{TextPasses, question_view};
ghost use Rattle.test_select_checks.specs.CompiledViews.{filters_view};
ghost use Rattle.test_select_checks.specs.Groups.{IsGroupMember};

use crate::question_filters::QuestionFilters;
use nextest_filter_evaluation::NoGroups;
use nextest_filtering::{CompiledExpr, EvalContext, TestQuery};
use std::alloc::{AllocError, Global};
use test_select_checks::GroupTable;

/// Whether the default filter holds of the test.
pub fn default_holds(
    alloc: Global,
    filters: &QuestionFilters,
    test: &TestQuery<'_>,
) -> Result<bool, AllocError>
    ensures holds { IfOk result (λ r. IsTrue r
        ↔ DefaultHolds (question_view filters.now).filters.default (test_of test.now)) }
{
    let cx = filters.filters.eval_context();
    cx.default_filter
        .matches_test_by(alloc, test, &cx, &NoGroups)
}

/// The place of the first text whose filter holds of the test.
pub fn first_that_holds(
    alloc: Global,
    filters: &QuestionFilters,
    test: &TestQuery<'_>,
) -> Result<Option<usize>, AllocError>
    ensures first { IfOk result (λ place. FindsFirst
        (TextPasses (question_view filters.now) (test_of test.now))
        (question_view filters.now).texts place) }
{
    let cx = filters.filters.eval_context();
    let groups = GroupTable::new(alloc, &filters.filters);
    first_among(alloc, &filters.texts, test, &cx, &groups)
}

fn first_among(
    alloc: Global,
    texts: &[CompiledExpr],
    test: &TestQuery<'_>,
    cx: &EvalContext<'_>,
    groups: &GroupTable<'_>,
) -> Result<Option<usize>, AllocError>
    ensures { IfOk result (λ place. FindsFirst
        (Passes (compiled_of cx.now.default_filter.now)
        (IsGroupMember (filters_view groups.now.filters.now) (test_of test.now)) (test_of test.now))
        (map compiled_of texts.now) place) }
{
    for (place, text) in texts.iter().enumerate() {
        if text.matches_test_by(alloc, test, cx, groups)? {
            return Ok(Some(place));
        }
    }
    Ok(None)
}

//! What the filters of a question say of binaries.

ghost use Rattle.std.specs.Prelude.{◌↔◌, true, IfOk, IsTrue, map};
ghost use Rattle.nextest_filter_evaluation.specs.Compiled.{compiled_of};
ghost use Rattle.nextest_filter_evaluation.specs.Formulas.{SomeAnswersGive};
ghost use Rattle.nextest_filter_evaluation.specs.Meaning.{DefaultGives, MayBe};
ghost use Rattle.nextest_binaries.specs.Queries.{binary_of};
ghost use Rattle.test_select_tests.specs.QuestionFilters.{MayPass, SomeMayPass, question_view};

use crate::question_filters::QuestionFilters;
use nextest_filtering::{BinaryQuery, CompiledExpr, EvalContext};
use std::alloc::{AllocError, Global};

/// Whether some answers about its tests let the binary through some text's filter and the default
/// filter.
pub fn may_pass(
    alloc: Global,
    filters: &QuestionFilters,
    binary: &BinaryQuery<'_>,
) -> Result<bool, AllocError>
    ensures { IfOk result (λ r. IsTrue r
        ↔ MayPass (question_view filters.now) (binary_of binary.now)) }
{
    if !default_may_pass(alloc, filters, binary)? {
        return Ok(false);
    }
    some_may_pass(alloc, filters, binary)
}

/// Whether some answers about its tests let the binary through the default filter.
pub fn default_may_pass(
    alloc: Global,
    filters: &QuestionFilters,
    binary: &BinaryQuery<'_>,
) -> Result<bool, AllocError>
    ensures { IfOk result (λ r. IsTrue r
        ↔ DefaultGives (question_view filters.now).filters.default (binary_of binary.now) true) }
{
    let cx = filters.filters.eval_context();
    default_may_give_true(alloc, binary, &cx)
}

/// Whether some answers about its tests let the binary through some text's filter.
pub fn some_may_pass(
    alloc: Global,
    filters: &QuestionFilters,
    binary: &BinaryQuery<'_>,
) -> Result<bool, AllocError>
    ensures { IfOk result (λ r. IsTrue r
        ↔ SomeMayPass (question_view filters.now).filters.default (question_view filters.now).texts
        (binary_of binary.now)) }
{
    let cx = filters.filters.eval_context();
    some_may_give_true(alloc, &filters.texts, binary, &cx)
}

fn default_may_give_true(
    alloc: Global,
    binary: &BinaryQuery<'_>,
    cx: &EvalContext<'_>,
) -> Result<bool, AllocError>
    ensures { IfOk result (λ r. IsTrue r
        ↔ DefaultGives (compiled_of cx.now.default_filter.now) (binary_of binary.now) true) }
{
    let known = cx.default_filter.matches_binary(alloc, binary, cx)?;
    Ok(known != Some(false))
}

fn some_may_give_true(
    alloc: Global,
    texts: &[CompiledExpr],
    binary: &BinaryQuery<'_>,
    cx: &EvalContext<'_>,
) -> Result<bool, AllocError>
    ensures { IfOk result (λ r. IsTrue r
        ↔ SomeMayPass (compiled_of cx.now.default_filter.now) (map compiled_of texts.now)
        (binary_of binary.now)) }
{
    for text in texts {
        if may_give_true(alloc, text, binary, cx)? {
            return Ok(true);
        }
    }
    Ok(false)
}

/// Whether some answers give the filter the value true.
fn may_give_true(
    alloc: Global,
    text: &CompiledExpr,
    binary: &BinaryQuery<'_>,
    cx: &EvalContext<'_>,
) -> Result<bool, AllocError>
    ensures { IfOk result (λ r. IsTrue r
        ↔ SomeAnswersGive (MayBe (compiled_of cx.now.default_filter.now) (binary_of binary.now))
        (compiled_of text.now) true) }
{
    let known = text.matches_binary(alloc, binary, cx)?;
    Ok(known != Some(false))
}

//! The filters of a question, lent to be made ready for the tests of its binaries.

ghost use Rattle.std.specs.Prelude.{◌≡◌, ◌∷◌, [], ◌++◌, IfOk, codes, map};
ghost use Rattle.nextest_filter_evaluation.specs.Compiled.{compiled_of};
ghost use Rattle.nextest_filter_evaluation.specs.Questions.{lent_of};
ghost use Rattle.test_select_checks.specs.CompiledViews.{group_view};
ghost use Rattle.test_select_tests.specs.QuestionFilters.{lent_question, question_view};

use crate::question_filters::QuestionFilters;
use nextest_filter_evaluation::LentFilters;
use nextest_filtering::CompiledExpr;
use std::alloc::{AllocError, Global};
use test_select_checks::GroupFilter;

/// The filters of the question, lent.
pub fn lent_filters<'f>(
    alloc: Global,
    filters: &'f QuestionFilters,
) -> Result<LentFilters<'f>, AllocError>
    ensures lent { IfOk result (λ l. lent_of l ≡ lent_question (question_view filters.entry.now)) }
{
    let groups = filters.filters.groups();
    let group_names = group_names(alloc, groups)?;
    let group_filters = group_filters(alloc, groups)?;
    let texts = lent_texts(alloc, &filters.texts)?;
    let cx = filters.filters.eval_context();
    Ok(LentFilters {
        default: cx.default_filter,
        group_names,
        groups: group_filters,
        texts,
    })
}

/// The names of the groups, and of the one for tests of no other.
fn group_names<'f>(alloc: Global, groups: &'f [GroupFilter]) -> Result<Vec<&'f str>, AllocError>
    ensures { IfOk result (λ v. map (λ t. t.now) v.items
        ≡ map (λ g. (group_view g).0) groups.entry.now ++ codes "@global" ∷ []) }
{
    let mut names: Vec<&'f str> = Vec::new(alloc);
    for group in groups {
        names.push(group.name())?;
    }
    names.push("@global")?;
    Ok(names)
}

fn group_filters<'f>(
    alloc: Global,
    groups: &'f [GroupFilter],
) -> Result<Vec<&'f CompiledExpr>, AllocError>
    ensures { IfOk result (λ v. map (λ f. compiled_of f.now) v.items
        ≡ map (λ g. (group_view g).1) groups.entry.now) }
{
    let mut filters: Vec<&'f CompiledExpr> = Vec::new(alloc);
    for group in groups {
        filters.push(group.filter())?;
    }
    Ok(filters)
}

fn lent_texts<'f>(
    alloc: Global,
    texts: &'f [CompiledExpr],
) -> Result<Vec<&'f CompiledExpr>, AllocError>
    ensures { IfOk result (λ v. map (λ f. compiled_of f.now) v.items
        ≡ map compiled_of texts.entry.now) }
{
    let mut filters: Vec<&'f CompiledExpr> = Vec::new(alloc);
    for text in texts {
        filters.push(text)?;
    }
    Ok(filters)
}

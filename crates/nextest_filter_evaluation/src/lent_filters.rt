//! The filters of a question, lent, with the searchers of them all.

ghost use Rattle.std.specs.Prelude.{◌≡◌, ◌++◌, IfOk, OnOk, map};
ghost use Rattle.regex.specs.Strings.{matcher_pattern};
ghost use Rattle.nextest_filter_evaluation.specs.Compiled.{compiled_of};
ghost use Rattle.nextest_filter_evaluation.specs.Questions.{all_searches, lent_of, lent_searches};

use crate::compiled_expr::CompiledExpr;
use crate::searchers::push_searchers;
use regex::Matcher;
use std::alloc::{AllocError, Global};

/// The filters of a question.
#[derive(Drop)]
pub struct LentFilters<'f> {
    /// Has to hold of each test.
    pub default: &'f CompiledExpr,
    /// The names of the groups in order, and of the one for tests of no other.
    pub group_names: Vec<&'f str>,
    /// Say which tests are in the groups: each in the first whose filter holds.
    pub groups: Vec<&'f CompiledExpr>,
    /// Of which one has to hold.
    pub texts: Vec<&'f CompiledExpr>,
}

impl<'f> LentFilters<'f> {
    /// The searchers of all filters. They serve the tests of all binaries.
    pub fn searchers(&self, alloc: Global) -> Result<Vec<Matcher<'f>>, AllocError>
        ensures patterns { IfOk result (λ v. map matcher_pattern v.items
            ≡ lent_searches (lent_of self.now)) }
    {
        let mut searchers = Vec::new(alloc);
        push_searchers(alloc, self.default, &mut searchers)?;
        push_all(alloc, &self.groups, &mut searchers)?;
        push_all(alloc, &self.texts, &mut searchers)?;
        Ok(searchers)
    }
}

fn push_all<'f>(
    alloc: Global,
    filters: &[&'f CompiledExpr],
    searchers: &mut Vec<Matcher<'f>>,
) -> Result<(), AllocError>
    ensures { OnOk result (map matcher_pattern searchers.new.items
        ≡ map matcher_pattern searchers.old.items
        ++ all_searches (map (λ f. compiled_of f.now) filters.entry.now)) }
{
    for filter in filters {
        push_searchers(alloc, *filter, searchers)?;
    }
    Ok(())
}

//! The filters of a question made ready for the tests of one binary.

ghost use Rattle.std.specs.Prelude.{◌≡◌, ◌+◌, ◌<◌, ◌↔◌, ◌⊎◌, ◌^◌, [], false, IfOk, IsTrue, length, map};
ghost use Rattle.std.specs.List.{list_any};
ghost use Rattle.regex.specs.Strings.{matcher_pattern};
ghost use Rattle.nextest_binaries.specs.Queries.{binary_of};
ghost use Rattle.nextest_filter_evaluation.specs.Compiled.{compiled_of, is_group};
ghost use Rattle.nextest_filter_evaluation.specs.Formulas.{Holds, has_leaf};
ghost use Rattle.nextest_filter_evaluation.specs.Questions.{AllSay, AnswerAlike, AreReady, IsFirst, all_searches, lent_of, lent_searches, ready_view};
ghost use Rattle.nextest_filter_evaluation.specs.Ready.{Says, ready_of};

use crate::compiled_expr::CompiledExpr;
use crate::lent_filters::LentFilters;
use crate::ready_context::ReadyContext;
use crate::ready_expr::ReadyExpr;
use crate::reducing::reduced;
use nextest_binaries::BinaryQuery;
use regex::Matcher;
use std::alloc::{AllocError, Global};

/// The filters of a question made ready for the tests of one binary.
pub struct ReadyFilters<'f> {
    default: ReadyExpr<'f>,
    groups: Vec<ReadyExpr<'f>>,
    texts: Vec<ReadyExpr<'f>>,
}

// Written out, so that a function that lets them go takes one step.
impl Drop for ReadyFilters<'_> {
    fn drop(self) {
        let ReadyFilters {
            default,
            groups,
            texts,
        } = self;
        drop(default);
        drop(groups);
        drop(texts);
    }
}

impl<'f> ReadyFilters<'f> {
    /// The filters made ready for the tests of the binary, to be asked with the searchers of them all.
    pub fn new(
        alloc: Global,
        filters: &LentFilters<'f>,
        binary_query: BinaryQuery<'_>,
    ) -> Result<ReadyFilters<'f>, AllocError>
        requires room { length (lent_searches (lent_of filters.now)) < 2 ^ 64 }
        ensures ready { IfOk result (λ r. AnswerAlike (lent_of filters.entry.now)
            (binary_of binary_query.entry) (ready_view r)) }
    {
        let unasked = ReadyContext::new(binary_query, &[], false);
        let (default, at) = reduced(alloc, filters.default, &unasked, 0)?;
        let ungrouped = ReadyContext::new(binary_query, &[], true);
        let (groups, at) = reduced_all(alloc, &filters.groups, &ungrouped, at)?;
        let grouped = ReadyContext::new(binary_query, &filters.group_names, true);
        let (texts, _) = reduced_all(alloc, &filters.texts, &grouped, at)?;
        let kept = asked_groups(alloc, groups, &filters.texts);
        Ok(ReadyFilters {
            default,
            groups: kept,
            texts,
        })
    }

    /// Whether the default filter and some text's hold of the test with the name. No more is asked than
    /// the answer takes, and no memory is taken.
    pub fn hold(&self, searchers: &mut [Matcher<'f>], name: &str) -> bool
        ensures hold { IsTrue result ↔ AllSay (map matcher_pattern searchers.old)
            (ready_view self.now) name.now }
        ensures same { map matcher_pattern searchers.new ≡ map matcher_pattern searchers.old }
    {
        if !self.default.holds(searchers, 0, name) {
            return false;
        }
        let group = first_of(&self.groups, searchers, 0, name);
        let texts = self.texts.as_slice();
        first_of(texts, searchers, group, name) < texts.len()
    }
}

/// The filters of the groups, if some text names a group; else none, so that no test's group is looked for.
fn asked_groups<'f>(
    alloc: Global,
    groups: Vec<ReadyExpr<'f>>,
    texts: &[&CompiledExpr],
) -> Vec<ReadyExpr<'f>>
    ensures { (result ≡ groups.entry)
        ⊎ ((result.items ≡ []) × (list_any (λ f. has_leaf is_group (compiled_of f.now)) texts.now
        ≡ false)) }
{
    if name_groups(texts) {
        groups
    } else {
        Vec::new(alloc)
    }
}

/// Whether some of the filters names a group.
fn name_groups(filters: &[&CompiledExpr]) -> bool
    ensures { result ≡ list_any (λ f. has_leaf is_group (compiled_of f.now)) filters.now }
{
    filters.iter().any(|filter| filter.has_group_matchers())
}

/// The filters, whose searchers begin at a place, made ready, and the place behind them.
fn reduced_all<'f>(
    alloc: Global,
    filters: &[&'f CompiledExpr],
    cx: &ReadyContext<'_>,
    at: usize,
) -> Result<(Vec<ReadyExpr<'f>>, usize), AllocError>
    requires room { at + length (all_searches (map (λ f. compiled_of f.now) filters.now)) < 2 ^ 64 }
    ensures next { IfOk result (λ r. r.1 ≡ at + length
        (all_searches (map (λ f. compiled_of f.now) filters.entry.now))) }
    ensures ready { IfOk result (λ r. AreReady cx.now at
        (map (λ f. compiled_of f.now) filters.entry.now) (map ready_of r.0.items)) }
{
    let mut ready = Vec::new(alloc);
    let mut next = at;
    for filter in filters {
        let (one, end) = reduced(alloc, *filter, cx, next)?;
        ready.push(one)?;
        next = end;
    }
    Ok((ready, next))
}

/// The place of the first filter that holds, or behind all.
fn first_of<'f>(
    filters: &[ReadyExpr<'f>],
    searchers: &mut [Matcher<'f>],
    group: usize,
    name: &str,
) -> usize
    ensures first { IsFirst (Holds (Says (map matcher_pattern searchers.old) group name.now))
        (map ready_of filters.now) result }
    ensures same { map matcher_pattern searchers.new ≡ map matcher_pattern searchers.old }
{
    for (place, filter) in filters.iter().enumerate() {
        if filter.holds(searchers, group, name) {
            return place;
        }
    }
    filters.len()
}

//! Compiled filters made ready for the tests of a binary.

ghost use Rattle.std.specs.Prelude.{◌≡◌, ◌+◌, ◌<◌, ◌≤◌, ◌^◌, IfOk, IfSome, length, map};
ghost use Rattle.nextest_filter_evaluation.specs.NameTests.{name_test};
ghost use Rattle.nextest_filter_evaluation.specs.Compiled.{compiled_of, leaf_of};
ghost use Rattle.nextest_filter_evaluation.specs.Formulas.{leaf as leaf_alone};
ghost use Rattle.nextest_filter_evaluation.specs.Ready.{AreSuited, AsksOf, IsReady, ready_of};
ghost use Rattle.nextest_filter_evaluation.specs.Searches.{HasAt, leaf_searches, pattern_in, searches};

use crate::compiled_expr::CompiledExpr;
use crate::filterset_leaf::FiltersetLeaf;
use crate::name_tests::suits;
use crate::ready_context::ReadyContext;
use crate::ready_expr::ReadyExpr;
use nextest_filter_matchers::NameMatcher;
use std::alloc::{AllocError, Global};

impl<'f> ReadyExpr<'f> {
    /// The filter made ready for the tests of a binary, to be asked with the filter's searchers.
    pub fn new(
        alloc: Global,
        filter: &'f CompiledExpr,
        cx: &ReadyContext<'_>,
    ) -> Result<ReadyExpr<'f>, AllocError>
        requires room { length (searches (compiled_of filter.now)) < 2 ^ 64 }
        ensures ready { IfOk result (λ r. IsReady cx.now
            (λ all. all ≡ searches (compiled_of filter.entry.now)) (compiled_of filter.entry.now)
            (ready_of r)) }
    {
        let (ready, _) = reduced(alloc, filter, cx, 0)?;
        Ok(ready)
    }
}

/// The same, where the filter's searchers begin at a place, and the place behind them.
pub(crate) fn reduced<'f>(
    alloc: Global,
    filter: &'f CompiledExpr,
    cx: &ReadyContext<'_>,
    at: usize,
) -> Result<(ReadyExpr<'f>, usize), AllocError>
    requires room { at + length (searches (compiled_of filter.now)) < 2 ^ 64 }
    ensures next { IfOk result (λ r. r.1 ≡ at + length (searches (compiled_of filter.entry.now))) }
    ensures ready { IfOk result (λ r. IsReady cx.now
        (λ all. HasAt all at (searches (compiled_of filter.entry.now)))
        (compiled_of filter.entry.now) (ready_of r.0)) }
{
    let end = at + searchers_count(filter);
    let (ready, _) = reduced_before(alloc, filter, cx, end)?;
    Ok((ready, end))
}

/// The same, where the filter's searchers end before a place, and the place of the first.
fn reduced_before<'f>(
    alloc: Global,
    filter: &'f CompiledExpr,
    cx: &ReadyContext<'_>,
    end: usize,
) -> Result<(ReadyExpr<'f>, usize), AllocError>
    requires room { length (searches (compiled_of filter.now)) ≤ end }
    ensures start { IfOk result (λ r. r.1 + length (searches (compiled_of filter.entry.now))
        ≡ end) }
    ensures ready { IfOk result (λ r. IsReady cx.now
        (λ all. HasAt all r.1 (searches (compiled_of filter.entry.now)))
        (compiled_of filter.entry.now) (ready_of r.0)) }
{
    let mut above = ReadyExpr::Known(true);
    let mut before = end;
    let mut rest = filter;
    loop {
        match rest {
            CompiledExpr::Not(x) => {
                above = ReadyExpr::Not(Box::new(alloc, above)?);
                rest = x;
            }
            CompiledExpr::Union(x, y) => {
                let (y, start) = reduced_before(alloc, y, cx, before)?;
                let y = Box::new(alloc, y)?;
                above = ReadyExpr::Union(Box::new(alloc, above)?, y);
                before = start;
                rest = x;
            }
            CompiledExpr::Intersection(x, y) => {
                let (y, start) = reduced_before(alloc, y, cx, before)?;
                let y = Box::new(alloc, y)?;
                above = ReadyExpr::Intersection(Box::new(alloc, above)?, y);
                before = start;
                rest = x;
            }
            CompiledExpr::Set(leaf) => {
                let start = before - search_count(leaf);
                let ready = reduced_leaf(alloc, leaf, cx, start)?;
                return Ok((above.turned_over(ready), start));
            }
        }
    }
}

/// How many searchers the filter has.
fn searchers_count(filter: &CompiledExpr) -> usize
    requires room { length (searches (compiled_of filter.now)) < 2 ^ 64 }
    ensures { result ≡ length (searches (compiled_of filter.now)) }
{
    let mut count = 0;
    let mut rest = filter;
    loop {
        match rest {
            CompiledExpr::Not(x) => rest = x,
            CompiledExpr::Union(x, y) | CompiledExpr::Intersection(x, y) => {
                count += searchers_count(y);
                rest = x;
            }
            CompiledExpr::Set(leaf) => return count + search_count(leaf),
        }
    }
}

/// How many searchers the leaf has.
fn search_count(leaf: &FiltersetLeaf) -> usize
    ensures { result ≡ length (leaf_searches (leaf_of leaf.now)) }
{
    match leaf {
        FiltersetLeaf::Test(NameMatcher::Regex(_), _) => 1,
        _ => 0,
    }
}

fn reduced_leaf<'f>(
    alloc: Global,
    leaf: &'f FiltersetLeaf,
    cx: &ReadyContext<'_>,
    at: usize,
) -> Result<ReadyExpr<'f>, AllocError>
    ensures { IfOk result (λ r. IsReady cx.now
        (λ all. HasAt all at (leaf_searches (leaf_of leaf.entry.now)))
        (leaf_alone (leaf_of leaf.entry.now)) (ready_of r)) }
{
    let binary = cx.binary_query;
    match leaf {
        FiltersetLeaf::Packages(ids) => Ok(ReadyExpr::Known(ids.contains(binary.package_id))),
        FiltersetLeaf::Kind(matcher, _) => {
            Ok(ReadyExpr::Known(suits(alloc, matcher, binary.kind.as_str())?))
        }
        FiltersetLeaf::Platform(platform, _) => {
            Ok(ReadyExpr::Known(binary.platform == *platform))
        }
        FiltersetLeaf::Binary(matcher, _) => {
            Ok(ReadyExpr::Known(suits(alloc, matcher, binary.binary_name)?))
        }
        FiltersetLeaf::BinaryId(matcher, _) => {
            Ok(ReadyExpr::Known(suits(alloc, matcher, binary.binary_id.as_str())?))
        }
        FiltersetLeaf::Test(matcher, _) => Ok(named(matcher, at)),
        FiltersetLeaf::Group(matcher, _) => {
            let flags = suited(alloc, matcher, cx.group_names)?;
            Ok(ReadyExpr::Groups(flags))
        }
        FiltersetLeaf::Default => Ok(ReadyExpr::Known(cx.default)),
        FiltersetLeaf::All => Ok(ReadyExpr::Known(true)),
        FiltersetLeaf::None => Ok(ReadyExpr::Known(false)),
    }
}

/// What is asked of names for the matcher, whose searcher stands at the place, if it has one.
fn named<'f>(matcher: &'f NameMatcher, at: usize) -> ReadyExpr<'f>
    ensures { AsksOf at (name_test matcher.entry.now) (ready_of result) }
{
    match matcher {
        NameMatcher::Equal { value, .. } => ReadyExpr::Equal(value.as_str()),
        NameMatcher::Contains { value, .. } => ReadyExpr::Contains(value.as_str()),
        NameMatcher::Glob { glob, .. } => ReadyExpr::Glob(glob),
        NameMatcher::Regex(_) => ReadyExpr::Pattern(at),
    }
}

/// A flag for each name: whether the matcher matches it.
fn suited(alloc: Global, matcher: &NameMatcher, names: &[&str]) -> Result<Vec<bool>, AllocError>
    ensures { IfOk result (λ v. AreSuited (name_test matcher.now) (map (λ t. t.now) names.now)
        v.items) }
{
    let mut flags = Vec::new(alloc);
    for name in names {
        flags.push(suits(alloc, matcher, *name)?)?;
    }
    Ok(flags)
}

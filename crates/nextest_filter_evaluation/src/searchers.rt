//! The searchers of a filter: one for each pattern that is searched for in the names of tests.

ghost use Rattle.std.specs.Prelude.{◌≡◌, ◌++◌, IfOk, OnOk, map, reverse};
ghost use Rattle.regex.specs.Strings.{matcher_pattern};
ghost use Rattle.nextest_filter_evaluation.specs.Compiled.{compiled_of, leaf_of};
ghost use Rattle.nextest_filter_evaluation.specs.Searches.{leaf_searches, searches};

use crate::compiled_expr::CompiledExpr;
use crate::filterset_leaf::FiltersetLeaf;
use nextest_filter_matchers::NameMatcher;
use regex::Matcher;
use std::alloc::{AllocError, Global};

/// The searchers of the filter, from left to right. They serve the tests of all binaries.
pub fn searchers_of<'f>(
    alloc: Global,
    filter: &'f CompiledExpr,
) -> Result<Vec<Matcher<'f>>, AllocError>
    ensures patterns { IfOk result (λ v. map matcher_pattern v.items
        ≡ searches (compiled_of filter.entry.now)) }
{
    let mut searchers = Vec::new(alloc);
    push_searchers(alloc, filter, &mut searchers)?;
    Ok(searchers)
}

pub(crate) fn push_searchers<'f>(
    alloc: Global,
    filter: &'f CompiledExpr,
    searchers: &mut Vec<Matcher<'f>>,
) -> Result<(), AllocError>
    ensures { OnOk result (map matcher_pattern searchers.new.items
        ≡ map matcher_pattern searchers.old.items ++ searches (compiled_of filter.entry.now)) }
{
    let from = searchers.len();
    push_reversed(alloc, filter, searchers)?;
    searchers[from..].reverse();
    Ok(())
}

/// The same from right to left.
fn push_reversed<'f>(
    alloc: Global,
    filter: &'f CompiledExpr,
    searchers: &mut Vec<Matcher<'f>>,
) -> Result<(), AllocError>
    ensures { OnOk result (map matcher_pattern searchers.new.items
        ≡ map matcher_pattern searchers.old.items
        ++ reverse (searches (compiled_of filter.entry.now))) }
{
    let mut rest = filter;
    loop {
        match rest {
            CompiledExpr::Not(x) => rest = x,
            CompiledExpr::Union(x, y) | CompiledExpr::Intersection(x, y) => {
                push_reversed(alloc, y, searchers)?;
                rest = x;
            }
            CompiledExpr::Set(leaf) => return push_leaf_searchers(alloc, leaf, searchers),
        }
    }
}

fn push_leaf_searchers<'f>(
    alloc: Global,
    leaf: &'f FiltersetLeaf,
    searchers: &mut Vec<Matcher<'f>>,
) -> Result<(), AllocError>
    ensures { OnOk result (map matcher_pattern searchers.new.items
        ≡ map matcher_pattern searchers.old.items ++ leaf_searches (leaf_of leaf.entry.now)) }
{
    if let FiltersetLeaf::Test(NameMatcher::Regex(regex), _) = leaf {
        searchers.push(regex.matcher(alloc)?)?;
    }
    Ok(())
}

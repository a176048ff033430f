//! The leaves that wait for a test or a run.

ghost use Rattle.std.specs.Prelude.{◌≡◌, ◌↔◌, IfOk, IsTrue, OnOk, codes, map};
ghost use Rattle.std.specs.Str.Iter.{HasSubslice};
ghost use Rattle.nextest_filter_syntax.specs.Trees.{tree_of};
ghost use Rattle.nextest_filter_syntax.specs.Leaves.{leaf_of};
ghost use Rattle.nextest_filter_syntax.specs.Runtime.{AddsLeaves, runtime_leaves};

use crate::parsed_expr::ParsedExpr;
use crate::parsed_leaf::ParsedLeaf;
use std::alloc::{AllocError, Global};

impl<S> ParsedExpr<S> {
    /// The leaves that can be told only of a test, or only at run time, from left to right.
    pub fn runtime_only_leaves(&self, alloc: Global) -> Result<Vec<&ParsedLeaf<S>>, AllocError>
        ensures { IfOk result (λ v. map (λ l. leaf_of l.now) v.items
            ≡ runtime_leaves (tree_of self.now)) }
    {
        let mut leaves = Vec::new(alloc);
        self.push_from_the_right(&mut leaves)?;
        leaves.reverse();
        Ok(leaves)
    }

    /// Pushes those leaves from right to left, so that the left side is walked by a loop.
    fn push_from_the_right<'t>(
        &'t self,
        leaves: &mut Vec<&'t ParsedLeaf<S>>,
    ) -> Result<(), AllocError>
        ensures { OnOk result (AddsLeaves (tree_of self.now) leaves.old.items leaves.new.items) }
    {
        let mut rest = self;
        loop {
            match rest {
                ParsedExpr::Not(_, x) | ParsedExpr::Parens(x) => rest = x,
                ParsedExpr::Union(_, x, y)
                | ParsedExpr::Intersection(_, x, y)
                | ParsedExpr::Difference(_, x, y) => {
                    y.push_from_the_right(leaves)?;
                    rest = x;
                }
                ParsedExpr::Set(leaf) => {
                    if leaf.is_runtime_only() {
                        leaves.push(leaf)?;
                    }
                    return Ok(());
                }
            }
        }
    }
}

/// Whether a filter text may ask for dependencies, which have to be found before it is compiled.
pub fn needs_deps(text: &str) -> bool
    ensures { IsTrue result ↔ HasSubslice text.now (codes "deps") }
{
    text.contains("deps")
}

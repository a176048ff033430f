//! Compiled filters.

ghost use Rattle.std.specs.Prelude.{◌≡◌, IfOk};
ghost use Rattle.nextest_filter_evaluation.specs.Formulas.{has_leaf};
ghost use Rattle.nextest_filter_evaluation.specs.Compiled.{compiled_of, is_default, is_group, turned_over};

use crate::filterset_leaf::FiltersetLeaf;
use std::alloc::{AllocError, Global};
use std::mem;

/// A filter with its names of packages looked up.
#[derive(Debug)]
pub enum CompiledExpr {
    Not(Box<CompiledExpr>),
    Union(Box<CompiledExpr>, Box<CompiledExpr>),
    Intersection(Box<CompiledExpr>, Box<CompiledExpr>),
    Set(FiltersetLeaf),
}

// By a loop along the left side, where long chains lie, without a stack frame for each operand.
impl Drop for CompiledExpr {
    fn drop(mut self) {
        loop {
            match self {
                CompiledExpr::Not(x) => self = Box::into_inner(x),
                CompiledExpr::Union(x, y) | CompiledExpr::Intersection(x, y) => {
                    drop(y);
                    self = Box::into_inner(x);
                }
                CompiledExpr::Set(_) => return,
            }
        }
    }
}

/// Two filters are compared by a loop along their left sides, the operands on the right first.
impl PartialEq for CompiledExpr {
    ghost use Rattle.nextest_filter_evaluation.specs.SameFilters.{same_filters, same_filters_alike};
    ghost use Rattle.nextest_filter_evaluation.specs.contracts.filterset_leaf.FiltersetLeafPartialEq.TheImpl.Laws as leaf_laws;

    ghost eq = { same_filters ⟦<FiltersetLeaf as PartialEq>⟧.eq };

    ghost laws = { same_filters_alike ⟦<FiltersetLeaf as PartialEq>⟧.eq leaf_laws.laws-law };

    fn eq(&self, other: &CompiledExpr) -> bool {
        let (mut rest, mut other) = (self, other);
        loop {
            match (rest, other) {
                (CompiledExpr::Not(x), CompiledExpr::Not(other_x)) => (rest, other) = (x, other_x),
                (CompiledExpr::Union(x, y), CompiledExpr::Union(other_x, other_y))
                | (
                    CompiledExpr::Intersection(x, y),
                    CompiledExpr::Intersection(other_x, other_y),
                ) => {
                    if y != other_y {
                        return false;
                    }
                    (rest, other) = (x, other_x);
                }
                (CompiledExpr::Set(leaf), CompiledExpr::Set(other_leaf)) => {
                    return leaf == other_leaf;
                }
                _ => return false,
            }
        }
    }
}

impl Eq for CompiledExpr {
    ghost use Rattle.nextest_filter_evaluation.specs.SameFilters.{same_filters_equivalent};
    ghost use Rattle.nextest_filter_evaluation.specs.contracts.filterset_leaf.FiltersetLeafEq.TheImpl.Laws as leaf_laws;

    ghost laws = { same_filters_equivalent ⟦<FiltersetLeaf as PartialEq>⟧.eq leaf_laws.laws-law };
}

impl CompiledExpr {
    /// The filter of all tests.
    pub const ALL: CompiledExpr = CompiledExpr::Set(FiltersetLeaf::All);

    /// Whether a group is named.
    pub fn has_group_matchers(&self) -> bool
        ensures groups { result ≡ has_leaf is_group (compiled_of self.now) }
    {
        let mut rest = self;
        loop {
            match rest {
                CompiledExpr::Not(x) => rest = x,
                CompiledExpr::Union(x, y) | CompiledExpr::Intersection(x, y) => {
                    if y.has_group_matchers() {
                        return true;
                    }
                    rest = x;
                }
                CompiledExpr::Set(leaf) => return matches!(leaf, FiltersetLeaf::Group(..)),
            }
        }
    }

    /// Whether the default filter is named.
    pub(crate) fn has_default(&self) -> bool
        ensures { result ≡ has_leaf is_default (compiled_of self.now) }
    {
        let mut rest = self;
        loop {
            match rest {
                CompiledExpr::Not(x) => rest = x,
                CompiledExpr::Union(x, y) | CompiledExpr::Intersection(x, y) => {
                    if y.has_default() {
                        return true;
                    }
                    rest = x;
                }
                CompiledExpr::Set(leaf) => return matches!(leaf, FiltersetLeaf::Default),
            }
        }
    }

    /// An equal filter in memory of its own.
    pub fn copy(&self, alloc: Global) -> Result<CompiledExpr, AllocError>
        ensures equal { IfOk result (λ c. compiled_of c ≡ compiled_of self.now) }
    {
        let mut above = CompiledExpr::Set(FiltersetLeaf::None);
        let mut rest = self;
        loop {
            match rest {
                CompiledExpr::Not(x) => {
                    above = CompiledExpr::Not(Box::new(alloc, above)?);
                    rest = x;
                }
                CompiledExpr::Union(x, y) => {
                    let y = Box::new(alloc, y.copy(alloc)?)?;
                    above = CompiledExpr::Union(Box::new(alloc, above)?, y);
                    rest = x;
                }
                CompiledExpr::Intersection(x, y) => {
                    let y = Box::new(alloc, y.copy(alloc)?)?;
                    above = CompiledExpr::Intersection(Box::new(alloc, above)?, y);
                    rest = x;
                }
                CompiledExpr::Set(leaf) => {
                    let leaf = leaf.copy(alloc)?;
                    return Ok(above.turned_over(CompiledExpr::Set(leaf)));
                }
            }
        }
    }

    /// The filter whose operators these are from the inside out, around what lies innermost: so a filter is
    /// made along its left side by a loop.
    pub fn turned_over(mut self, innermost: CompiledExpr) -> CompiledExpr
        ensures { compiled_of result ≡ turned_over self (compiled_of innermost) }
    {
        let mut built = innermost;
        loop {
            match self {
                CompiledExpr::Not(mut x) => {
                    self = mem::replace(&mut *x, built);
                    built = CompiledExpr::Not(x);
                }
                CompiledExpr::Union(mut x, y) => {
                    self = mem::replace(&mut *x, built);
                    built = CompiledExpr::Union(x, y);
                }
                CompiledExpr::Intersection(mut x, y) => {
                    self = mem::replace(&mut *x, built);
                    built = CompiledExpr::Intersection(x, y);
                }
                CompiledExpr::Set(_) => return built,
            }
        }
    }
}

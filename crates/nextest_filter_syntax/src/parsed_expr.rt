//! Filters as they were written.

ghost use Rattle.std.specs.Prelude.{◌≡◌, IfOk};

use crate::parsed_leaf::ParsedLeaf;
use nextest_filter_matchers::SourceSpan;
use nextest_filter_tokens::{AndOperator, DifferenceOperator, NotOperator, OrOperator};
use std::alloc::{AllocError, Global};
use std::{fmt, mem};

/// A filter as it was written.
#[derive(Debug)]
pub enum ParsedExpr<S = SourceSpan> {
    Not(NotOperator, Box<ParsedExpr<S>>),
    Union(OrOperator, Box<ParsedExpr<S>>, Box<ParsedExpr<S>>),
    Intersection(AndOperator, Box<ParsedExpr<S>>, Box<ParsedExpr<S>>),
    Difference(DifferenceOperator, Box<ParsedExpr<S>>, Box<ParsedExpr<S>>),
    Parens(Box<ParsedExpr<S>>),
    Set(ParsedLeaf<S>),
}

/// A filter is let go by a loop along its left side, since a chain of operators leans to the left.
impl<S: Drop> Drop for ParsedExpr<S> {
    fn drop(mut self) {
        loop {
            match self {
                ParsedExpr::Set(_) => return,
                ParsedExpr::Not(_, x) | ParsedExpr::Parens(x) => self = Box::into_inner(x),
                ParsedExpr::Union(_, x, y)
                | ParsedExpr::Intersection(_, x, y)
                | ParsedExpr::Difference(_, x, y) => {
                    drop(y);
                    self = Box::into_inner(x);
                }
            }
        }
    }
}

/// Two filters are compared by a loop along their left sides, the operands on the right first.
impl<S: PartialEq> PartialEq for ParsedExpr<S> {
    ghost use Rattle.nextest_filter_syntax.specs.SameFilters.{same_filters, same_filters_alike};
    ghost use Rattle.nextest_filter_tokens.specs.contracts.operator_signs.NotOperatorPartialEq.TheImpl.Laws as not_laws;
    ghost use Rattle.nextest_filter_tokens.specs.contracts.operator_signs.OrOperatorPartialEq.TheImpl.Laws as or_laws;
    ghost use Rattle.nextest_filter_tokens.specs.contracts.operator_signs.AndOperatorPartialEq.TheImpl.Laws as and_laws;
    ghost use Rattle.nextest_filter_tokens.specs.contracts.operator_signs.DifferenceOperatorPartialEq.TheImpl.Laws as minus_laws;
    ghost use Rattle.nextest_filter_syntax.specs.contracts.parsed_leaf.ParsedLeafPartialEq.TheImpl.Laws as leaf_laws;
    ghost use Rattle.std.proofs.Common.{rules};

    ghost eq = { same_filters ⟦<NotOperator as PartialEq>⟧.eq ⟦<OrOperator as PartialEq>⟧.eq ⟦<AndOperator as PartialEq>⟧.eq ⟦<DifferenceOperator as PartialEq>⟧.eq ⟦<ParsedLeaf<S> as PartialEq>⟧.eq };

    ghost laws = { same_filters_alike ⟦<NotOperator as PartialEq>⟧.eq ⟦<OrOperator as PartialEq>⟧.eq ⟦<AndOperator as PartialEq>⟧.eq ⟦<DifferenceOperator as PartialEq>⟧.eq ⟦<ParsedLeaf<S> as PartialEq>⟧.eq not_laws.laws-law or_laws.laws-law and_laws.laws-law minus_laws.laws-law (Prim.search (leaf_laws.laws-law, rules)) };

    fn eq(&self, other: &ParsedExpr<S>) -> bool {
        let (mut rest, mut other) = (self, other);
        loop {
            match (rest, other) {
                (ParsedExpr::Not(op, x), ParsedExpr::Not(other_op, other_x)) => {
                    if op != other_op {
                        return false;
                    }
                    (rest, other) = (x, other_x);
                }
                (ParsedExpr::Union(op, x, y), ParsedExpr::Union(other_op, other_x, other_y)) => {
                    if op != other_op || y != other_y {
                        return false;
                    }
                    (rest, other) = (x, other_x);
                }
                (
                    ParsedExpr::Intersection(op, x, y),
                    ParsedExpr::Intersection(other_op, other_x, other_y),
                ) => {
                    if op != other_op || y != other_y {
                        return false;
                    }
                    (rest, other) = (x, other_x);
                }
                (
                    ParsedExpr::Difference(op, x, y),
                    ParsedExpr::Difference(other_op, other_x, other_y),
                ) => {
                    if op != other_op || y != other_y {
                        return false;
                    }
                    (rest, other) = (x, other_x);
                }
                (ParsedExpr::Parens(x), ParsedExpr::Parens(other_x)) => (rest, other) = (
                    x, other_x,
                ),
                (ParsedExpr::Set(leaf), ParsedExpr::Set(other_leaf)) => return leaf == other_leaf,
                _ => return false,
            }
        }
    }
}

impl<S: Eq> Eq for ParsedExpr<S> {
    ghost use Rattle.nextest_filter_syntax.specs.SameFilters.{same_filters_equivalent};
    ghost use Rattle.nextest_filter_tokens.specs.contracts.operator_signs.NotOperatorEq.TheImpl.Laws as not_laws;
    ghost use Rattle.nextest_filter_tokens.specs.contracts.operator_signs.OrOperatorEq.TheImpl.Laws as or_laws;
    ghost use Rattle.nextest_filter_tokens.specs.contracts.operator_signs.AndOperatorEq.TheImpl.Laws as and_laws;
    ghost use Rattle.nextest_filter_tokens.specs.contracts.operator_signs.DifferenceOperatorEq.TheImpl.Laws as minus_laws;
    ghost use Rattle.nextest_filter_syntax.specs.contracts.parsed_leaf.ParsedLeafEq.TheImpl.Laws as leaf_laws;
    ghost use Rattle.std.proofs.Common.{rules};

    ghost laws = { same_filters_equivalent ⟦<NotOperator as PartialEq>⟧.eq ⟦<OrOperator as PartialEq>⟧.eq ⟦<AndOperator as PartialEq>⟧.eq ⟦<DifferenceOperator as PartialEq>⟧.eq ⟦<ParsedLeaf<S> as PartialEq>⟧.eq not_laws.laws-law or_laws.laws-law and_laws.laws-law minus_laws.laws-law (Prim.search (leaf_laws.laws-law, rules)) };
}

impl<S: Copy> ParsedExpr<S> {
    ghost use Rattle.std.specs.Prelude.{◌≡◌, IfOk};
    ghost use Rattle.nextest_filter_syntax.specs.Leaves.{leaf_of, leaf_patterns};
    ghost use Rattle.nextest_filter_syntax.specs.Trees.{patterns_of, set_of, tree_of};
    ghost use Rattle.nextest_filter_syntax.specs.Turned.{turned_patterns, turned_tree};

    /// An equal tree in memory of its own, whose leaves match the same names.
    pub fn copy(&self, alloc: Global) -> Result<ParsedExpr<S>, AllocError>
        ensures equal { IfOk result (λ c. tree_of c ≡ tree_of self.now) }
        ensures patterns { IfOk result (λ c. patterns_of c ≡ patterns_of self.now) }
    {
        let mut rest = self;
        let mut above = ParsedExpr::Set(ParsedLeaf::None);
        loop {
            match rest {
                ParsedExpr::Not(op, x) => {
                    above = ParsedExpr::Not(*op, Box::new(alloc, above)?);
                    rest = x;
                }
                ParsedExpr::Union(op, x, y) => {
                    let (left, right) = both_boxed(alloc, above, y.copy(alloc)?)?;
                    above = ParsedExpr::Union(*op, left, right);
                    rest = x;
                }
                ParsedExpr::Intersection(op, x, y) => {
                    let (left, right) = both_boxed(alloc, above, y.copy(alloc)?)?;
                    above = ParsedExpr::Intersection(*op, left, right);
                    rest = x;
                }
                ParsedExpr::Difference(op, x, y) => {
                    let (left, right) = both_boxed(alloc, above, y.copy(alloc)?)?;
                    above = ParsedExpr::Difference(*op, left, right);
                    rest = x;
                }
                ParsedExpr::Parens(x) => {
                    above = ParsedExpr::Parens(Box::new(alloc, above)?);
                    rest = x;
                }
                ParsedExpr::Set(leaf) => {
                    let innermost = ParsedExpr::of_leaf(alloc, leaf)?;
                    return Ok(above.turned_round(innermost));
                }
            }
        }
    }

    /// The filter whose left side was built from the outside in, turned round: its innermost operand
    /// comes in place of the leaf.
    fn turned_round(mut self, innermost: ParsedExpr<S>) -> ParsedExpr<S>
        ensures equal { tree_of result ≡ turned_tree self (tree_of innermost) }
        ensures patterns { patterns_of result ≡ turned_patterns self (patterns_of innermost) }
    {
        let mut built = innermost;
        loop {
            match self {
                ParsedExpr::Not(op, mut x) => {
                    self = mem::replace(&mut *x, built);
                    built = ParsedExpr::Not(op, x);
                }
                ParsedExpr::Union(op, mut x, y) => {
                    self = mem::replace(&mut *x, built);
                    built = ParsedExpr::Union(op, x, y);
                }
                ParsedExpr::Intersection(op, mut x, y) => {
                    self = mem::replace(&mut *x, built);
                    built = ParsedExpr::Intersection(op, x, y);
                }
                ParsedExpr::Difference(op, mut x, y) => {
                    self = mem::replace(&mut *x, built);
                    built = ParsedExpr::Difference(op, x, y);
                }
                ParsedExpr::Parens(mut x) => {
                    self = mem::replace(&mut *x, built);
                    built = ParsedExpr::Parens(x);
                }
                ParsedExpr::Set(_) => return built,
            }
        }
    }

    /// The filter of an equal leaf. It stands apart from the walk over the tree, whose steps take less of the
    /// stack so.
    #[inline(never)]
    fn of_leaf(alloc: Global, leaf: &ParsedLeaf<S>) -> Result<ParsedExpr<S>, AllocError>
        ensures equal { IfOk result (λ c. tree_of c ≡ set_of (leaf_of leaf.now)) }
        ensures patterns { IfOk result (λ c. patterns_of c ≡ leaf_patterns leaf.now) }
    {
        let leaf = leaf.copy(alloc)?;
        Ok(ParsedExpr::Set(leaf))
    }
}

/// Two filters, each in memory of its own.
pub(crate) fn both_boxed<S: Copy>(
    alloc: Global,
    left: ParsedExpr<S>,
    right: ParsedExpr<S>,
) -> Result<(Box<ParsedExpr<S>>, Box<ParsedExpr<S>>), AllocError>
    ensures { IfOk result (λ r. (r.0.value ≡ left) × (r.1.value ≡ right)) }
{
    match Box::new(alloc, left) {
        Ok(left) => Ok((left, Box::new(alloc, right)?)),
        Err(refused) => {
            drop(right);
            Err(AllocError::from(refused))
        }
    }
}

impl<S> fmt::Display for ParsedExpr<S> {
    ghost use Rattle.std.specs.Prelude.{Some};
    ghost use Rattle.nextest_filter_syntax.specs.Trees.{tree_of};
    ghost use Rattle.nextest_filter_syntax.specs.TreeTexts.{tree_text};

    ghost output = { λ x. Some (tree_text (tree_of x)) };

    fn fmt<W: fmt::Write>(&self, f: &mut fmt::Formatter<W>) -> fmt::Result {
        self.write_to(f)
    }
}

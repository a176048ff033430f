//! Expressions made of parts, each of which may be spoiled.

ghost use Rattle.std.specs.Prelude.{◌≡◌, IfOk, IfSome};
ghost use Rattle.nextest_filter_syntax.specs.PatternsAsWritten.{IsLeafAsWritten};
ghost use Rattle.nextest_filter_syntax.specs.FiltersAsWritten.{IsExprAsWritten};
ghost use Rattle.nextest_filter_syntax.specs.Trees.{tree_of};
ghost use Rattle.nextest_filter_syntax.specs.Grammar.{joined_of};
ghost use Rattle.nextest_filter_syntax.specs.Reading.{joined_part, leaf_part, negated_part, parens_part, part_of};

use crate::parsed_expr::{ParsedExpr, both_boxed};
use crate::parsed_leaf::ParsedLeaf;
use nextest_filter_tokens::{DifferenceOperator, Found, NotOperator, Operator};
use std::alloc::{AllocError, Global};

/// The expression of a leaf, unless it is spoiled.
pub(crate) fn leaf_expr(leaf: Option<ParsedLeaf>) -> Option<ParsedExpr>
    ensures value { part_of result ≡ leaf_part leaf }
    ensures as_written { IfSome leaf IsLeafAsWritten → IfSome result IsExprAsWritten }
{
    match leaf {
        Some(leaf) => Some(ParsedExpr::Set(leaf)),
        None => None,
    }
}

/// The negation of an expression, unless that is spoiled.
pub(crate) fn negated(
    alloc: Global,
    op: NotOperator,
    expr: Option<ParsedExpr>,
) -> Result<Option<ParsedExpr>, AllocError>
    ensures value { IfOk result (λ r. part_of r ≡ negated_part op (part_of expr)) }
    ensures as_written { IfSome expr IsExprAsWritten → IfOk result (λ r. IfSome r IsExprAsWritten) }
{
    match expr {
        Some(expr) => {
            let expr = Box::new(alloc, expr)?;
            Ok(Some(ParsedExpr::Not(op, expr)))
        }
        None => Ok(None),
    }
}

/// An expression in parentheses, unless it is spoiled.
pub(crate) fn in_parens(
    alloc: Global,
    expr: Option<ParsedExpr>,
) -> Result<Option<ParsedExpr>, AllocError>
    ensures value { IfOk result (λ r. part_of r ≡ parens_part (part_of expr)) }
    ensures as_written { IfSome expr IsExprAsWritten → IfOk result (λ r. IfSome r IsExprAsWritten) }
{
    match expr {
        Some(expr) => {
            let expr = Box::new(alloc, expr)?;
            Ok(Some(ParsedExpr::Parens(expr)))
        }
        None => Ok(None),
    }
}

/// Two expressions, joined by the operator between them.
fn joined_by(
    alloc: Global,
    op: Operator,
    left: ParsedExpr,
    right: ParsedExpr,
) -> Result<ParsedExpr, AllocError>
    ensures value { IfOk result (λ x. tree_of x ≡ joined_of op (tree_of left) (tree_of right)) }
    ensures as_written { IsExprAsWritten left → IsExprAsWritten right
        → IfOk result IsExprAsWritten }
{
    let (left, right) = both_boxed(alloc, left, right)?;
    match op {
        Operator::Or(op) => Ok(ParsedExpr::Union(op, left, right)),
        Operator::And(op) => Ok(ParsedExpr::Intersection(op, left, right)),
        Operator::Minus => {
            let op = DifferenceOperator::Minus;
            Ok(ParsedExpr::Difference(op, left, right))
        }
    }
}

/// Two expressions, joined by what stands between them, unless one of the three is spoiled.
pub(crate) fn joined(
    alloc: Global,
    found: Found,
    left: Option<ParsedExpr>,
    right: Option<ParsedExpr>,
) -> Result<Option<ParsedExpr>, AllocError>
    ensures value { IfOk result (λ r. part_of r
        ≡ joined_part found (part_of left) (part_of right)) }
    ensures as_written { IfSome left IsExprAsWritten → IfSome right IsExprAsWritten
        → IfOk result (λ r. IfSome r IsExprAsWritten) }
{
    let Some((left, right)) = left.zip(right) else {
        return Ok(None);
    };
    match found {
        Found::Joins(op, _) => Ok(Some(joined_by(alloc, op, left, right)?)),
        _ => {
            drop((left, right));
            Ok(None)
        }
    }
}

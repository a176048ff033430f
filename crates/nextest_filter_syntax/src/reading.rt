//! Operands and operators read one after another.

ghost use Rattle.std.specs.Prelude.{◌≡◌, ◌≤◌, ◌<◌, ◌+◌, ℕ, false, IfOk, IfSome, OnOk, Some, length};
ghost use Rattle.nextest_filter_matchers.specs.declared.source_span.SourceSpan as source;
ghost use Rattle.nextest_filter_tokens.specs.Bytes.{skip};
ghost use Rattle.nextest_filter_tokens.specs.Faults.{is_pattern_fault, span_of};
ghost use Rattle.nextest_filter_tokens.specs.ReadingSteps.{AreOf, GoesOn, Grows, HasSyntaxFault, IsClean, KeepsPatterns, Spoils};
ghost use Rattle.nextest_filter_tokens.specs.Heads.{HeadEndsWithin, head_at};
ghost use Rattle.nextest_filter_syntax.specs.Trees.{Tree};
ghost use Rattle.nextest_filter_syntax.specs.FiltersAsWritten.{IsExprAsWritten};
ghost use Rattle.nextest_filter_syntax.specs.Grammar.{Reads};
ghost use Rattle.nextest_filter_syntax.specs.MisplacedOperators.{found_as, found_in};
ghost use Rattle.nextest_filter_syntax.specs.Reading.{Ends, IsReading, parens_part, part_of};
ghost use Rattle.nextest_filter_syntax.specs.LeafGrammar.{Stands};

use crate::between::{operator_after, place_after};
use crate::parsed_expr::ParsedExpr;
use crate::parts::{in_parens, joined, leaf_expr, negated};
use crate::places::expect_byte;
use crate::sets::{named_set_from, nullary_set_from, platform_set_from};
use nextest_filter_tokens::{
    FaultList, Head, ParseSingleError, SourceSpan, WrongOperator, head_of, skip_blanks,
};
use std::alloc::{AllocError, Global};

/// The fault of an operator that stands in an operand's place.
fn misplaced(op: WrongOperator, span: SourceSpan) -> ParseSingleError
    ensures syntax { is_pattern_fault result ≡ false }
    ensures span { span_of result ≡ span }
    ensures found { found_in result ≡ Some (found_as op) }
{
    let (op, suggest) = match op {
        WrongOperator::LowerAnd => ("and", "and"),
        WrongOperator::LowerOr => ("or", "or"),
        WrongOperator::UpperAnd => ("AND", "and"),
        WrongOperator::UpperOr => ("OR", "or"),
        WrongOperator::DoubleAmpersand => ("&&", "&"),
        WrongOperator::DoublePipe => ("||", "|"),
        WrongOperator::UpperNot => {
            let (op, suggest) = ("NOT", "not");
            return ParseSingleError::ExprFoundUnaryOp { op, suggest, span };
        }
    };
    ParseSingleError::ExprFoundBinaryOp { op, suggest, span }
}

/// The part of the text from a place on.
pub(crate) fn rest_of(text: &str, at: usize) -> SourceSpan
    requires { at ≤ length text.now }
    ensures { result.offset + result.len ≡ length text.now }
{
    SourceSpan {
        offset: at,
        len: text.len() - at,
    }
}

/// Reports that an operand stands too deep, and closes the faults.
fn report_too_deep(text: &str, at: usize, faults: &mut FaultList) -> Result<(), AllocError>
    requires at { at ≤ length text.now }
    requires faults { AreOf text.now faults.old }
    ensures grows { OnOk result (Grows text.now faults.old faults.new) }
    ensures fault { OnOk result (HasSyntaxFault faults.new) }
{
    faults.close(rest_of(text, at))?;
    Ok(())
}

/// Reports what stands in the place of an operand, between two places, and is none.
fn report_misplaced(
    op: WrongOperator,
    text: &str,
    at: usize,
    end: usize,
    faults: &mut FaultList,
) -> Result<(), AllocError>
    requires rises { at ≤ end }
    requires end { end ≤ length text.now }
    requires faults { AreOf text.now faults.old }
    ensures grows { OnOk result (Grows text.now faults.old faults.new) }
    ensures fault { OnOk result (HasSyntaxFault faults.new) }
{
    let span = SourceSpan {
        offset: at,
        len: end - at,
    };
    faults.report(misplaced(op, span))?;
    Ok(())
}

/// Reports that no operand stands at the place.
fn report_no_operand(text: &str, at: usize, faults: &mut FaultList) -> Result<(), AllocError>
    requires at { at ≤ length text.now }
    requires faults { AreOf text.now faults.old }
    ensures grows { OnOk result (Grows text.now faults.old faults.new) }
    ensures fault { OnOk result (HasSyntaxFault faults.new) }
{
    faults.report(ParseSingleError::ExpectedExpr(rest_of(text, at)))?;
    Ok(())
}

/// An expression in parentheses, of which the last is expected after it, and the place after that.
fn closed_parens(
    alloc: Global,
    text: &str,
    tree: Option<ParsedExpr>,
    at: usize,
    faults: &mut FaultList,
) -> Result<(Option<ParsedExpr>, usize), AllocError>
    requires at { at ≤ length text.now }
    requires faults { AreOf text.now faults.old }
    ensures goes_on { IfOk result (λ p. GoesOn text.now at p.1 faults.old faults.new) }
    ensures keeps { OnOk result (KeepsPatterns faults.old faults.new) }
    ensures value { IfOk result (λ p. part_of p.0 ≡ parens_part (part_of tree)) }
    ensures as_written { IfSome tree IsExprAsWritten
        → IfOk result (λ p. IfSome p.0 IsExprAsWritten) }
    ensures read { IfOk result (λ p. IsClean faults.new → Stands text.now at 41 p.1) }
    ensures only { IfOk result (λ p. IsClean faults.old → (j : ℕ) → Stands text.now at 41 j
        → (p.1 ≡ j) × IsClean faults.new) }
{
    let span = SourceSpan { offset: at, len: 0 };
    let fault = ParseSingleError::ExpectedCloseParenthesis(span);
    match expect_byte(text, at, b')', fault, faults) {
        Ok(after) => Ok((in_parens(alloc, tree)?, after)),
        Err(refused) => {
            drop(tree);
            Err(refused)
        }
    }
}

/// A part of a filter of a level from a place on, `None` where it is spoiled, and the place after it.
#[cycle(reading)]
pub(crate) fn tree_from(
    alloc: Global,
    text: &str,
    room: usize,
    level: usize,
    at: usize,
    faults: &mut FaultList,
) -> Result<(Option<ParsedExpr>, usize), AllocError>
    requires level { level ≤ 2 }
    requires at { at ≤ length text.now }
    requires faults { AreOf text.now faults.old }
    ensures goes_on { IfOk result (λ p. GoesOn text.now at p.1 faults.old faults.new) }
    ensures spoils { IfOk result (λ p. Spoils p.0 faults.old faults.new) }
    ensures read { IfOk result (λ p. IsClean faults.new
        → IsReading text.now room level at p.0 p.1 faults.old faults.new) }
    ensures as_written { IfOk result (λ p. IfSome p.0 IsExprAsWritten) }
    ensures only { IfOk result (λ p. IsClean faults.old → (t : Tree source.SourceSpan) (j : ℕ)
        → Reads text.now room level at t j → Ends text.now level j → (p.1 ≡ j)
        × IsClean faults.new) }
{
    if level == 0 {
        let (tree, end) = operand_from(alloc, text, room, at, faults)?;
        return Ok((tree, end));
    }
    let (mut tree, mut end) = tree_from(alloc, text, room, level - 1, at, faults)?;
    loop {
        let found = match operator_after(text, level - 1, end, faults) {
            Ok(found) => found,
            Err(refused) => {
                drop(tree);
                return Err(refused);
            }
        };
        let Some(next) = place_after(found) else {
            return Ok((tree, end));
        };
        match tree_from(alloc, text, room, level - 1, next, faults) {
            Ok((right, after)) => {
                tree = joined(alloc, found, tree, right)?;
                end = after;
            }
            Err(refused) => {
                drop(tree);
                return Err(refused);
            }
        }
    }
}

/// An operand from a place on, `None` where it is spoiled, and the place after it.
#[cycle(reading)]
fn operand_from(
    alloc: Global,
    text: &str,
    room: usize,
    at: usize,
    faults: &mut FaultList,
) -> Result<(Option<ParsedExpr>, usize), AllocError>
    requires at { at ≤ length text.now }
    requires faults { AreOf text.now faults.old }
    ensures goes_on { IfOk result (λ p. GoesOn text.now at p.1 faults.old faults.new) }
    ensures spoils { IfOk result (λ p. Spoils p.0 faults.old faults.new) }
    ensures read { IfOk result (λ p. IsClean faults.new
        → IsReading text.now room 0 at p.0 p.1 faults.old faults.new) }
    ensures as_written { IfOk result (λ p. IfSome p.0 IsExprAsWritten) }
    ensures only { IfOk result (λ p. IsClean faults.old → (t : Tree source.SourceSpan) (j : ℕ)
        → Reads text.now room 0 at t j → (p.1 ≡ j) × IsClean faults.new) }
{
    let start = skip_blanks(text, at);
    match head_of(text, start) {
        Head::Names(predicate, next) => {
            let (leaf, end) = named_set_from(alloc, text, predicate, next, faults)?;
            Ok((leaf_expr(leaf), end))
        }
        Head::Platform(next) => {
            let (leaf, end) = platform_set_from(alloc, text, next, faults)?;
            Ok((leaf_expr(leaf), end))
        }
        Head::Says(word, next) => {
            let (leaf, end) = nullary_set_from(text, word, start, next, faults)?;
            Ok((Some(ParsedExpr::Set(leaf)), end))
        }
        Head::Negates(op, next) => {
            if room == 0 {
                report_too_deep(text, at, faults)?;
                return Ok((None, at));
            }
            let (tree, end) = operand_from(alloc, text, room - 1, next, faults)?;
            let tree = negated(alloc, op, tree)?;
            Ok((tree, end))
        }
        Head::Opens(next) => {
            if room == 0 {
                report_too_deep(text, at, faults)?;
                return Ok((None, at));
            }
            let (tree, end) = tree_from(alloc, text, room - 1, 2, next, faults)?;
            let (tree, after) = closed_parens(alloc, text, tree, end, faults)?;
            Ok((tree, after))
        }
        Head::Misplaces(op, next) => {
            report_misplaced(op, text, start, next, faults)?;
            Ok((None, next))
        }
        Head::Unknown => {
            report_no_operand(text, at, faults)?;
            Ok((None, at))
        }
    }
}

//! Rows of filter texts.

use crate::filters::spans::add_span;
use nextest_filter_syntax::{
    ParseExprError, ParseSingleError, ParsedExpr, ParsedLeaf, parse_with_faults,
};
use row_program::{Answers, Row, RowFault, RowRunner};
use std::alloc::{AllocError, Global};

/// Rows of one filter each.
#[derive(Drop)]
pub(crate) struct FilterRows;

impl RowRunner for FilterRows {
    fn inputs(&self) -> &'static [&'static str] {
        &["text"]
    }

    fn run_row(
        &mut self,
        alloc: Global,
        row: Row<'_>,
        answers: &mut Answers,
    ) -> Result<(), RowFault> {
        let text = row.text("text")?;
        tell_printed(alloc, text, answers);
        let (tree, faults) = parse_with_faults(alloc, text)?;
        tell_faults(alloc, &faults, answers)?;
        match &tree {
            Some(tree) => tell_tree(alloc, tree, answers),
            None => {
                answers.show("shape", &"spoiled");
                answers.show("runtime", &"");
                answers.show("spans", &"");
            }
        }
        Ok(())
    }
}

/// Tells the printed copy of a text's tree, or why there is none.
fn tell_printed(alloc: Global, text: &str, answers: &mut Answers) {
    match ParsedExpr::parse(alloc, text) {
        Ok(tree) => answers.made("printed", tree.copy(alloc)),
        Err(ParseExprError::Faults(faults)) => {
            answers.show("printed", &"faults: ");
            answers.add(&faults.len());
        }
        Err(ParseExprError::Memory) => answers.keep("printed", Err(AllocError)),
    }
}

/// Tells the variants of the faults, and copies of them with their places.
fn tell_faults(
    alloc: Global,
    faults: &[ParseSingleError],
    answers: &mut Answers,
) -> Result<(), AllocError> {
    answers.begin("variants");
    for fault in faults {
        answers.part(" ", &variant_of(fault));
    }
    answers.begin("faults");
    for fault in faults {
        let fault = fault.copy(alloc)?;
        answers.part("; ", &fault);
        match &fault {
            ParseSingleError::ExprFoundBinaryOp { suggest, .. }
            | ParseSingleError::ExprFoundUnaryOp { suggest, .. } => {
                answers.part(", rather ", suggest);
            }
            ParseSingleError::InvalidGlob { error, .. } => answers.part(": ", error),
            _ => {}
        }
        answers.add(&" ");
        add_span(fault.span(), answers);
    }
    Ok(())
}

/// The name of a fault's variant, among those that a reading makes.
fn variant_of(fault: &ParseSingleError) -> &'static str {
    match fault {
        ParseSingleError::InvalidGlob { .. } => "InvalidGlob",
        ParseSingleError::InvalidRegexWithoutMessage(_) => "InvalidRegexWithoutMessage",
        ParseSingleError::ExpectedCloseRegex(_) => "ExpectedCloseRegex",
        ParseSingleError::InvalidOrOperator(_) => "InvalidOrOperator",
        ParseSingleError::InvalidAndOperator(_) => "InvalidAndOperator",
        ParseSingleError::UnexpectedArgument(_) => "UnexpectedArgument",
        ParseSingleError::UnexpectedComma(_) => "UnexpectedComma",
        ParseSingleError::InvalidString(_) => "InvalidString",
        ParseSingleError::ExpectedOpenParenthesis(_) => "ExpectedOpenParenthesis",
        ParseSingleError::ExpectedCloseParenthesis(_) => "ExpectedCloseParenthesis",
        ParseSingleError::InvalidEscapeCharacter(_) => "InvalidEscapeCharacter",
        ParseSingleError::ExpectedExpr(_) => "ExpectedExpr",
        ParseSingleError::ExprFoundBinaryOp { .. } => "ExprFoundBinaryOp",
        ParseSingleError::ExprFoundUnaryOp { .. } => "ExprFoundUnaryOp",
        ParseSingleError::ExpectedEndOfExpression(_) => "ExpectedEndOfExpression",
        ParseSingleError::InvalidPlatformArgument(_) => "InvalidPlatformArgument",
        ParseSingleError::UnsupportedExpression(_) => "UnsupportedExpression",
        _ => "another",
    }
}

/// Tells the tree's shape, its leaves that can be told only at run time, and the places of its leaves.
fn tell_tree(alloc: Global, tree: &ParsedExpr, answers: &mut Answers) {
    answers.begin("shape");
    add_shape(tree, answers);
    answers.begin("spans");
    add_spans(tree, answers);
    match tree.runtime_only_leaves(alloc) {
        Ok(leaves) => {
            answers.begin("runtime");
            for leaf in &leaves {
                answers.add(*leaf);
                answers.add(&" ");
            }
        }
        Err(refused) => answers.keep("runtime", Err(refused)),
    }
}

/// Adds the tree, with parentheses of its own around each part that is no leaf.
fn add_shape(tree: &ParsedExpr, answers: &mut Answers) {
    match tree {
        ParsedExpr::Not(op, x) => {
            answers.add(&"[");
            answers.add(op);
            answers.add(&" ");
            add_shape(x, answers);
            answers.add(&"]");
        }
        ParsedExpr::Union(_, x, y)
        | ParsedExpr::Intersection(_, x, y)
        | ParsedExpr::Difference(_, x, y) => {
            answers.add(&"[");
            add_shape(x, answers);
            answers.add(&" ");
            add_operator(tree, answers);
            answers.add(&" ");
            add_shape(y, answers);
            answers.add(&"]");
        }
        ParsedExpr::Parens(x) => {
            answers.add(&"(");
            add_shape(x, answers);
            answers.add(&")");
        }
        ParsedExpr::Set(leaf) => answers.add(leaf),
    }
}

/// Adds the operator that joins two parts.
fn add_operator(tree: &ParsedExpr, answers: &mut Answers) {
    match tree {
        ParsedExpr::Union(op, ..) => answers.add(op),
        ParsedExpr::Intersection(op, ..) => answers.add(op),
        ParsedExpr::Difference(op, ..) => answers.add(op),
        _ => {}
    }
}

/// Adds the places of the leaves that have one, from left to right.
fn add_spans(tree: &ParsedExpr, answers: &mut Answers) {
    match tree {
        ParsedExpr::Not(_, x) | ParsedExpr::Parens(x) => add_spans(x, answers),
        ParsedExpr::Union(_, x, y)
        | ParsedExpr::Intersection(_, x, y)
        | ParsedExpr::Difference(_, x, y) => {
            add_spans(x, answers);
            add_spans(y, answers);
        }
        ParsedExpr::Set(leaf) => match leaf {
            ParsedLeaf::Package(_, span)
            | ParsedLeaf::Deps(_, span)
            | ParsedLeaf::Rdeps(_, span)
            | ParsedLeaf::Kind(_, span)
            | ParsedLeaf::Binary(_, span)
            | ParsedLeaf::BinaryId(_, span)
            | ParsedLeaf::Platform(_, span)
            | ParsedLeaf::Test(_, span)
            | ParsedLeaf::Group(_, span)
            | ParsedLeaf::Feature(_, span)
            | ParsedLeaf::Default(span) => add_span(*span, answers),
            ParsedLeaf::All | ParsedLeaf::None => {}
        },
    }
}

//! Copies of faults.

ghost use Rattle.std.specs.Prelude.{IfOk};
ghost use Rattle.nextest_filter_tokens.specs.Copies.{SameFault};

use crate::parse_error::{ParseSingleError, ParseSingleError as Fault};
use std::alloc::{AllocError, Global};

impl ParseSingleError {
    /// An equal fault in memory of its own.
    pub fn copy(&self, alloc: Global) -> Result<ParseSingleError, AllocError>
        ensures { IfOk result (λ c. SameFault self.now c) }
    {
        Ok(match self {
            Fault::InvalidRegex { span, message } => Fault::InvalidRegex {
                span: *span,
                message: String::from_str(alloc, message.as_str())?,
            },
            Fault::InvalidGlob { span, error } => Fault::InvalidGlob {
                span: *span,
                error: error.copy(alloc)?,
            },
            Fault::BannedPredicate { kind, span, reason } => Fault::BannedPredicate {
                kind: *kind,
                span: *span,
                reason: *reason,
            },
            Fault::ExprFoundBinaryOp { op, suggest, span } => Fault::ExprFoundBinaryOp {
                op: *op,
                suggest: *suggest,
                span: *span,
            },
            Fault::ExprFoundUnaryOp { op, suggest, span } => Fault::ExprFoundUnaryOp {
                op: *op,
                suggest: *suggest,
                span: *span,
            },
            Fault::InvalidRegexWithoutMessage(span) => Fault::InvalidRegexWithoutMessage(*span),
            Fault::ExpectedCloseRegex(span) => Fault::ExpectedCloseRegex(*span),
            Fault::InvalidOrOperator(span) => Fault::InvalidOrOperator(*span),
            Fault::InvalidAndOperator(span) => Fault::InvalidAndOperator(*span),
            Fault::UnexpectedArgument(span) => Fault::UnexpectedArgument(*span),
            Fault::UnexpectedComma(span) => Fault::UnexpectedComma(*span),
            Fault::InvalidString(span) => Fault::InvalidString(*span),
            Fault::ExpectedOpenParenthesis(span) => Fault::ExpectedOpenParenthesis(*span),
            Fault::ExpectedCloseParenthesis(span) => Fault::ExpectedCloseParenthesis(*span),
            Fault::InvalidEscapeCharacter(span) => Fault::InvalidEscapeCharacter(*span),
            Fault::ExpectedExpr(span) => Fault::ExpectedExpr(*span),
            Fault::ExpectedEndOfExpression(span) => Fault::ExpectedEndOfExpression(*span),
            Fault::NoPackageMatch(span) => Fault::NoPackageMatch(*span),
            Fault::NoGroupMatch(span) => Fault::NoGroupMatch(*span),
            Fault::NoBinaryIdMatch(span) => Fault::NoBinaryIdMatch(*span),
            Fault::NoBinaryNameMatch(span) => Fault::NoBinaryNameMatch(*span),
            Fault::NoFeatureMatch(span) => Fault::NoFeatureMatch(*span),
            Fault::InvalidPlatformArgument(span) => Fault::InvalidPlatformArgument(*span),
            Fault::UnsupportedExpression(span) => Fault::UnsupportedExpression(*span),
            Fault::Unknown => Fault::Unknown,
        })
    }
}

//! The faults of filter texts.

ghost use Rattle.std.specs.Prelude.{◌≡◌};
ghost use Rattle.nextest_filter_tokens.specs.FaultTexts.{plain_text};

use crate::filterset_kind::{BannedPredicateReason, FiltersetKind};
use nextest_filter_matchers::{GlobConstructError, SourceSpan};
use std::{error, fmt};

/// A fault of a filter text.
#[derive(Debug, Drop, PartialEq, Eq)]
pub enum ParseSingleError {
    /// Kept for its name: `InvalidRegexWithoutMessage` is made in its place.
    InvalidRegex {
        span: SourceSpan,
        message: String,
    },
    InvalidGlob {
        span: SourceSpan,
        error: GlobConstructError,
    },
    /// A predicate that may not stand in a filter of this kind.
    BannedPredicate {
        kind: FiltersetKind,
        span: SourceSpan,
        reason: BannedPredicateReason,
    },
    /// A pattern that was refused.
    InvalidRegexWithoutMessage(SourceSpan),
    /// A pattern without its closing slash.
    ExpectedCloseRegex(SourceSpan),
    InvalidOrOperator(SourceSpan),
    InvalidAndOperator(SourceSpan),
    /// Something in the parentheses of a set that takes nothing.
    UnexpectedArgument(SourceSpan),
    UnexpectedComma(SourceSpan),
    /// An empty text.
    InvalidString(SourceSpan),
    ExpectedOpenParenthesis(SourceSpan),
    ExpectedCloseParenthesis(SourceSpan),
    InvalidEscapeCharacter(SourceSpan),
    ExpectedExpr(SourceSpan),
    /// A binary operator in an operand's place, and how it is rightly written.
    ExprFoundBinaryOp {
        op: &'static str,
        suggest: &'static str,
        span: SourceSpan,
    },
    /// A unary operator that is written wrongly, and how it is rightly written.
    ExprFoundUnaryOp {
        op: &'static str,
        suggest: &'static str,
        span: SourceSpan,
    },
    ExpectedEndOfExpression(SourceSpan),
    NoPackageMatch(SourceSpan),
    NoGroupMatch(SourceSpan),
    NoBinaryIdMatch(SourceSpan),
    NoBinaryNameMatch(SourceSpan),
    NoFeatureMatch(SourceSpan),
    InvalidPlatformArgument(SourceSpan),
    /// More parentheses and negations inside each other than are read.
    UnsupportedExpression(SourceSpan),
    /// Kept for its name, and never made.
    Unknown,
}

impl ParseSingleError {
    ghost use Rattle.std.specs.Prelude.{◌≡◌};
    ghost use Rattle.nextest_filter_tokens.specs.Faults.{span_of};

    /// Where the fault lies in the text.
    pub fn span(&self) -> SourceSpan
        ensures { result ≡ span_of self.now }
    {
        match self {
            ParseSingleError::InvalidRegex { span, .. }
            | ParseSingleError::InvalidGlob { span, .. }
            | ParseSingleError::BannedPredicate { span, .. }
            | ParseSingleError::InvalidRegexWithoutMessage(span)
            | ParseSingleError::ExpectedCloseRegex(span)
            | ParseSingleError::InvalidOrOperator(span)
            | ParseSingleError::InvalidAndOperator(span)
            | ParseSingleError::UnexpectedArgument(span)
            | ParseSingleError::UnexpectedComma(span)
            | ParseSingleError::InvalidString(span)
            | ParseSingleError::ExpectedOpenParenthesis(span)
            | ParseSingleError::ExpectedCloseParenthesis(span)
            | ParseSingleError::InvalidEscapeCharacter(span)
            | ParseSingleError::ExpectedExpr(span)
            | ParseSingleError::ExprFoundBinaryOp { span, .. }
            | ParseSingleError::ExprFoundUnaryOp { span, .. }
            | ParseSingleError::ExpectedEndOfExpression(span)
            | ParseSingleError::NoPackageMatch(span)
            | ParseSingleError::NoGroupMatch(span)
            | ParseSingleError::NoBinaryIdMatch(span)
            | ParseSingleError::NoBinaryNameMatch(span)
            | ParseSingleError::NoFeatureMatch(span)
            | ParseSingleError::InvalidPlatformArgument(span)
            | ParseSingleError::UnsupportedExpression(span) => *span,
            ParseSingleError::Unknown => SourceSpan { offset: 0, len: 0 },
        }
    }
}

impl fmt::Display for ParseSingleError {
    ghost use Rattle.std.specs.Prelude.{Some};
    ghost use Rattle.nextest_filter_tokens.specs.FaultTexts.{fault_text};

    ghost output = { λ fault. Some (fault_text fault) };

    fn fmt<W: fmt::Write>(&self, f: &mut fmt::Formatter<W>) -> fmt::Result {
        match self {
            ParseSingleError::BannedPredicate { kind, .. } => {
                write!(f, "predicate not allowed in `{kind}` expressions")
            }
            ParseSingleError::ExprFoundBinaryOp { op, .. }
            | ParseSingleError::ExprFoundUnaryOp { op, .. } => {
                write!(f, "expected expression, found `{op}`")
            }
            _ => f.write_str(plain_text(self)),
        }
    }
}

impl error::Error for ParseSingleError {}

/// The text of a fault that names nothing.
fn plain_text(fault: &ParseSingleError) -> &'static str
    ensures { result.now ≡ plain_text fault.now }
{
    match fault {
        ParseSingleError::InvalidRegex { .. } => "invalid regex",
        ParseSingleError::InvalidGlob { .. } => "invalid glob",
        ParseSingleError::BannedPredicate { .. } => "",
        ParseSingleError::InvalidRegexWithoutMessage(_) => "invalid regex",
        ParseSingleError::ExpectedCloseRegex(_) => "expected close regex",
        ParseSingleError::InvalidOrOperator(_) => "invalid OR operator",
        ParseSingleError::InvalidAndOperator(_) => "invalid AND operator",
        ParseSingleError::UnexpectedArgument(_) => "unexpected argument",
        ParseSingleError::UnexpectedComma(_) => "unexpected comma",
        ParseSingleError::InvalidString(_) => "invalid string",
        ParseSingleError::ExpectedOpenParenthesis(_) => "expected open parenthesis",
        ParseSingleError::ExpectedCloseParenthesis(_) => "expected close parenthesis",
        ParseSingleError::InvalidEscapeCharacter(_) => "invalid escape character",
        ParseSingleError::ExpectedExpr(_) => "expected expression",
        ParseSingleError::ExprFoundBinaryOp { .. } => "",
        ParseSingleError::ExprFoundUnaryOp { .. } => "",
        ParseSingleError::ExpectedEndOfExpression(_) => "expected end of expression",
        ParseSingleError::NoPackageMatch(_) => "operator didn't match any packages",
        ParseSingleError::NoGroupMatch(_) => "operator didn't match any test groups",
        ParseSingleError::NoBinaryIdMatch(_) => "operator didn't match any binary IDs",
        ParseSingleError::NoBinaryNameMatch(_) => "operator didn't match any binary names",
        ParseSingleError::NoFeatureMatch(_) => "operator didn't match any features",
        ParseSingleError::InvalidPlatformArgument(_) => "invalid argument for platform",
        ParseSingleError::UnsupportedExpression(_) => "unsupported expression",
        ParseSingleError::Unknown => "unknown parsing error",
    }
}

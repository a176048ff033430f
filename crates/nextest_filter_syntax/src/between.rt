//! What stands between two operands.

ghost use Rattle.std.specs.Prelude.{◌≡◌, ◌≤◌, ◌<◌, true, false, IfOk, IfSome, OnOk, length};
ghost use Rattle.nextest_filter_tokens.specs.Faults.{is_pattern_fault, span_of};
ghost use Rattle.nextest_filter_tokens.specs.Bytes.{skip};
ghost use Rattle.nextest_filter_tokens.specs.FaultLists.{syntax_faults};
ghost use Rattle.nextest_filter_tokens.specs.ReadingSteps.{AreOf, Grows, HasSyntaxFault, KeepsPatterns};
ghost use Rattle.nextest_filter_tokens.specs.Operators.{FoundEndsWithin};
ghost use Rattle.nextest_filter_syntax.specs.Grammar.{found_at};
ghost use Rattle.nextest_filter_syntax.specs.Reading.{is_wrong, place_of};

use nextest_filter_tokens::{
    FaultList, Found, ParseSingleError, SourceSpan, and_operator, or_operator, skip_blanks,
};
use std::alloc::AllocError;

/// What stands in the place of an operator of the level.
fn found_of(text: &str, level: usize, at: usize) -> Found
    requires level { level ≤ 1 }
    ensures value { result ≡ found_at text.now level at }
    ensures end { FoundEndsWithin text.now at result }
{
    if level == 0 {
        return and_operator(text, at);
    }
    or_operator(text, at)
}

/// The fault of an operator of the level that is written wrongly.
fn wrong_operator(level: usize, span: SourceSpan) -> ParseSingleError
    ensures syntax { is_pattern_fault result ≡ false }
    ensures span { span_of result ≡ span }
{
    if level == 0 {
        return ParseSingleError::InvalidAndOperator(span);
    }
    ParseSingleError::InvalidOrOperator(span)
}

/// The place after an operator, if one stands there.
pub(crate) fn place_after(found: Found) -> Option<usize>
    ensures { result ≡ place_of found }
{
    match found {
        Found::Joins(_, place) | Found::Wrong(place) => Some(place),
        Found::Nothing => None,
    }
}

/// What stands after blanks in the place of an operator of the level; one that is written wrongly is
/// a fault.
pub(crate) fn operator_after(
    text: &str,
    level: usize,
    at: usize,
    faults: &mut FaultList,
) -> Result<Found, AllocError>
    requires level { level ≤ 1 }
    requires at { at ≤ length text.now }
    requires faults { AreOf text.now faults.old }
    ensures value { IfOk result (λ f. f ≡ found_at text.now level (skip text.now at)) }
    ensures end { IfOk result (λ f. IfSome (place_of f) (λ j. (at < j) × (j ≤ length text.now))) }
    ensures grows { OnOk result (Grows text.now faults.old faults.new) }
    ensures wrong { IfOk result (λ f. is_wrong f ≡ true → HasSyntaxFault faults.new) }
    ensures keeps { IfOk result (λ f. is_wrong f ≡ false → KeepsPatterns faults.old faults.new) }
    ensures same { IfOk result (λ f. is_wrong f ≡ false
        → syntax_faults faults.new.list.items ≡ syntax_faults faults.old.list.items) }
{
    let place = skip_blanks(text, at);
    match found_of(text, level, place) {
        Found::Wrong(next) => {
            let span = SourceSpan {
                offset: place,
                len: next - place,
            };
            faults.report(wrong_operator(level, span))?;
            Ok(Found::Wrong(next))
        }
        Found::Joins(op, next) => Ok(Found::Joins(op, next)),
        Found::Nothing => Ok(Found::Nothing),
    }
}

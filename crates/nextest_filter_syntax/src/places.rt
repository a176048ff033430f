//! Places of parentheses, commas and ends.

ghost use Rattle.std.specs.Prelude.{◌≡◌, ◌⊎◌, ◌≤◌, ◌<◌, ℕ, false, IfOk, OnOk, length};
ghost use Rattle.std.specs.Str.{IsCharBoundary};
ghost use Rattle.nextest_filter_tokens.specs.Faults.{is_pattern_fault};
ghost use Rattle.nextest_filter_tokens.specs.Bytes.{is_byte, skip};
ghost use Rattle.nextest_filter_tokens.specs.FaultLists.{LiesWithin};
ghost use Rattle.nextest_filter_tokens.specs.ReadingSteps.{AreOf, GoesOn, IsClean, KeepsPatterns};
ghost use Rattle.nextest_filter_syntax.specs.LeafGrammar.{IsUpToClose, Stands};

use nextest_filter_tokens::{FaultList, ParseSingleError, SourceSpan, has_byte, skip_blanks};
use std::alloc::AllocError;

/// The place of the first closing parenthesis from a place on, or else the end.
pub(crate) fn close_place(text: &str, at: usize) -> usize
    requires { at ≤ length text.now }
    ensures up_to { IsUpToClose text.now at result }
    ensures boundary { IsCharBoundary text.now result }
{
    let mut place = at;
    while place < text.len() && !has_byte(text, place, b')') {
        place += 1;
    }
    place
}

/// The place after a byte that stands after blanks; else the fault is reported, and the place stays.
pub fn expect_byte(
    text: &str,
    at: usize,
    byte: u8,
    fault: ParseSingleError,
    faults: &mut FaultList,
) -> Result<usize, AllocError>
    requires at { at ≤ length text.now }
    requires ascii { byte < 128 }
    requires lies { LiesWithin (length text.now) fault }
    requires syntax { is_pattern_fault fault ≡ false }
    requires faults { AreOf text.now faults.old }
    ensures goes_on { IfOk result (λ e. GoesOn text.now at e faults.old faults.new) }
    ensures boundary { IfOk result (λ e. IsCharBoundary text.now at → IsCharBoundary text.now e) }
    ensures place { IfOk result (λ e. (e ≡ at) ⊎ Stands text.now at byte e) }
    ensures keeps { OnOk result (KeepsPatterns faults.old faults.new) }
    ensures read { IfOk result (λ e. IsClean faults.new → Stands text.now at byte e) }
    ensures only { IfOk result (λ e. IsClean faults.old → (j : ℕ) → Stands text.now at byte j
        → (e ≡ j) × IsClean faults.new) }
{
    let place = skip_blanks(text, at);
    if has_byte(text, place, byte) {
        return Ok(place + 1);
    }
    faults.report(fault)?;
    Ok(at)
}

/// The place after what a comma brings: it is a fault, and all up to the closing parenthesis is passed.
fn after_comma(text: &str, at: usize, faults: &mut FaultList) -> Result<usize, AllocError>
    requires at { at ≤ length text.now }
    requires faults { AreOf text.now faults.old }
    ensures goes_on { IfOk result (λ e. GoesOn text.now at e faults.old faults.new) }
    ensures keeps { OnOk result (KeepsPatterns faults.old faults.new) }
    ensures read { IfOk result (λ e. IsClean faults.new → e ≡ at) }
    ensures only { IfOk result (λ e. IsClean faults.old
        → is_byte text.now (skip text.now at) 44 ≡ false → (e ≡ at) × IsClean faults.new) }
{
    let place = skip_blanks(text, at);
    if has_byte(text, place, b',') {
        let span = SourceSpan { offset: at, len: 0 };
        faults.report(ParseSingleError::UnexpectedComma(span))?;
        return Ok(close_place(text, at));
    }
    Ok(at)
}

/// The place after the parenthesis that closes a set.
pub(crate) fn closed_after(
    text: &str,
    at: usize,
    faults: &mut FaultList,
) -> Result<usize, AllocError>
    requires at { at ≤ length text.now }
    requires faults { AreOf text.now faults.old }
    ensures goes_on { IfOk result (λ e. GoesOn text.now at e faults.old faults.new) }
    ensures keeps { OnOk result (KeepsPatterns faults.old faults.new) }
    ensures read { IfOk result (λ e. IsClean faults.new → Stands text.now at 41 e) }
    ensures only { IfOk result (λ e. IsClean faults.old → (j : ℕ) → Stands text.now at 41 j
        → (e ≡ j) × IsClean faults.new) }
{
    let place = after_comma(text, at, faults)?;
    let span = SourceSpan {
        offset: place,
        len: 0,
    };
    let fault = ParseSingleError::ExpectedCloseParenthesis(span);
    let end = expect_byte(text, place, b')', fault, faults)?;
    Ok(end)
}

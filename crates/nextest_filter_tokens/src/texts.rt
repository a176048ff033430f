//! Plain texts, up to a comma or parenthesis.

ghost use Rattle.std.specs.Prelude.{◌≡◌, ◌≤◌, ◌<◌, ℕ, List, true, false, IfOk, IfSome, IfNone, OnOk, length, string_bytes};
ghost use Rattle.std.specs.Str.{IsCharBoundary};
ghost use Rattle.nextest_filter_tokens.specs.ReadingSteps.{AreOf, GoesOn, Grows, HasSyntaxFault};
ghost use Rattle.nextest_filter_tokens.specs.Texts as spec;

use crate::bytes::has_byte;
use crate::escapes::{Escape, escape_after};
use crate::fault_list::FaultList;
use crate::parse_error::ParseSingleError;
use nextest_filter_matchers::SourceSpan;
use std::alloc::{AllocError, Global};

/// Whether no text goes on at the place.
fn is_text_end(text: &str, at: usize) -> bool
    ensures { result ≡ spec.is_text_end text.now at }
{
    let bytes = text.as_bytes();
    at >= bytes.len() || bytes[at] == b')' || bytes[at] == b','
}

/// The place where the bytes that stand for themselves end.
fn plain_end(text: &str, at: usize) -> usize
    requires { at ≤ length text.now }
    ensures rises { at ≤ result }
    ensures end { result ≤ length text.now }
    ensures plain { (k : ℕ) → at ≤ k → k < result → spec.is_plain text.now k ≡ true }
    ensures stops { spec.is_plain text.now result ≡ false }
    ensures boundary { IsCharBoundary text.now at → IsCharBoundary text.now result }
{
    let mut place = at;
    while !is_text_end(text, place) && !has_byte(text, place, b'\\') {
        place += 1;
    }
    place
}

/// The text from a place on, `None` where it is spoiled, and the place where it ends. Each escape that
/// means nothing is a fault, and spoils the text.
pub fn text_from(
    alloc: Global,
    text: &str,
    at: usize,
    faults: &mut FaultList,
) -> Result<(Option<String>, usize), AllocError>
    requires at { at ≤ length text.now }
    requires boundary { IsCharBoundary text.now at }
    requires faults { AreOf text.now faults.old }
    ensures goes_on { IfOk result (λ p. GoesOn text.now at p.1 faults.old faults.new) }
    ensures whole { IfOk result (λ p. IfSome p.0
        (λ v. spec.ReadsText text.now at (string_bytes v) p.1
        × (faults.new.list.items ≡ faults.old.list.items))) }
    ensures spoiled { IfOk result (λ p. IfNone p.0 (HasSyntaxFault faults.new)) }
    ensures unread { IfOk result (λ p. IfNone p.0
        ((xs : List ℕ) (j : ℕ) → spec.ReadsText text.now at xs j → ⊥)) }
{
    let mut value = String::new(alloc);
    let mut is_whole = true;
    let mut place = at;
    loop {
        let end = plain_end(text, place);
        value.push_str(&text[place..end])?;
        if is_text_end(text, end) {
            if is_whole {
                return Ok((Some(value), end));
            }
            return Ok((None, end));
        }
        match escape_after(text, end + 1) {
            Escape::Means(c, next) => {
                value.push(c)?;
                place = next;
            }
            Escape::Invalid => {
                report_escape(text, end, faults)?;
                is_whole = false;
                place = end + 1;
            }
        }
    }
}

/// Reports a backslash that escapes nothing.
fn report_escape(text: &str, at: usize, faults: &mut FaultList) -> Result<(), AllocError>
    requires at { at < length text.now }
    requires faults { AreOf text.now faults.old }
    ensures grows { OnOk result (Grows text.now faults.old faults.new) }
    ensures fault { OnOk result (HasSyntaxFault faults.new) }
{
    let len = (text.len() - at - 1).min(2);
    let span = SourceSpan { offset: at, len };
    faults.report(ParseSingleError::InvalidEscapeCharacter(span))?;
    Ok(())
}

//! Matchers read from their text.

ghost use Rattle.std.specs.Prelude.{◌≡◌, ◌≤◌, ◌<◌, ◌+◌, ◌++◌, ◌∷◌, ℕ, List, [], Some, true, IfOk, IfSome, IfNone, OnOk, length, string_bytes, vec_len};
ghost use Rattle.std.specs.Str.{IsCharBoundary};
ghost use Rattle.nextest_filter_matchers.specs.Matchers.{Matcher, Regex as IsPattern, matcher_of};
ghost use Rattle.regex.specs.Strings.{regex_source};
ghost use Rattle.nextest_filter_tokens.specs.Bytes.{is_byte};
ghost use Rattle.nextest_filter_tokens.specs.FaultLists.{AreOver, AreWithin, BeginsMatcher, IsOverPattern, pattern_spans, syntax_faults};
ghost use Rattle.nextest_filter_tokens.specs.ReadingSteps.{AreOf, GoesOn, GrowsUpTo, IsClean, Spoils, SpoilsSyntax};
ghost use Rattle.nextest_filter_syntax.specs.declared.signs.Style.TheVariants.{Glob as Globs};
ghost use Rattle.nextest_filter_syntax.specs.PatternsAsWritten.{IsAsWritten, IsMatcherAsWritten};
ghost use Rattle.nextest_filter_syntax.specs.LeafGrammar.{PatternFrom, ReadsMatcher, ReadsSome, TextFrom, made_of, matcher_places};

use crate::places::close_place;
use crate::signs::{Sign, Style, default_style, sign_of};
use nextest_filter_matchers::{GenericGlob, GlobConstructError, NameMatcher};
use nextest_filter_tokens::{
    FaultList, ParseSingleError, Predicate, SourceSpan, pattern_from, text_from,
};
use regex::{Error, Regex};
use std::alloc::{AllocError, Global};
use std::rc::Rc;

/// The text from a place on. An empty one is a fault, and stands.
pub(crate) fn some_text(
    alloc: Global,
    text: &str,
    at: usize,
    faults: &mut FaultList,
) -> Result<(Option<String>, usize), AllocError>
    requires at { at ≤ length text.now }
    requires boundary { IsCharBoundary text.now at }
    requires faults { AreOf text.now faults.old }
    ensures goes_on { IfOk result (λ p. GoesOn text.now at p.1 faults.old faults.new) }
    ensures spoils { IfOk result (λ p. SpoilsSyntax p.0 faults.old faults.new) }
    ensures read { IfOk result (λ p. IsClean faults.new
        → IfSome p.0 (λ v. ReadsSome text.now at (string_bytes v) p.1)) }
    ensures only { IfOk result (λ p. IsClean faults.old → (x : List ℕ) (j : ℕ)
        → ReadsSome text.now at x j → (p.1 ≡ j) × IsClean faults.new) }
{
    let (value, end) = text_from(alloc, text, at, faults)?;
    match value {
        Some(value) => {
            if value.is_empty() {
                let span = SourceSpan {
                    offset: end,
                    len: 0,
                };
                faults.report(ParseSingleError::InvalidString(span))?;
                return Ok((Some(value), end));
            }
            Ok((Some(value), end))
        }
        None => Ok((None, end)),
    }
}

/// The matcher of a glob; a text that is none is a fault over the span.
fn glob_matcher(
    alloc: Global,
    implicit: bool,
    value: String,
    span: SourceSpan,
    faults: &mut FaultList,
) -> Result<Option<NameMatcher>, AllocError>
    ensures grows { OnOk result (GrowsUpTo (span.offset + span.len) faults.old faults.new) }
    ensures spoils { IfOk result (λ r. SpoilsSyntax r faults.old faults.new) }
    ensures read { IfOk result (λ r. IfSome r
        (λ m. made_of Globs implicit (string_bytes value) ≡ Some (matcher_of m))) }
    ensures as_written { IfOk result (λ r. IfSome r IsMatcherAsWritten) }
    ensures only { IfOk result (λ r. IsClean faults.old → (m : Matcher)
        → made_of Globs implicit (string_bytes value) ≡ Some m → IsClean faults.new) }
{
    match GenericGlob::new(alloc, value)? {
        Ok(glob) => Ok(Some(NameMatcher::Glob { glob, implicit })),
        Err(error) => {
            let error = GlobConstructError::InvalidGlob(error);
            faults.report(ParseSingleError::InvalidGlob { span, error })?;
            Ok(None)
        }
    }
}

/// The matcher that a text makes.
fn made(
    alloc: Global,
    style: Style,
    implicit: bool,
    value: String,
    span: SourceSpan,
    faults: &mut FaultList,
) -> Result<Option<NameMatcher>, AllocError>
    ensures grows { OnOk result (GrowsUpTo (span.offset + span.len) faults.old faults.new) }
    ensures spoils { IfOk result (λ r. SpoilsSyntax r faults.old faults.new) }
    ensures read { IfOk result (λ r. IfSome r
        (λ m. made_of style implicit (string_bytes value) ≡ Some (matcher_of m))) }
    ensures as_written { IfOk result (λ r. IfSome r IsMatcherAsWritten) }
    ensures only { IfOk result (λ r. IsClean faults.old → (m : Matcher)
        → made_of style implicit (string_bytes value) ≡ Some m → IsClean faults.new) }
{
    match style {
        Style::Equal => Ok(Some(NameMatcher::Equal { value, implicit })),
        Style::Contains => Ok(Some(NameMatcher::Contains { value, implicit })),
        Style::Glob => {
            let matcher = glob_matcher(alloc, implicit, value, span, faults)?;
            Ok(matcher)
        }
    }
}

/// A text and the matcher that it makes.
fn text_matcher(
    alloc: Global,
    text: &str,
    style: Style,
    implicit: bool,
    at: usize,
    faults: &mut FaultList,
) -> Result<(Option<NameMatcher>, usize), AllocError>
    requires at { at ≤ length text.now }
    requires boundary { IsCharBoundary text.now at }
    requires faults { AreOf text.now faults.old }
    ensures goes_on { IfOk result (λ p. GoesOn text.now at p.1 faults.old faults.new) }
    ensures spoils { IfOk result (λ p. SpoilsSyntax p.0 faults.old faults.new) }
    ensures read { IfOk result (λ p. IsClean faults.new
        → IfSome p.0 (λ m. TextFrom text.now style implicit at (matcher_of m) p.1)) }
    ensures as_written { IfOk result (λ p. IfSome p.0 IsMatcherAsWritten) }
    ensures only { IfOk result (λ p. IsClean faults.old → (x : Matcher) (j : ℕ)
        → TextFrom text.now style implicit at x j → (p.1 ≡ j) × IsClean faults.new) }
{
    let (value, end) = some_text(alloc, text, at, faults)?;
    match value {
        Some(value) => {
            let span = SourceSpan {
                offset: at,
                len: end - at,
            };
            let matcher = made(alloc, style, implicit, value, span, faults)?;
            Ok((matcher, end))
        }
        None => Ok((None, end)),
    }
}

/// The regex of a pattern, and none of a pattern that is refused.
fn regex_of(alloc: Global, pattern: &str) -> Result<Option<Regex>, AllocError>
    ensures source { IfOk result (λ r. IfSome r (λ x. regex_source x ≡ pattern.now)) }
    ensures as_written { IfOk result (λ r. IfSome r IsAsWritten) }
{
    match Regex::new(alloc, pattern) {
        Ok(regex) => Ok(Some(regex)),
        Err(Error::OutOfMemory) => Err(AllocError),
        Err(_) => Ok(None),
    }
}

/// The matcher of a pattern; a refused one is a fault over the span.
fn built(
    alloc: Global,
    pattern: &str,
    span: SourceSpan,
    faults: &mut FaultList,
) -> Result<Option<NameMatcher>, AllocError>
    ensures grows { OnOk result (vec_len faults.old.list ≤ vec_len faults.new.list) }
    ensures syntax { OnOk result (syntax_faults faults.new.list.items
        ≡ syntax_faults faults.old.list.items) }
    ensures spoils { IfOk result (λ r. Spoils r faults.old faults.new) }
    ensures within { OnOk result ((n : ℕ) → AreWithin n faults.old.list.items
        → span.offset + span.len ≤ n → AreWithin n faults.new.list.items) }
    ensures over { OnOk result ((text : List ℕ) → AreOver text faults.old.list.items
        → IsOverPattern text span.offset (span.offset + span.len)
        → AreOver text faults.new.list.items) }
    ensures read { IfOk result (λ r. IfSome r (λ m. matcher_of m ≡ IsPattern pattern.now)) }
    ensures refused { IfOk result (λ r. IsClean faults.new
        → IfNone r (pattern_spans faults.new.list.items
        ≡ pattern_spans faults.old.list.items ++ span ∷ [])) }
    ensures as_written { IfOk result (λ r. IfSome r IsMatcherAsWritten) }
{
    match regex_of(alloc, pattern)? {
        Some(regex) => {
            let regex = Rc::new(alloc, regex)?;
            Ok(Some(NameMatcher::Regex(regex)))
        }
        None => {
            faults.report(ParseSingleError::InvalidRegexWithoutMessage(span))?;
            Ok(None)
        }
    }
}

/// A pattern from its slash on, and its matcher.
fn pattern_matcher(
    alloc: Global,
    text: &str,
    at: usize,
    faults: &mut FaultList,
) -> Result<(Option<NameMatcher>, usize), AllocError>
    requires begins { BeginsMatcher text.now at }
    requires slash { is_byte text.now at 47 ≡ true }
    requires at { at + 1 ≤ length text.now }
    requires boundary { IsCharBoundary text.now (at + 1) }
    requires faults { AreOf text.now faults.old }
    ensures goes_on { IfOk result (λ p. GoesOn text.now at p.1 faults.old faults.new) }
    ensures spoils { IfOk result (λ p. Spoils p.0 faults.old faults.new) }
    ensures read { IfOk result (λ p. IsClean faults.new
        → IfSome p.0 (λ m. PatternFrom text.now (at + 1) (matcher_of m) p.1)) }
    ensures unbuilt { IfOk result (λ p. IsClean faults.new
        → IfNone p.0 ((x : Matcher) × PatternFrom text.now (at + 1) x p.1
        × (pattern_spans faults.new.list.items
        ≡ pattern_spans faults.old.list.items ++ matcher_places x at p.1))) }
    ensures as_written { IfOk result (λ p. IfSome p.0 IsMatcherAsWritten) }
    ensures only { IfOk result (λ p. IsClean faults.old → (x : Matcher) (j : ℕ)
        → PatternFrom text.now (at + 1) x j → (p.1 ≡ j) × IsClean faults.new) }
{
    let start = at + 1;
    match pattern_from(alloc, text, start)? {
        Some((pattern, end)) => {
            let span = SourceSpan {
                offset: start,
                len: end - start,
            };
            let matcher = built(alloc, pattern.as_str(), span, faults)?;
            Ok((matcher, end + 1))
        }
        None => {
            let end = close_place(text, start);
            let span = SourceSpan {
                offset: end,
                len: 0,
            };
            faults.report(ParseSingleError::ExpectedCloseRegex(span))?;
            Ok((None, end))
        }
    }
}

/// The matcher of a predicate, by the sign that it begins with.
pub(crate) fn matcher_from(
    alloc: Global,
    text: &str,
    predicate: Predicate,
    at: usize,
    faults: &mut FaultList,
) -> Result<(Option<NameMatcher>, usize), AllocError>
    requires at { at ≤ length text.now }
    requires begins { BeginsMatcher text.now at }
    requires boundary { IsCharBoundary text.now at }
    requires faults { AreOf text.now faults.old }
    ensures goes_on { IfOk result (λ p. GoesOn text.now at p.1 faults.old faults.new) }
    ensures spoils { IfOk result (λ p. Spoils p.0 faults.old faults.new) }
    ensures read { IfOk result (λ p. IsClean faults.new
        → IfSome p.0 (λ m. ReadsMatcher text.now predicate at (matcher_of m) p.1)) }
    ensures unbuilt { IfOk result (λ p. IsClean faults.new
        → IfNone p.0 ((x : Matcher) × ReadsMatcher text.now predicate at x p.1
        × (pattern_spans faults.new.list.items
        ≡ pattern_spans faults.old.list.items ++ matcher_places x at p.1))) }
    ensures as_written { IfOk result (λ p. IfSome p.0 IsMatcherAsWritten) }
    ensures only { IfOk result (λ p. IsClean faults.old → (x : Matcher) (j : ℕ)
        → ReadsMatcher text.now predicate at x j → (p.1 ≡ j) × IsClean faults.new) }
{
    match sign_of(text, at) {
        Sign::Slash => {
            let (matcher, end) = pattern_matcher(alloc, text, at, faults)?;
            Ok((matcher, end))
        }
        Sign::Says(style) => {
            let (matcher, end) = text_matcher(alloc, text, style, false, at + 1, faults)?;
            Ok((matcher, end))
        }
        Sign::Bare => {
            let style = default_style(predicate);
            let (matcher, end) = text_matcher(alloc, text, style, true, at, faults)?;
            Ok((matcher, end))
        }
    }
}

//! Sets of tests, read from their text.

ghost use Rattle.std.specs.Prelude.{◌≡◌, ◌≤◌, ◌<◌, ◌+◌, ◌++◌, ℕ, [], IfOk, IfSome, IfNone, OnOk, length, slice_range};
ghost use Rattle.std.specs.Str.{IsCharBoundary, trim};
ghost use Rattle.nextest_binaries.specs.Platforms.{platform_text};
ghost use Rattle.nextest_binaries.specs.declared.build_platform.BuildPlatform as declared;
ghost use Rattle.nextest_filter_matchers.specs.declared.source_span.SourceSpan as source;
ghost use Rattle.nextest_filter_tokens.specs.FaultLists.{IsOpened, pattern_spans};
ghost use Rattle.nextest_filter_tokens.specs.Heads.{head_at};
ghost use Rattle.nextest_filter_tokens.specs.declared.heads.Head.TheVariants as head;
ghost use Rattle.nextest_filter_tokens.specs.ReadingSteps.{AreOf, GoesOn, Grows, GrowsUpTo, IsClean, KeepsPatterns, Spoils, SpoilsSyntax};
ghost use Rattle.nextest_filter_syntax.specs.PatternsAsWritten.{IsLeafAsWritten};
ghost use Rattle.nextest_filter_syntax.specs.Leaves.{Leaf, leaf_of};
ghost use Rattle.nextest_filter_syntax.specs.LeafGrammar as spec;
ghost use Rattle.nextest_filter_syntax.specs.LeafGrammar.{IsUpToClose, NamedFrom, NullaryFrom, PlatformFrom, leaf_places};

use crate::matchers::{matcher_from, some_text};
use crate::parsed_leaf::{ParsedLeaf, leaf_with};
use crate::places::{close_place, closed_after, expect_byte};
use nextest_filter_tokens::{
    BuildPlatform, FaultList, Nullary, ParseSingleError, Predicate, SourceSpan, skip_blanks,
};
use std::alloc::{AllocError, Global};

/// The leaf of a word that takes nothing.
fn nullary_leaf(word: Nullary, span: SourceSpan) -> ParsedLeaf
    ensures value { leaf_of result ≡ spec.nullary_leaf word span }
    ensures as_written { IsLeafAsWritten result }
{
    match word {
        Nullary::Default => ParsedLeaf::Default(span),
        Nullary::All => ParsedLeaf::All,
        Nullary::None => ParsedLeaf::None,
    }
}

/// The place after the parenthesis that opens a set.
fn opened_after(text: &str, at: usize, faults: &mut FaultList) -> Result<usize, AllocError>
    requires at { at ≤ length text.now }
    requires boundary { IsCharBoundary text.now at }
    requires faults { AreOf text.now faults.old }
    ensures goes_on { IfOk result (λ e. GoesOn text.now at e faults.old faults.new) }
    ensures boundary { IfOk result (λ e. IsCharBoundary text.now e) }
    ensures keeps { OnOk result (KeepsPatterns faults.old faults.new) }
    ensures opened { IfOk result (IsOpened text.now at) }
    ensures read { IfOk result (λ e. IsClean faults.new → spec.Stands text.now at 40 e) }
    ensures only { IfOk result (λ e. IsClean faults.old → (j : ℕ) → spec.Stands text.now at 40 j
        → (e ≡ j) × IsClean faults.new) }
{
    let span = SourceSpan { offset: at, len: 0 };
    let fault = ParseSingleError::ExpectedOpenParenthesis(span);
    let inner = expect_byte(text, at, b'(', fault, faults)?;
    Ok(inner)
}

/// After the name of a predicate, its matcher in parentheses.
pub fn named_set_from(
    alloc: Global,
    text: &str,
    predicate: Predicate,
    at: usize,
    faults: &mut FaultList,
) -> Result<(Option<ParsedLeaf>, usize), AllocError>
    requires named { (start : ℕ) × (head_at text.now start ≡ head.Names predicate at) }
    requires at { at ≤ length text.now }
    requires boundary { IsCharBoundary text.now at }
    requires faults { AreOf text.now faults.old }
    ensures goes_on { IfOk result (λ p. GoesOn text.now at p.1 faults.old faults.new) }
    ensures spoils { IfOk result (λ p. Spoils p.0 faults.old faults.new) }
    ensures read { IfOk result (λ p. IsClean faults.new
        → IfSome p.0 (λ l. NamedFrom text.now predicate at (leaf_of l) p.1)) }
    ensures unbuilt { IfOk result (λ p. IsClean faults.new
        → IfNone p.0 ((x : Leaf source.SourceSpan) × NamedFrom text.now predicate at x p.1
        × (pattern_spans faults.new.list.items
        ≡ pattern_spans faults.old.list.items ++ leaf_places text.now x))) }
    ensures as_written { IfOk result (λ p. IfSome p.0 IsLeafAsWritten) }
    ensures only { IfOk result (λ p. IsClean faults.old → (x : Leaf source.SourceSpan) (j : ℕ)
        → NamedFrom text.now predicate at x j → (p.1 ≡ j) × IsClean faults.new) }
{
    let inner = opened_after(text, at, faults)?;
    let start = skip_blanks(text, inner);
    let (matcher, end) = matcher_from(alloc, text, predicate, start, faults)?;
    let after = closed_after(text, end, faults)?;
    match matcher {
        Some(matcher) => {
            let span = SourceSpan {
                offset: inner,
                len: end - inner,
            };
            let leaf = leaf_with(predicate, matcher, span);
            Ok((Some(leaf), after))
        }
        None => Ok((None, after)),
    }
}

/// The platform that a text names, trimmed of white space.
fn platform_named(name: &str) -> Option<BuildPlatform>
    ensures read { IfSome result (λ p. trim name.now ≡ platform_text p) }
    ensures unread { IfNone result ((p : declared.BuildPlatform) → trim name.now ≡ platform_text p
        → ⊥) }
{
    match name.trim() {
        "host" => Some(BuildPlatform::Host),
        "target" => Some(BuildPlatform::Target),
        _ => None,
    }
}

/// The platform that a text names; a text that names none is a fault over the span.
fn platform_of(
    name: &str,
    span: SourceSpan,
    faults: &mut FaultList,
) -> Result<Option<BuildPlatform>, AllocError>
    ensures grows { OnOk result (GrowsUpTo (span.offset + span.len) faults.old faults.new) }
    ensures spoils { IfOk result (λ r. SpoilsSyntax r faults.old faults.new) }
    ensures read { IfOk result (λ r. IfSome r (λ p. trim name.now ≡ platform_text p)) }
    ensures only { IfOk result (λ r. IsClean faults.old → (p : declared.BuildPlatform)
        → trim name.now ≡ platform_text p → IsClean faults.new) }
{
    match platform_named(name) {
        Some(platform) => Ok(Some(platform)),
        None => {
            faults.report(ParseSingleError::InvalidPlatformArgument(span))?;
            Ok(None)
        }
    }
}

/// After `platform`, the text that names one in parentheses.
pub fn platform_set_from(
    alloc: Global,
    text: &str,
    at: usize,
    faults: &mut FaultList,
) -> Result<(Option<ParsedLeaf>, usize), AllocError>
    requires at { at ≤ length text.now }
    requires boundary { IsCharBoundary text.now at }
    requires faults { AreOf text.now faults.old }
    ensures goes_on { IfOk result (λ p. GoesOn text.now at p.1 faults.old faults.new) }
    ensures spoils { IfOk result (λ p. SpoilsSyntax p.0 faults.old faults.new) }
    ensures read { IfOk result (λ p. IsClean faults.new
        → IfSome p.0 (λ l. PlatformFrom text.now at (leaf_of l) p.1)) }
    ensures as_written { IfOk result (λ p. IfSome p.0 IsLeafAsWritten) }
    ensures only { IfOk result (λ p. IsClean faults.old → (x : Leaf source.SourceSpan) (j : ℕ)
        → PlatformFrom text.now at x j → (p.1 ≡ j) × IsClean faults.new) }
{
    let inner = opened_after(text, at, faults)?;
    let start = skip_blanks(text, inner);
    let (name, end) = some_text(alloc, text, start, faults)?;
    let after = closed_after(text, end, faults)?;
    let span = SourceSpan {
        offset: inner,
        len: end - inner,
    };
    let Some(name) = name else {
        return Ok((None, after));
    };
    match platform_of(name.as_str(), span, faults)? {
        Some(platform) => Ok((Some(ParsedLeaf::Platform(platform, span)), after)),
        None => Ok((None, after)),
    }
}

/// The place of the parenthesis that closes an empty one; anything before it but white space is a fault.
fn white_after(text: &str, at: usize, faults: &mut FaultList) -> Result<usize, AllocError>
    requires at { at ≤ length text.now }
    requires boundary { IsCharBoundary text.now at }
    requires faults { AreOf text.now faults.old }
    ensures up_to { IfOk result (λ e. IsUpToClose text.now at e) }
    ensures grows { OnOk result (Grows text.now faults.old faults.new) }
    ensures keeps { OnOk result (KeepsPatterns faults.old faults.new) }
    ensures read { IfOk result (λ e. IsClean faults.new → trim (slice_range text.now at e) ≡ []) }
    ensures only { IfOk result (λ e. IsClean faults.old → trim (slice_range text.now at e) ≡ []
        → IsClean faults.new) }
{
    let end = close_place(text, at);
    let argument = &text[at..end];
    if argument.trim().is_empty() {
        return Ok(end);
    }
    let span = SourceSpan {
        offset: at,
        len: end - at,
    };
    faults.report(ParseSingleError::UnexpectedArgument(span))?;
    Ok(end)
}

/// After a word that begins at the start, parentheses with nothing in them.
pub fn nullary_set_from(
    text: &str,
    word: Nullary,
    start: usize,
    at: usize,
    faults: &mut FaultList,
) -> Result<(ParsedLeaf, usize), AllocError>
    requires start { start ≤ at }
    requires at { at ≤ length text.now }
    requires boundary { IsCharBoundary text.now at }
    requires faults { AreOf text.now faults.old }
    ensures goes_on { IfOk result (λ p. GoesOn text.now at p.1 faults.old faults.new) }
    ensures keeps { OnOk result (KeepsPatterns faults.old faults.new) }
    ensures as_written { IfOk result (λ p. IsLeafAsWritten p.0) }
    ensures read { IfOk result (λ p. IsClean faults.new
        → NullaryFrom text.now word start at (leaf_of p.0) p.1) }
    ensures only { IfOk result (λ p. IsClean faults.old → (x : Leaf source.SourceSpan) (j : ℕ)
        → NullaryFrom text.now word start at x j → (p.1 ≡ j) × IsClean faults.new) }
{
    let inner = opened_after(text, at, faults)?;
    let end = white_after(text, inner, faults)?;
    let span = SourceSpan {
        offset: end,
        len: 0,
    };
    let fault = ParseSingleError::ExpectedCloseParenthesis(span);
    let after = expect_byte(text, end, b')', fault, faults)?;
    let span = SourceSpan {
        offset: start,
        len: after - start,
    };
    Ok((nullary_leaf(word, span), after))
}

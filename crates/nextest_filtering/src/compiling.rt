//! Filters with their names of packages looked up.

ghost use Rattle.std.specs.Prelude.{◌≡◌, ◌++◌, ◌∷◌, [], Bool, true, IfOk, Ok, OnOk, if◌then◌else◌, map};
ghost use Rattle.nextest_filter_tokens.specs.declared.parse_error.ParseSingleError.TheVariants.{NoFeatureMatch, NoPackageMatch};
ghost use Rattle.nextest_filter_evaluation.specs.NameTests.{SuitsOneOf, name_test};
ghost use Rattle.nextest_filter_evaluation.specs.Groups.{AreKnown};
ghost use Rattle.nextest_filter_evaluation.specs.Formulas as formula;
ghost use Rattle.nextest_filter_evaluation.specs.Formulas.{has_leaf};
ghost use Rattle.nextest_filter_evaluation.specs.Compiled.{compiled_of, leaf_of};
ghost use Rattle.nextest_filtering.specs.Acceptance.{AreUnmatched, names_group};
ghost use Rattle.nextest_filtering.specs.Compiling.{AddsReversed, AddsUnmatched, ArePackages, IsCompiled, IsCompiledLeaf, IsPicked};
ghost use Rattle.nextest_filtering.specs.ContextViews.{AddsUnless};
ghost use Rattle.nextest_filtering.specs.Filters.{filter_leaf, filter_of};
ghost use Rattle.nextest_filtering.specs.Meaning.{IsFeatured};

use crate::matching::id_set;
use crate::parse_context::ParseContext;
use guppy_package_graph::DependencyDirection;
use nextest_filter_evaluation::{CompiledExpr, FiltersetLeaf, KnownGroups};
use nextest_filter_syntax::{NameMatcher, ParseSingleError, ParsedExpr, ParsedLeaf, SourceSpan};
use std::alloc::{AllocError, Global};

/// The compiled filter, and a fault for each leaf that matches nothing, from left to right.
pub(crate) fn compiled_with_faults(
    alloc: Global,
    expr: &ParsedExpr,
    cx: &ParseContext<'_>,
    groups: &KnownGroups,
) -> Result<(CompiledExpr, Vec<ParseSingleError>), AllocError>
    requires groups { has_leaf names_group (filter_of expr.now) ≡ true → AreKnown groups.now }
    ensures compiled { IfOk result (λ r. IsCompiled cx.now (filter_of expr.now) (compiled_of r.0)) }
    ensures faults { IfOk result (λ r. AreUnmatched cx.now groups.now (filter_of expr.now)
        r.1.items) }
{
    let mut errors = Vec::new(alloc);
    let compiled = compile_expr(alloc, expr, cx, groups, &mut errors)?;
    errors.reverse();
    Ok((compiled, errors))
}

/// The compiled filter, made by a loop along the left side. Adds the faults from right to left.
fn compile_expr(
    alloc: Global,
    expr: &ParsedExpr,
    cx: &ParseContext<'_>,
    groups: &KnownGroups,
    errors: &mut Vec<ParseSingleError>,
) -> Result<CompiledExpr, AllocError>
    requires groups { has_leaf names_group (filter_of expr.now) ≡ true → AreKnown groups.now }
    ensures compiled { IfOk result (λ c. IsCompiled cx.now (filter_of expr.now) (compiled_of c)) }
    ensures faults { OnOk result (AddsReversed cx.now groups.now (filter_of expr.now)
        errors.old.items errors.new.items) }
{
    let mut above = CompiledExpr::Set(FiltersetLeaf::None);
    let mut rest = expr;
    loop {
        match rest {
            ParsedExpr::Not(_, x) => {
                above = CompiledExpr::Not(Box::new(alloc, above)?);
                rest = x;
            }
            ParsedExpr::Parens(x) => rest = x,
            ParsedExpr::Union(_, x, y) => {
                let y = Box::new(alloc, compile_expr(alloc, y, cx, groups, errors)?)?;
                above = CompiledExpr::Union(Box::new(alloc, above)?, y);
                rest = x;
            }
            ParsedExpr::Intersection(_, x, y) => {
                let y = Box::new(alloc, compile_expr(alloc, y, cx, groups, errors)?)?;
                above = CompiledExpr::Intersection(Box::new(alloc, above)?, y);
                rest = x;
            }
            ParsedExpr::Difference(_, x, y) => {
                let y = Box::new(alloc, compile_expr(alloc, y, cx, groups, errors)?)?;
                let y = Box::new(alloc, CompiledExpr::Not(y))?;
                above = CompiledExpr::Intersection(Box::new(alloc, above)?, y);
                rest = x;
            }
            ParsedExpr::Set(leaf) => {
                let leaf = compile_leaf(alloc, leaf, cx, groups, errors)?;
                return Ok(above.turned_over(CompiledExpr::Set(leaf)));
            }
        }
    }
}

#[inline(never)]
fn compile_leaf(
    alloc: Global,
    leaf: &ParsedLeaf,
    cx: &ParseContext<'_>,
    groups: &KnownGroups,
    errors: &mut Vec<ParseSingleError>,
) -> Result<FiltersetLeaf, AllocError>
    requires groups { names_group (filter_leaf leaf.now) ≡ true → AreKnown groups.now }
    ensures compiled { IfOk result (λ l. IsCompiledLeaf cx.now (filter_leaf leaf.now) (leaf_of l)) }
    ensures faults { OnOk result (AddsUnmatched cx.now groups.now
        (formula.leaf (filter_leaf leaf.now)) errors.old.items errors.new.items) }
{
    match leaf {
        ParsedLeaf::Package(matcher, span) => {
            packages_of(alloc, matcher, *span, cx, None, errors)
        }
        ParsedLeaf::Deps(matcher, span) => {
            let direction = Some(DependencyDirection::Forward);
            packages_of(alloc, matcher, *span, cx, direction, errors)
        }
        ParsedLeaf::Rdeps(matcher, span) => {
            let direction = Some(DependencyDirection::Reverse);
            packages_of(alloc, matcher, *span, cx, direction, errors)
        }
        ParsedLeaf::Kind(matcher, span) => {
            let matcher = matcher.copy(alloc)?;
            Ok(FiltersetLeaf::Kind(matcher, *span))
        }
        ParsedLeaf::Binary(matcher, span) => {
            let is_some = cx.has_binary_name(alloc, matcher);
            let fault = ParseSingleError::NoBinaryNameMatch(*span);
            let matcher = expected_matcher(alloc, matcher, is_some, fault, errors)?;
            Ok(FiltersetLeaf::Binary(matcher, *span))
        }
        ParsedLeaf::BinaryId(matcher, span) => {
            let is_some = cx.has_binary_id(alloc, matcher);
            let fault = ParseSingleError::NoBinaryIdMatch(*span);
            let matcher = expected_matcher(alloc, matcher, is_some, fault, errors)?;
            Ok(FiltersetLeaf::BinaryId(matcher, *span))
        }
        ParsedLeaf::Platform(platform, span) => Ok(FiltersetLeaf::Platform(*platform, *span)),
        ParsedLeaf::Test(matcher, span) => {
            let matcher = matcher.copy(alloc)?;
            Ok(FiltersetLeaf::Test(matcher, *span))
        }
        ParsedLeaf::Group(matcher, span) => {
            let is_some = groups.matches(alloc, matcher);
            let fault = ParseSingleError::NoGroupMatch(*span);
            let matcher = expected_matcher(alloc, matcher, is_some, fault, errors)?;
            Ok(FiltersetLeaf::Group(matcher, *span))
        }
        ParsedLeaf::Feature(matcher, span) => featured_of(alloc, matcher, *span, cx, errors),
        ParsedLeaf::Default(_) => Ok(FiltersetLeaf::Default),
        ParsedLeaf::All => Ok(FiltersetLeaf::All),
        ParsedLeaf::None => Ok(FiltersetLeaf::None),
    }
}

/// An equal matcher. Adds the fault, unless something was found.
fn expected_matcher(
    alloc: Global,
    matcher: &NameMatcher,
    is_some: Result<bool, AllocError>,
    fault: ParseSingleError,
    errors: &mut Vec<ParseSingleError>,
) -> Result<NameMatcher, AllocError>
    ensures same { IfOk result (λ m. name_test m ≡ name_test matcher.now) }
    ensures faults { OnOk result ((b : Bool) × (is_some ≡ Ok b)
        × (errors.new.items ≡ errors.old.items ++ (if b then [] else fault ∷ []))) }
{
    expect(is_some?, fault, errors)?;
    matcher.copy(alloc)
}

/// Adds the fault, unless something was found.
fn expect(
    is_some: bool,
    fault: ParseSingleError,
    errors: &mut Vec<ParseSingleError>,
) -> Result<(), AllocError>
    ensures { OnOk result (errors.new.items
        ≡ errors.old.items ++ (if is_some then [] else fault ∷ [])) }
{
    if !is_some {
        errors.push(fault)?;
    }
    Ok(())
}

/// The packages with a feature that is on and matches. Adds a fault where no feature of a package
/// matches, on or off.
fn featured_of(
    alloc: Global,
    matcher: &NameMatcher,
    span: SourceSpan,
    cx: &ParseContext<'_>,
    errors: &mut Vec<ParseSingleError>,
) -> Result<FiltersetLeaf, AllocError>
    ensures packages { IfOk result (λ l. ArePackages (IsFeatured cx.now (name_test matcher.now))
        (leaf_of l)) }
    ensures faults { OnOk result (AddsUnless (SuitsOneOf (name_test matcher.now) cx.now.features)
        (NoFeatureMatch span ∷ []) errors.old.items errors.new.items) }
{
    let is_some = cx.has_feature(alloc, matcher)?;
    expect(is_some, ParseSingleError::NoFeatureMatch(span), errors)?;
    let featured = cx.featured(alloc, matcher)?;
    let ids = id_set(alloc, &featured)?;
    Ok(FiltersetLeaf::Packages(ids))
}

/// The packages that match, or all that paths join with them in the direction. Adds a fault where none
/// matches.
fn packages_of(
    alloc: Global,
    matcher: &NameMatcher,
    span: SourceSpan,
    cx: &ParseContext<'_>,
    direction: Option<DependencyDirection>,
    errors: &mut Vec<ParseSingleError>,
) -> Result<FiltersetLeaf, AllocError>
    ensures packages { IfOk result (λ l. ArePackages
        (IsPicked cx.now (name_test matcher.now) direction) (leaf_of l)) }
    ensures faults { OnOk result (AddsUnless
        (SuitsOneOf (name_test matcher.now) (map (λ p. p.1) cx.now.packages))
        (NoPackageMatch span ∷ []) errors.old.items errors.new.items) }
{
    let matched = cx.matched(alloc, matcher)?;
    let is_some = !matched.is_empty();
    expect(is_some, ParseSingleError::NoPackageMatch(span), errors)?;
    match direction {
        None => {
            let ids = id_set(alloc, &matched)?;
            Ok(FiltersetLeaf::Packages(ids))
        }
        Some(direction) => {
            let reached = cx.reached(alloc, &matched, direction)?;
            let ids = id_set(alloc, &reached)?;
            Ok(FiltersetLeaf::Packages(ids))
        }
    }
}

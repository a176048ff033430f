//! Predicates that may not stand in some filters.

ghost use Rattle.std.specs.Prelude.{◌≡◌, ◌++◌, IfOk, OnOk, reverse};
ghost use Rattle.nextest_filter_tokens.specs.declared.parse_error.ParseSingleError.TheVariants as fault;
ghost use Rattle.nextest_filtering.specs.Acceptance as spec;
ghost use Rattle.nextest_filtering.specs.ContextViews.{list_of};
ghost use Rattle.nextest_filtering.specs.Filters.{filter_leaf, filter_of};

use nextest_filter_syntax::{
    BannedPredicateReason, FiltersetKind, ParseSingleError, ParsedExpr, ParsedLeaf, SourceSpan,
};
use std::alloc::{AllocError, Global};

/// A fault for each banned predicate, from left to right.
pub(crate) fn bans_of(
    alloc: Global,
    expr: &ParsedExpr,
    kind: FiltersetKind,
) -> Result<Vec<ParseSingleError>, AllocError>
    ensures { IfOk result (λ v. v.items ≡ spec.bans kind (filter_of expr.now)) }
{
    let mut errors = Vec::new(alloc);
    push_bans(expr, kind, &mut errors)?;
    errors.reverse();
    Ok(errors)
}

/// Adds them from right to left, by a loop along the left side.
fn push_bans(
    expr: &ParsedExpr,
    kind: FiltersetKind,
    errors: &mut Vec<ParseSingleError>,
) -> Result<(), AllocError>
    ensures { OnOk result (errors.new.items
        ≡ errors.old.items ++ reverse (spec.bans kind (filter_of expr.now))) }
{
    let mut rest = expr;
    loop {
        match rest {
            ParsedExpr::Not(_, x) | ParsedExpr::Parens(x) => rest = x,
            ParsedExpr::Union(_, x, y) => {
                push_bans(y, kind, errors)?;
                rest = x;
            }
            ParsedExpr::Intersection(_, x, y) | ParsedExpr::Difference(_, x, y) => {
                push_bans(y, kind, errors)?;
                rest = x;
            }
            ParsedExpr::Set(leaf) => return push_some(ban_of(leaf, kind), errors),
        }
    }
}

fn push_some(
    fault: Option<ParseSingleError>,
    errors: &mut Vec<ParseSingleError>,
) -> Result<(), AllocError>
    ensures { OnOk result (errors.new.items ≡ errors.old.items ++ list_of fault) }
{
    if let Some(fault) = fault {
        errors.push(fault)?;
    }
    Ok(())
}

/// The fault of a leaf that is banned in a filter of this kind.
fn ban_of(leaf: &ParsedLeaf, kind: FiltersetKind) -> Option<ParseSingleError>
    ensures { list_of result ≡ spec.ban_of kind (filter_leaf leaf.now) }
{
    match (kind, leaf) {
        (FiltersetKind::TestArchive, ParsedLeaf::Test(_, span)) => {
            Some(banned(
                kind,
                *span,
                BannedPredicateReason::TestNotAvailableInArchive,
            ))
        }
        (FiltersetKind::TestArchive, ParsedLeaf::Group(_, span)) => {
            Some(banned(
                kind,
                *span,
                BannedPredicateReason::GroupNotAvailableInArchive,
            ))
        }
        (FiltersetKind::OverrideFilter, ParsedLeaf::Group(_, span)) => {
            Some(banned(kind, *span, BannedPredicateReason::GroupCircularDependency))
        }
        (FiltersetKind::DefaultFilter, ParsedLeaf::Group(_, span)) => {
            Some(banned(
                kind,
                *span,
                BannedPredicateReason::GroupNotAvailableInDefaultFilter,
            ))
        }
        (FiltersetKind::DefaultFilter, ParsedLeaf::Default(span)) => {
            Some(banned(kind, *span, BannedPredicateReason::DefaultInfiniteRecursion))
        }
        _ => None,
    }
}

fn banned(kind: FiltersetKind, span: SourceSpan, reason: BannedPredicateReason) -> ParseSingleError
    ensures { result ≡ fault.BannedPredicate kind span reason }
{
    ParseSingleError::BannedPredicate { kind, span, reason }
}

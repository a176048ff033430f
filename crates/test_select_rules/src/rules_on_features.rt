//! The rules on the features of a package.

ghost use Rattle.std.specs.Prelude.{◌≡◌, IfOk, map, not, position, string_bytes};
ghost use Rattle.std.specs.List.{list_all};
ghost use Rattle.guppy_package_rules.specs.Found.{finds};
ghost use Rattle.test_select_rules.specs.RecordRules.{has_distinct_features, has_required_features};

use guppy_package_rules::distinct::{first_repeated_text, is_distinct};
use guppy_package_rules::text_sets::text_set;
use indexmap::IndexSet;
use std::alloc::{AllocError, Global};
use workspace_record::{FeatureRecord, PackageRecord, TargetRecord};

/// The first package with a repeated feature name or a repeated optional name.
pub(crate) fn first_repeated_feature(
    alloc: Global,
    packages: &[PackageRecord],
) -> Result<Option<usize>, AllocError>
    ensures { IfOk result (λ place. place
        ≡ position (λ p. not (has_distinct_features p)) packages.now) }
{
    for (place, row) in packages.iter().enumerate() {
        if !has_distinct_features(alloc, row)? {
            return Ok(Some(place));
        }
    }
    Ok(None)
}

fn has_distinct_features(alloc: Global, row: &PackageRecord) -> Result<bool, AllocError>
    ensures { IfOk result (λ answer. answer ≡ has_distinct_features row.now) }
{
    let names = feature_names(alloc, &row.features)?;
    if first_repeated_text(alloc, &names)?.is_some() {
        return Ok(false);
    }
    is_distinct(alloc, &row.optional)
}

fn feature_names<'a>(
    alloc: Global,
    features: &'a [FeatureRecord],
) -> Result<Vec<&'a str>, AllocError>
    ensures { IfOk result (λ v. map (λ t. t.now) v.items ≡ map (λ f. f.name) features.entry.now) }
{
    features
        .iter()
        .map(|feature| feature.name.as_str())
        .collect(alloc)
}

/// The first package with a target that requires a feature which the package lacks.
pub(crate) fn first_lacking_package(
    alloc: Global,
    packages: &[PackageRecord],
) -> Result<Option<usize>, AllocError>
    ensures { IfOk result (λ place. place
        ≡ position (λ p. not (has_required_features p)) packages.now) }
{
    for (place, row) in packages.iter().enumerate() {
        if !has_required_features(alloc, row)? {
            return Ok(Some(place));
        }
    }
    Ok(None)
}

fn has_required_features(alloc: Global, row: &PackageRecord) -> Result<bool, AllocError>
    ensures { IfOk result (λ answer. answer ≡ has_required_features row.now) }
{
    let names = feature_names(alloc, &row.features)?;
    let own = text_set(alloc, &names)?;
    Ok(require_only(&row.targets, &own))
}

fn require_only(targets: &[TargetRecord], own: &IndexSet<&str>) -> bool
    ensures { result ≡ list_all (λ t. list_all (finds own.now) t.required_features) targets.now }
{
    targets
        .iter()
        .all(|target| are_among(own, &target.required_features))
}

fn are_among(own: &IndexSet<&str>, names: &[String]) -> bool
    ensures { result ≡ list_all (finds own.now) (map string_bytes names.now) }
{
    names.iter().all(|name| own.contains(name.as_str()))
}

//! The packages of the record.

ghost use Rattle.std.specs.Prelude.{◌≡◌, Contains, IfNone, IfOk, IfSome, false, filter, map, string_bytes, true};
ghost use Rattle.std.specs.List.{list_all};
ghost use Rattle.cargo_record.specs.Kept as spec;

use cargo_metadata::DeclaringPackage;
use std::alloc::{AllocError, Global};
use workspace_record::{FeatureRecord, PackageRecord, TargetRecord};

/// The packages, in order, each with just those targets whose required features are all of its own.
pub(crate) fn kept_rows(
    alloc: Global,
    packages: &[DeclaringPackage],
) -> Result<Vec<PackageRecord>, AllocError>
    ensures { IfOk result (λ v. v.items ≡ map spec.kept_row packages.now) }
{
    let mut rows = Vec::with_capacity(alloc, packages.len())?;
    for package in packages {
        let targets = own_targets(alloc, &package.row.features, &package.row.targets)?;
        let row = package.row.copy(alloc)?;
        rows.push(PackageRecord { targets, ..row })?;
    }
    Ok(rows)
}

fn own_targets(
    alloc: Global,
    features: &[FeatureRecord],
    targets: &[TargetRecord],
) -> Result<Vec<TargetRecord>, AllocError>
    ensures { IfOk result (λ v. v.items ≡ filter (spec.requires_own features.now) targets.now) }
{
    let mut own = Vec::new(alloc);
    for target in targets {
        if requires_own(features, target) {
            own.push(target.copy(alloc)?)?;
        }
    }
    Ok(own)
}

/// Whether each required feature of a target is one of these.
pub(crate) fn requires_own(features: &[FeatureRecord], target: &TargetRecord) -> bool
    ensures { result ≡ spec.requires_own features.now target.now }
{
    target
        .required_features
        .iter()
        .all(|name| is_feature(features, name.as_str()))
}

/// The first of these features that a target requires which is none of the package's.
pub(crate) fn foreign_feature<'a>(
    features: &[FeatureRecord],
    required: &'a [String],
) -> Option<&'a str>
    ensures none { IfNone result (list_all (spec.is_feature features.now)
        (map string_bytes required.entry.now) ≡ true) }
    ensures some { IfSome result (λ name. Contains (map string_bytes required.entry.now) name.now
        × (spec.is_feature features.now name.now ≡ false)) }
{
    for name in required {
        if !is_feature(features, name.as_str()) {
            return Some(name.as_str());
        }
    }
    None
}

fn is_feature(features: &[FeatureRecord], name: &str) -> bool
    ensures { result ≡ spec.is_feature features.now name.now }
{
    features.iter().any(|feature| feature.name.as_str() == name)
}

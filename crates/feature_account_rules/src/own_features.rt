//! The features that packages have, and those that a choice switches on by itself.

ghost use Rattle.std.specs.Prelude.{◌≡◌, ◌++◌, OnOk, IfOk, map, string_bytes};
ghost use Rattle.std.specs.List.{flat_map};
ghost use Rattle.feature_account_rules.specs.RuleList.{dep_of, own_features, standard_features, member_features, chosen_features};

use crate::feature_ref::{FeatureRef, copies_of};
use std::alloc::{AllocError, Global};
use workspace_record::{
    Feature, FeatureChoice, PackageIndex, PackageRecord, RecordIndex, Standard, WorkspaceRecord,
};

/// The feature that Cargo switches on by default.
pub(crate) const DEFAULT: &str = "default";

pub(crate) fn own_features<'a>(
    alloc: Global,
    row: &'a PackageRecord,
) -> Result<Vec<FeatureRef<'a>>, AllocError>
    ensures { IfOk result (λ v. v.items ≡ own_features row.entry.now) }
{
    let mut features = Vec::new(alloc);
    push_own_features(row, &mut features)?;
    Ok(features)
}

fn push_own_features<'a>(
    row: &'a PackageRecord,
    features: &mut Vec<FeatureRef<'a>>,
) -> Result<(), AllocError>
    ensures { OnOk result (features.new.items ≡ features.old.items ++ own_features row.entry.now) }
{
    for feature in &row.features {
        features.push(FeatureRef::named(row.id.as_str(), feature.name.as_str()))?;
    }
    push_dependencies(row.id.as_str(), &row.optional, features)?;
    Ok(())
}

fn push_dependencies<'a>(
    id: &'a str,
    names: &'a [String],
    features: &mut Vec<FeatureRef<'a>>,
) -> Result<(), AllocError>
    ensures { OnOk result (features.new.items
        ≡ features.old.items ++ map (dep_of id.entry.now) (map string_bytes names.entry.now)) }
{
    for name in names {
        features.push(FeatureRef::dep(id, name.as_str()))?;
    }
    Ok(())
}

fn push_standard<'a>(
    standard: Standard,
    owner: &PackageIndex<'a>,
    features: &mut Vec<FeatureRef<'a>>,
) -> Result<(), AllocError>
    ensures { OnOk result (features.new.items
        ≡ features.old.items ++ standard_features standard owner.now) }
{
    match standard {
        Standard::None => Ok(()),
        Standard::Default => {
            if owner.has_feature(DEFAULT) {
                let row = owner.row();
                features.push(FeatureRef::named(row.id.as_str(), DEFAULT))?;
            }
            Ok(())
        }
        Standard::All => push_own_features(owner.row(), features),
    }
}

fn push_member_features<'a>(
    index: &RecordIndex<'_>,
    standard: Standard,
    owner: &PackageIndex<'a>,
    features: &mut Vec<FeatureRef<'a>>,
) -> Result<(), AllocError>
    ensures { OnOk result (features.new.items
        ≡ features.old.items ++ member_features index.now standard owner.now) }
{
    let row = owner.row();
    if index.is_member(row.id.as_str()) {
        features.push(FeatureRef::base(row.id.as_str()))?;
        push_standard(standard, owner, features)?;
    }
    Ok(())
}

fn push_members_features<'a>(
    index: &RecordIndex<'_>,
    standard: Standard,
    packages: &[PackageIndex<'a>],
    features: &mut Vec<FeatureRef<'a>>,
) -> Result<(), AllocError>
    ensures { OnOk result (features.new.items
        ≡ features.old.items ++ flat_map (member_features index.now standard) packages.now) }
{
    for owner in packages {
        push_member_features(index, standard, owner, features)?;
    }
    Ok(())
}

fn push_extras<'a>(
    extras: &'a [Feature],
    features: &mut Vec<FeatureRef<'a>>,
) -> Result<(), AllocError>
    ensures { OnOk result (features.new.items ≡ features.old.items ++ extras.entry.now) }
{
    for extra in extras {
        features.push(FeatureRef::of(extra))?;
    }
    Ok(())
}

/// What the choice switches on by itself: of each member of the workspace its package and the features
/// of the standard choice, and then the extras.
pub fn chosen_features(
    alloc: Global,
    record: &WorkspaceRecord,
    choice: &FeatureChoice,
) -> Result<Vec<Feature>, AllocError>
    ensures chosen { IfOk result (λ v. v.items ≡ chosen_features record.now choice.now) }
{
    let index = RecordIndex::of(alloc, record)?;
    let chosen = chosen_by(alloc, &index, choice)?;
    copies_of(alloc, &chosen)
}

/// The same, where the record is found by its index.
pub(crate) fn chosen_by<'a>(
    alloc: Global,
    index: &RecordIndex<'a>,
    choice: &'a FeatureChoice,
) -> Result<Vec<FeatureRef<'a>>, AllocError>
    ensures { IfOk result (λ v. v.items ≡ chosen_features index.now choice.entry.now) }
{
    let mut features = Vec::new(alloc);
    push_members_features(index, choice.standard, index.packages(), &mut features)?;
    push_extras(&choice.extras, &mut features)?;
    Ok(features)
}

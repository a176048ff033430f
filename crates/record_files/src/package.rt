//! Packages read from a record's file.

ghost use Rattle.std.specs.Prelude.{◌≡◌};
ghost use Rattle.record_files.specs.Trees.{seen};
ghost use Rattle.record_files.specs.Outcomes.{Gives};
ghost use Rattle.record_files.specs.Packages.{contents_of};

use crate::details::details_of;
use crate::error::ReadError;
use crate::key::Key;
use crate::object::{FromValue, each_of, objects_or_none, text_at, texts_at};
use json::Value;
use std::alloc::Global;
use workspace_record::{FeatureRecord, PackageRecord, TargetRecord};

impl FromValue for PackageRecord {
    ghost use Rattle.record_files.specs.Packages.{package_of};

    ghost read = { package_of };

    #[tactic(auto, unfolding(crate::specs::Packages::package_of))]
    fn from_value(alloc: Global, value: &Value<'_>) -> Result<PackageRecord, ReadError> {
        let id = text_at(alloc, value, Key::Id)?;
        let name = text_at(alloc, value, Key::Name)?;
        let version = text_at(alloc, value, Key::Version)?;
        let optional = texts_at(alloc, value, Key::Optional)?;
        let info = details_of(alloc, value)?;
        contents_of(alloc, value).map(|contents| PackageRecord {
            id,
            name,
            version,
            features: contents.0,
            optional,
            targets: contents.1,
            info,
        })
    }
}

#[tactic(auto, unfolding(crate::specs::Packages::contents_of))]
fn contents_of(
    alloc: Global,
    value: &Value<'_>,
) -> Result<(Vec<FeatureRecord>, Vec<TargetRecord>), ReadError>
    ensures { Gives (λ c. (c.0.items, c.1.items)) result (contents_of (seen value.now)) }
{
    let none = Vec::new(alloc);
    let feature_values = objects_or_none(value, Key::Features, &none)?;
    let target_values = objects_or_none(value, Key::Targets, &none)?;
    let features = each_of::<FeatureRecord>(alloc, feature_values)?;
    let targets = each_of::<TargetRecord>(alloc, target_values)?;
    Ok((features, targets))
}

impl FromValue for FeatureRecord {
    ghost use Rattle.record_files.specs.Packages.{feature_of};

    ghost read = { feature_of };

    #[tactic(auto, unfolding(crate::specs::Packages::feature_of))]
    fn from_value(alloc: Global, value: &Value<'_>) -> Result<FeatureRecord, ReadError> {
        let name = text_at(alloc, value, Key::Name)?;
        let enables = texts_at(alloc, value, Key::Enables)?;
        Ok(FeatureRecord { name, enables })
    }
}

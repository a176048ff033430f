//! Features of a record as ids of features of its graph.

ghost use Rattle.std.specs.Prelude.{◌≡◌, IfOk, map};
ghost use Rattle.workspace_record.specs.LabelView.{label_view};
ghost use Rattle.guppy_feature_demands.specs.IdViews.{id_view};
ghost use Rattle.guppy_feature_demands.specs.LabelViews.{label_view as label_seen};

use guppy_feature_graph::{FeatureId, FeatureLabel};
use guppy_package_graph::PackageId;
use std::alloc::{AllocError, Global};
use workspace_record::{Feature, Label};

/// The ids of the features' packages, in their order.
pub(crate) fn package_ids(alloc: Global, features: &[Feature]) -> Result<Vec<PackageId>, AllocError>
    ensures { IfOk result (λ v. v.items ≡ map (λ f. f.package_id) features.now) }
{
    let mut ids = Vec::with_capacity(alloc, features.len())?;
    for feature in features {
        let text = String::from_str(alloc, feature.package.as_str())?;
        ids.push(PackageId::new(text))?;
    }
    Ok(ids)
}

/// The features, each with the id of its package, which stands at its place.
pub(crate) fn feature_ids<'a>(
    alloc: Global,
    features: &'a [Feature],
    package_ids: &'a [PackageId],
) -> Result<Vec<FeatureId<'a>>, AllocError>
    requires { package_ids.now ≡ map (λ f. f.package_id) features.now }
    ensures { IfOk result (λ v. map id_view v.items ≡ features.entry.now) }
{
    let mut ids: Vec<FeatureId<'a>> = Vec::with_capacity(alloc, features.len())?;
    for (place, feature) in features.iter().enumerate() {
        ids.push(FeatureId::new(&package_ids[place], label_of(&feature.label)))?;
    }
    Ok(ids)
}

fn label_of(label: &Label) -> FeatureLabel<'_>
    ensures { label_seen result ≡ label_view label.entry.now }
{
    match label {
        Label::Base => FeatureLabel::Base,
        Label::Named(name) => FeatureLabel::Named(name.as_str()),
        Label::Dep(name) => FeatureLabel::OptionalDependency(name.as_str()),
    }
}

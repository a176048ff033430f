//! The features of a set, as features of a record.

ghost use Rattle.std.specs.Prelude.{◌≡◌, IfOk, map};
ghost use Rattle.guppy_feature_demands.specs.IdViews.{id_view};
ghost use Rattle.guppy_feature_nodes.specs.Graphs.{feature_at};
ghost use Rattle.guppy_feature_graph.specs.Sets.{listed};

use guppy_feature_graph::{FeatureId, FeatureLabel, FeatureSet};
use guppy_package_graph::DependencyDirection;
use std::alloc::{AllocError, Global};
use workspace_record::Feature;

/// The features of the set, in the order in which its graph lists them.
pub(crate) fn features_in(alloc: Global, set: &FeatureSet<'_>) -> Result<Vec<Feature>, AllocError>
    ensures { IfOk result (λ v. v.items ≡ map (feature_at set.now.graph) (listed set.now)) }
{
    let mut features = Vec::with_capacity(alloc, set.len())?;
    for id in set.feature_ids(DependencyDirection::Forward) {
        features.push(feature_of(alloc, id)?)?;
    }
    Ok(features)
}

fn feature_of(alloc: Global, id: FeatureId<'_>) -> Result<Feature, AllocError>
    ensures { IfOk result (λ f. f ≡ id_view id.entry) }
{
    let package_id = id.package_id().repr();
    match id.label() {
        FeatureLabel::Base => Feature::base(alloc, package_id),
        FeatureLabel::Named(name) => Feature::named(alloc, package_id, name),
        FeatureLabel::OptionalDependency(name) => Feature::dep(alloc, package_id, name),
    }
}

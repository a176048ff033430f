//! The features of one package, all of them or those that are in a set.

ghost use Rattle.std.specs.Prelude.{◌≡◌, ◌||◌, IfErr, IfOk, filter, map, string_bytes};
ghost use Rattle.std.specs.List.{list_any};
ghost use Rattle.workspace_record.specs.Features.{Base, Named, Dep};
ghost use Rattle.guppy_feature_demands.specs.LabelViews.{label_view};
ghost use Rattle.guppy_feature_views.specs.Labels.{labels_of};
ghost use Rattle.guppy_feature_graph.specs.FeaturesFor.{AnswersPackage, FindsList, IsNoPackage, ListsAll, ListsAt, has_label, labels_in};
ghost use Rattle.guppy_feature_graph.specs.Views.{feature_graph_of};
ghost use Rattle.guppy_package_graph.specs.Views.{graph_of, place_of};

use crate::feature_graph::FeatureGraph;
use crate::feature_set::FeatureSet;
use guppy_feature_nodes::{FeatureLabel, FeatureName};
use guppy_feature_views::{FeatureList, package_labels};
use guppy_package_graph::{Error, FeatureRow, PackageId, PackageMetadata, PackageRow};
use std::alloc::{AllocError, Global};

impl<'g> FeatureGraph<'g> {
    /// All features of a package: itself, those that it names, and its optional dependencies.
    pub fn all_features_for(
        &self,
        alloc: Global,
        package_id: &PackageId,
    ) -> Result<FeatureList<'g>, Error>
        ensures all { IfOk result (ListsAll (feature_graph_of self.now).rows package_id.now) }
        ensures refused { IfErr result (IsNoPackage (feature_graph_of self.now).rows
            package_id.now) }
    {
        match self.package_graph().metadata(package_id) {
            Ok(package) => Ok(list_of(alloc, package)?),
            Err(error) => Err(error),
        }
    }
}

// All features of a package.
fn list_of<'g>(alloc: Global, package: PackageMetadata<'g>) -> Result<FeatureList<'g>, AllocError>
    ensures { IfOk result (ListsAt labels_of (graph_of «package».entry)
        (place_of «package».entry)) }
{
    let labels = package_labels(alloc, package.row())?;
    FeatureList::new(alloc, package, &labels)
}

impl<'g> FeatureSet<'g> {
    /// The features of a package that are in the set, if there are any.
    pub fn features_for(
        &self,
        alloc: Global,
        package_id: &PackageId,
    ) -> Result<Option<FeatureList<'g>>, Error>
        ensures found { IfOk result (FindsList self.now package_id.now) }
        ensures refused { IfErr result (IsNoPackage self.now.graph.rows package_id.now) }
    {
        match self.graph().package_graph().metadata(package_id) {
            Ok(package) if has_feature_of(self, package.row()) => {
                Ok(Some(list_in(alloc, self, package)?))
            }
            Ok(_) => Ok(None),
            Err(error) => Err(error),
        }
    }

    /// Whether a feature of the package is in the set.
    pub fn contains_package(&self, package_id: &PackageId) -> Result<bool, Error>
        ensures answer { AnswersPackage self.now package_id.now result }
    {
        match self.graph().package_graph().metadata(package_id) {
            Ok(package) => Ok(has_feature_of(self, package.row())),
            Err(error) => Err(error),
        }
    }
}

/// The features of a package that are in the set.
pub(crate) fn list_in<'g>(
    alloc: Global,
    set: &FeatureSet<'g>,
    package: PackageMetadata<'g>,
) -> Result<FeatureList<'g>, AllocError>
    ensures { IfOk result (ListsAt (labels_in set.now) (graph_of «package».entry)
        (place_of «package».entry)) }
{
    let row = package.row();
    let labels = package_labels(alloc, row)?;
    let kept = kept_labels(alloc, set, row.id.as_str(), &labels)?;
    FeatureList::new(alloc, package, &kept)
}

// Those of the labels whose features are in the set.
fn kept_labels<'g>(
    alloc: Global,
    set: &FeatureSet<'_>,
    id: &str,
    labels: &[FeatureLabel<'g>],
) -> Result<Vec<FeatureLabel<'g>>, AllocError>
    ensures { IfOk result (λ v. map label_view v.items
        ≡ filter (has_label set.now id.now) (map label_view labels.now)) }
{
    let mut kept: Vec<FeatureLabel<'g>> = Vec::new(alloc);
    for label in labels {
        if has_label(set, id, *label) {
            kept.push(*label)?;
        }
    }
    Ok(kept)
}

fn has_label(set: &FeatureSet<'_>, package_id: &str, label: FeatureLabel<'_>) -> bool
    ensures { result ≡ has_label set.now package_id.now (label_view label.entry) }
{
    let name = FeatureName { package_id, label };
    set.included().contains(set.graph().built().number_of(name))
}

/// Whether one of the features that a package's row lists is in the set.
pub(crate) fn has_feature_of(set: &FeatureSet<'_>, row: &PackageRow) -> bool
    ensures { result ≡ list_any (has_label set.now row.now.id) (labels_of row.now) }
{
    has_one(set, row)
}

fn has_one(set: &FeatureSet<'_>, row: &PackageRow) -> bool
    ensures { result ≡ (has_label set.now row.now.id Base
        || (list_any (λ f. has_label set.now row.now.id (Named f.name)) row.now.features
        || list_any (λ n. has_label set.now row.now.id (Dep n)) row.now.optional)) }
{
    let id = row.id.as_str();
    has_label(set, id, FeatureLabel::Base)
        || has_named(set, id, &row.features)
        || has_dependency(set, id, &row.optional)
}

fn has_named(set: &FeatureSet<'_>, id: &str, features: &[FeatureRow]) -> bool
    ensures { result ≡ list_any (λ f. has_label set.now id.now (Named f.name)) features.now }
{
    features.iter().any(|feature| has_label(set, id, FeatureLabel::Named(feature.name.as_str())))
}

fn has_dependency(set: &FeatureSet<'_>, id: &str, names: &[String]) -> bool
    ensures { result ≡ list_any (λ n. has_label set.now id.now (Dep n))
        (map string_bytes names.now) }
{
    names.iter().any(|name| has_label(set, id, FeatureLabel::OptionalDependency(name.as_str())))
}

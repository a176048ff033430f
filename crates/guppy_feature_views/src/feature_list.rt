//! Lists of one package's features.

ghost use Rattle.std.specs.Prelude.{◌≡◌, ◌↔◌, Contains, IfOk, IsTrue, map};
ghost use Rattle.workspace_record.specs.Features.{Base, Named, Dep};
ghost use Rattle.guppy_feature_demands.specs.LabelViews.{label_view};
ghost use Rattle.guppy_feature_demands.specs.declared.feature_kind.FeatureKind.TheVariants as kind;
ghost use Rattle.guppy_package_graph.specs.Views.{graph_of, place_of};
ghost use Rattle.guppy_feature_views.specs.Labels.{AreLabels, Ascend, names_of};
ghost use Rattle.guppy_feature_views.specs.Listing.{Lists};
ghost use Rattle.guppy_feature_views.specs.ListViews.{features_left, names_left, printed_labels};

use crate::display_features::DisplayFeatures;
use crate::into_iter::IntoIter;
use crate::iter::Iter;
use crate::label_names::LabelNames;
use guppy_feature_demands::{FeatureId, FeatureKind, FeatureLabel};
use guppy_package_graph::PackageMetadata;
use guppy_package_parts::SortedSet;
use std::alloc::{AllocError, Global};
use std::fmt;
use std::marker::Model;

/// Features of one package, told by their labels: ascending, each once.
#[derive(Drop)]
pub struct FeatureList<'g> {
    package: PackageMetadata<'g>,
    labels: SortedSet<FeatureLabel<'g>>,
}

impl<'g> Model for FeatureList<'g> {
    ghost use Rattle.std.specs.Prelude.{map};
    ghost use Rattle.guppy_feature_demands.specs.LabelViews.{label_view};
    ghost use Rattle.guppy_package_graph.specs.Views.{graph_of, place_of};
    ghost use Rattle.guppy_feature_views.specs.Labels.{Ascend};
    ghost use Rattle.guppy_feature_views.specs.ListValues.{ListValue};

    ghost Value = { ListValue };

    ghost view = { λ l. record { graph = graph_of l.package; place = place_of l.package; labels = map label_view l.labels } };

    ghost invariant = { λ l. Ascend (map label_view l.labels) };
}

impl<'g> FeatureList<'g> {
    /// The features of a package with these labels, put in order. Of several that are the same it
    /// keeps one.
    pub fn new(
        alloc: Global,
        package: PackageMetadata<'g>,
        labels: &[FeatureLabel<'g>],
    ) -> Result<FeatureList<'g>, AllocError>
        ensures graph { IfOk result (λ l. l.graph ≡ graph_of «package».entry) }
        ensures place { IfOk result (λ l. l.place ≡ place_of «package».entry) }
        ensures labels { IfOk result (λ l. AreLabels (Contains (map label_view labels.now))
            l.labels) }
    {
        let copied = Vec::from_slice(alloc, labels)?;
        let labels = SortedSet::new(copied);
        Ok(FeatureList { package, labels })
    }

    /// An equal list in memory of its own.
    pub fn copy(&self, alloc: Global) -> Result<FeatureList<'g>, AllocError>
        ensures same { IfOk result (λ l. l ≡ self.now) }
    {
        FeatureList::new(alloc, self.package, self.labels())
    }

    /// The package.
    pub fn package(&self) -> &PackageMetadata<'g>
        ensures graph { graph_of result.now ≡ self.now.graph }
        ensures place { place_of result.now ≡ self.now.place }
    {
        &self.package
    }

    /// Whether a feature with the label is in the list.
    pub fn contains(&self, label: FeatureLabel<'_>) -> bool
        ensures found { IsTrue result ↔ Contains self.now.labels (label_view label.entry) }
    {
        self.labels.contains(&label)
    }

    /// Whether the package itself is in the list.
    pub fn has_base(&self) -> bool
        ensures found { IsTrue result ↔ Contains self.now.labels Base }
    {
        self.contains(FeatureLabel::Base)
    }

    /// Whether the list has the feature that the package names so.
    pub fn has_named_feature(&self, feature_name: &str) -> bool
        ensures found { IsTrue result ↔ Contains self.now.labels (Named feature_name.now) }
    {
        self.contains(FeatureLabel::Named(feature_name))
    }

    /// Whether the list has the optional dependency with this name.
    pub fn has_optional_dependency(&self, dep_name: &str) -> bool
        ensures found { IsTrue result ↔ Contains self.now.labels (Dep dep_name.now) }
    {
        self.contains(FeatureLabel::OptionalDependency(dep_name))
    }

    /// The labels of the features, ascending.
    pub fn labels(&self) -> &[FeatureLabel<'g>]
        ensures value { map label_view result.now ≡ self.now.labels }
        ensures ascending { Ascend self.now.labels }
    {
        self.labels.as_slice()
    }

    /// The names of the features that the package names, ascending.
    pub fn named_features(&self) -> LabelNames<'g, '_>
        ensures names { names_left result ≡ names_of kind.Named self.now.labels }
    {
        LabelNames::of(FeatureKind::Named, self.labels.as_slice())
    }

    /// The names of the optional dependencies, ascending.
    pub fn optional_deps(&self) -> LabelNames<'g, '_>
        ensures names { names_left result ≡ names_of kind.OptionalDependency self.now.labels }
    {
        LabelNames::of(FeatureKind::OptionalDependency, self.labels.as_slice())
    }

    /// The ids of the features, ascending.
    pub fn iter(&self) -> Iter<'g, '_>
        ensures features { Lists self.now (features_left result) }
    {
        Iter::new(self)
    }

    /// The features for printing, by their labels with a comma and a space between each two.
    pub fn display_features(&self) -> DisplayFeatures<'g, '_>
        ensures labels { printed_labels result ≡ self.now.labels }
    {
        DisplayFeatures::of(self.labels.as_slice())
    }

    /// The labels of the features, ascending.
    pub fn into_labels(self) -> Vec<FeatureLabel<'g>>
        ensures value { map label_view result.items ≡ self.entry.labels }
        ensures ascending { Ascend self.entry.labels }
    {
        self.labels.into_inner()
    }
}

impl<'g> IntoIterator for FeatureList<'g> {
    type Item = FeatureId<'g>;

    type IntoIter = IntoIter<'g>;

    ghost use Rattle.guppy_feature_views.specs.Listing.{Lists};
    ghost use Rattle.guppy_feature_views.specs.ListViews.{owned_features_left};

    ghost into_iter_gives = { λ l it. Lists l (owned_features_left it) };

    fn into_iter(self) -> IntoIter<'g> {
        IntoIter::new(self)
    }
}

impl<'g, 'a> IntoIterator for &'a FeatureList<'g> {
    type Item = FeatureId<'g>;

    type IntoIter = Iter<'g, 'a>;

    ghost use Rattle.guppy_feature_views.specs.Listing.{Lists};
    ghost use Rattle.guppy_feature_views.specs.ListViews.{features_left};

    ghost into_iter_gives = { λ l it. Lists l.now (features_left it) };

    fn into_iter(self) -> Iter<'g, 'a> {
        Iter::new(self)
    }
}

impl fmt::Debug for FeatureList<'_> {
    fn fmt<W: fmt::Write>(&self, f: &mut fmt::Formatter<W>) -> fmt::Result {
        f.debug_struct("FeatureList")
            .field("package", &self.package)
            .field("labels", &self.labels)
            .finish()
    }
}

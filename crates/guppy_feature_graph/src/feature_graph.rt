//! A view of a feature graph, and what it says of each feature.

ghost use Rattle.std.specs.Prelude.{◌≡◌, length, map};
ghost use Rattle.guppy_package_parts.specs.WarningViews.{warning_view};
ghost use Rattle.guppy_feature_demands.specs.IdViews.{id_view};
ghost use Rattle.guppy_feature_demands.specs.NameViews.{name_view};
ghost use Rattle.guppy_feature_demands.specs.Nodes.{is_node};
ghost use Rattle.guppy_feature_demands.specs.Warnings.{warnings_of};
ghost use Rattle.guppy_feature_graph.specs.Finding.{FindsFeature, FindsNumber};
ghost use Rattle.guppy_feature_graph.specs.StandardFilters.{FindsDefault};
ghost use Rattle.guppy_feature_graph.specs.Views.{feature_graph_of};

use guppy_feature_nodes::{FeatureGraphData, FeatureId, FeatureName};
use guppy_feature_views::FeatureMetadata;
use guppy_package_graph::{Error, FeatureGraphWarning, PackageGraph};

/// The features of a package graph's packages and the links between them: a view of data that is
/// built once, by `FeatureGraphData::build`.
#[derive(Clone, Copy, Debug)]
pub struct FeatureGraph<'g> {
    built: &'g FeatureGraphData<'g>,
}

impl<'g> FeatureGraph<'g> {
    /// The graph that was built.
    pub fn of(built: &'g FeatureGraphData<'g>) -> FeatureGraph<'g>
        ensures graph { feature_graph_of result ≡ built.entry.now }
    {
        FeatureGraph { built }
    }

    pub(crate) fn built(&self) -> &'g FeatureGraphData<'g>
        ensures { result.now ≡ feature_graph_of self.now }
    {
        self.built
    }

    /// The packages' graph.
    pub fn package_graph(&self) -> &'g PackageGraph
        ensures rows { result.now ≡ (feature_graph_of self.now).rows }
    {
        self.built.package_graph()
    }

    /// What is odd about the rows.
    pub fn build_warnings(&self) -> &'g [FeatureGraphWarning]
        ensures value { map warning_view result.now ≡ (feature_graph_of self.now).warnings }
        ensures warnings { (feature_graph_of self.now).warnings
            ≡ warnings_of (feature_graph_of self.now).rows.packages
            (feature_graph_of self.now).rows.links }
    {
        let built = self.built;
        built.build_warnings()
    }

    /// How many features there are: each package, the features that it names, and its optional
    /// dependencies.
    pub fn feature_count(&self) -> usize
        ensures count { result ≡ length (feature_graph_of self.now).nodes }
    {
        self.built.feature_count()
    }

    /// How many edges there are.
    pub fn link_count(&self) -> usize
        ensures count { result ≡ length (feature_graph_of self.now).edges }
    {
        self.built.link_count()
    }

    /// Whether there is such a feature.
    pub fn contains(&self, feature_id: FeatureId<'_>) -> bool
        ensures answer { result ≡ is_node (feature_graph_of self.now).nodes
            (id_view feature_id.entry) }
    {
        self.built.contains(name_of(feature_id))
    }

    /// What the graph says of a feature.
    pub fn metadata(&self, feature_id: FeatureId<'_>) -> Result<FeatureMetadata<'g>, Error>
        ensures found { FindsFeature (feature_graph_of self.now) (id_view feature_id.entry) result }
    {
        let node = self.number_of(feature_id)?;
        Ok(FeatureMetadata::at(self.built, node))
    }

    /// Whether a feature is one that its package switches on by default: edges to packages themselves
    /// and to features that others enable by name lead to it from `default`, or where the package names
    /// no such feature from the package itself.
    pub fn is_default_feature(&self, feature_id: FeatureId<'_>) -> Result<bool, Error>
        ensures answer { FindsDefault (feature_graph_of self.now) (id_view feature_id.entry)
            result }
    {
        let node = self.number_of(feature_id)?;
        Ok(self.built.is_default(node))
    }

    pub(crate) fn number_of(&self, feature_id: FeatureId<'_>) -> Result<usize, Error>
        ensures { FindsNumber (feature_graph_of self.now) (id_view feature_id.entry) result }
    {
        let number = self.built.number_of(name_of(feature_id));
        if number < self.built.feature_count() {
            Ok(number)
        } else {
            Err(Error::UnknownFeatureId)
        }
    }
}

/// A feature as its id names it.
pub(crate) fn name_of(feature_id: FeatureId<'_>) -> FeatureName<'_>
    ensures { name_view result ≡ id_view feature_id.entry }
{
    FeatureName {
        package_id: feature_id.package_id().repr(),
        label: feature_id.label(),
    }
}

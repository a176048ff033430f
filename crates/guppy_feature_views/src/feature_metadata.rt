//! One feature of a graph.

ghost use Rattle.std.specs.Prelude.{◌≡◌, ◌<◌, length};
ghost use Rattle.guppy_feature_demands.specs.IdViews.{id_view};
ghost use Rattle.guppy_feature_demands.specs.LabelViews.{label_view};
ghost use Rattle.guppy_package_graph.specs.Finding.{IsAt};
ghost use Rattle.guppy_package_graph.specs.Views.{graph_of, place_of};
ghost use Rattle.guppy_feature_nodes.specs.Graphs.{feature_at};

use guppy_feature_nodes::{FeatureGraphData, FeatureId, FeatureLabel};
use guppy_package_graph::{PackageId, PackageMetadata};
use std::fmt;

/// A feature of a graph.
#[derive(Clone, Copy)]
pub struct FeatureMetadata<'g> {
    built: &'g FeatureGraphData<'g>,
    node: usize,
    ghost in_range: { node < length built.now.nodes },
}

impl<'g> FeatureMetadata<'g> {
    ghost use Rattle.guppy_feature_views.specs.Views.{metadata_graph_of, node_of};

    /// The feature with a number.
    pub fn at(built: &'g FeatureGraphData<'g>, node: usize) -> FeatureMetadata<'g>
        requires { node < length built.now.nodes }
        ensures graph { metadata_graph_of result ≡ built.entry.now }
        ensures node { node_of result ≡ node }
    {
        FeatureMetadata { built, node }
    }

    /// The feature's number.
    pub fn node(&self) -> usize
        ensures node { result ≡ node_of self.now }
        ensures within { result < length (metadata_graph_of self.now).nodes }
    {
        self.node
    }

    /// The feature's id.
    pub fn feature_id(&self) -> FeatureId<'g>
        ensures id { id_view result ≡ feature_at (metadata_graph_of self.now) (node_of self.now) }
    {
        self.built.feature_at(self.node)
    }

    /// The id of the feature's package.
    pub fn package_id(&self) -> &'g PackageId
        ensures id { result.now ≡ (feature_at (metadata_graph_of self.now)
            (node_of self.now)).package_id }
    {
        self.feature_id().package_id()
    }

    /// The feature's package.
    pub fn package(&self) -> PackageMetadata<'g>
        ensures graph { graph_of result ≡ (metadata_graph_of self.now).rows }
        ensures package { IsAt (metadata_graph_of self.now).rows
            (feature_at (metadata_graph_of self.now) (node_of self.now)).package_id
            (place_of result) }
    {
        self.built.package_of(self.node)
    }

    /// The feature's label.
    pub fn label(&self) -> FeatureLabel<'g>
        ensures label { label_view result ≡ (feature_at (metadata_graph_of self.now)
            (node_of self.now)).label }
    {
        self.feature_id().label()
    }
}

impl fmt::Debug for FeatureMetadata<'_> {
    fn fmt<W: fmt::Write>(&self, f: &mut fmt::Formatter<W>) -> fmt::Result {
        f.debug_tuple("FeatureMetadata")
            .field(&self.feature_id())
            .finish()
    }
}

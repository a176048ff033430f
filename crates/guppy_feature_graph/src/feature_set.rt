//! Sets of features, and what is asked of them.

ghost use Rattle.std.specs.Prelude.{◌≡◌, ◌↔◌, ◌&&◌, ◌||◌, ◌<◌, ℕ, not, All, IfOk, Ok, IsTrue, count_by, length};
ghost use Rattle.numbered_graph.specs.ListedViews.{in_direction, listed_left};
ghost use Rattle.numbered_graph.specs.Sets.{differs, has};
ghost use Rattle.guppy_package_graph.specs.Directions.{direction_of};
ghost use Rattle.guppy_feature_demands.specs.IdViews.{id_view};
ghost use Rattle.guppy_feature_graph.specs.Finding.{FindsMembership};
ghost use Rattle.guppy_feature_graph.specs.Sets.{IsInOrder, listed};
ghost use Rattle.guppy_feature_graph.specs.Views.{feature_graph_of};
ghost use Rattle.guppy_feature_views.specs.FeatureViews.{features_graph_of, features_left, ids_graph_of, ids_nodes_left};

use crate::direction::direction_of;
use crate::feature_graph::FeatureGraph;
use guppy_feature_nodes::{FeatureGraphData, FeatureId};
use guppy_feature_views::{FeatureIds, Features};
use guppy_package_graph::{DependencyDirection, Error};
use numbered_graph::{Listed, NodeSet};
use std::alloc::{AllocError, Global};
use std::fmt;
use std::marker::Model;

/// A set of features of a graph.
#[derive(Drop)]
pub struct FeatureSet<'g> {
    graph: FeatureGraph<'g>,
    included: NodeSet,
}

impl<'g> Model for FeatureSet<'g> {
    ghost use Rattle.std.specs.Prelude.{◌≡◌, length};
    ghost use Rattle.guppy_feature_graph.specs.Sets.{SetValue};
    ghost use Rattle.guppy_feature_graph.specs.Views.{feature_graph_of};

    ghost Value = { SetValue };

    ghost view = { λ s. record { graph = feature_graph_of s.graph; included = s.included } };

    ghost invariant = { λ s. length s.included ≡ length (feature_graph_of s.graph).nodes };
}

impl<'g> FeatureSet<'g> {
    pub(crate) fn of(graph: FeatureGraph<'g>, included: NodeSet) -> FeatureSet<'g>
        requires { length included ≡ length (feature_graph_of graph).nodes }
        ensures { result ≡ record { graph = feature_graph_of graph.entry; included = included } }
    {
        FeatureSet { graph, included }
    }

    /// The set of these features, as an answer. What lends a graph is dear to prove wherever it is put
    /// into an answer: so it is done here alone.
    pub(crate) fn found(
        graph: &FeatureGraph<'g>,
        included: NodeSet,
    ) -> Result<FeatureSet<'g>, AllocError>
        requires { length included ≡ length (feature_graph_of graph.now).nodes }
        ensures { result ≡ Ok record { graph = feature_graph_of graph.now; included = included } }
    {
        Ok(FeatureSet::of(*graph, included))
    }

    /// The graph of the features.
    pub fn graph(&self) -> &FeatureGraph<'g>
        ensures graph { feature_graph_of result.now ≡ self.now.graph }
    {
        &self.graph
    }

    pub(crate) fn included(&self) -> &NodeSet
        ensures value { result.now ≡ self.now.included }
        ensures sized { length result.now ≡ length self.now.graph.nodes }
    {
        &self.included
    }

    /// An equal set in memory of its own.
    pub fn copy(&self, alloc: Global) -> Result<FeatureSet<'g>, AllocError>
        ensures same { IfOk result (λ s. s ≡ self.now) }
    {
        let included = self.included.union(alloc, &self.included)?;
        FeatureSet::found(&self.graph, included)
    }

    /// How many features are in the set.
    pub fn len(&self) -> usize
        ensures count { result ≡ count_by (λ b. b) self.now.included }
    {
        self.included.len()
    }

    /// Whether no feature is in the set.
    pub fn is_empty(&self) -> bool
        ensures empty { IsTrue result ↔ (count_by (λ b. b) self.now.included ≡ 0) }
    {
        self.len() == 0
    }

    /// Whether a feature is in the set.
    pub fn contains(&self, feature_id: FeatureId<'_>) -> Result<bool, Error>
        ensures found { FindsMembership self.now.graph self.now.included (id_view feature_id.entry)
            result }
    {
        let node = self.graph.number_of(feature_id)?;
        Ok(self.included.contains(node))
    }

    /// Whether the graphs of both sets have the same list of features.
    pub fn same_features(&self, other: &FeatureSet<'_>) -> bool
        ensures same { IsTrue result ↔ (self.now.graph.nodes ≡ other.now.graph.nodes) }
    {
        same_features(self.graph.built(), other.graph.built())
    }

    /// The features that are in one of the two sets.
    pub fn union(&self, alloc: Global, other: &FeatureSet<'_>) -> Result<FeatureSet<'g>, AllocError>
        requires { self.now.graph.nodes ≡ other.now.graph.nodes }
        ensures graph { IfOk result (λ s. s.graph ≡ self.now.graph) }
        ensures members { IfOk result (λ s. (v : ℕ)
            → has s.included v ≡ (has self.now.included v || has other.now.included v)) }
    {
        let included = self.included.union(alloc, &other.included)?;
        FeatureSet::found(&self.graph, included)
    }

    /// The features that are in both sets.
    pub fn intersection(
        &self,
        alloc: Global,
        other: &FeatureSet<'_>,
    ) -> Result<FeatureSet<'g>, AllocError>
        requires { self.now.graph.nodes ≡ other.now.graph.nodes }
        ensures graph { IfOk result (λ s. s.graph ≡ self.now.graph) }
        ensures members { IfOk result (λ s. (v : ℕ)
            → has s.included v ≡ (has self.now.included v && has other.now.included v)) }
    {
        let included = self.included.intersection(alloc, &other.included)?;
        FeatureSet::found(&self.graph, included)
    }

    /// The features that are in this set and not in the other.
    pub fn difference(
        &self,
        alloc: Global,
        other: &FeatureSet<'_>,
    ) -> Result<FeatureSet<'g>, AllocError>
        requires { self.now.graph.nodes ≡ other.now.graph.nodes }
        ensures graph { IfOk result (λ s. s.graph ≡ self.now.graph) }
        ensures members { IfOk result (λ s. (v : ℕ)
            → has s.included v ≡ (has self.now.included v && not (has other.now.included v))) }
    {
        let included = self.included.difference(alloc, &other.included)?;
        FeatureSet::found(&self.graph, included)
    }

    /// The features that are in exactly one of the two sets.
    pub fn symmetric_difference(
        &self,
        alloc: Global,
        other: &FeatureSet<'_>,
    ) -> Result<FeatureSet<'g>, AllocError>
        requires { self.now.graph.nodes ≡ other.now.graph.nodes }
        ensures graph { IfOk result (λ s. s.graph ≡ self.now.graph) }
        ensures members { IfOk result (λ s. (v : ℕ)
            → has s.included v ≡ differs (has self.now.included v) (has other.now.included v)) }
    {
        let included = self.included.symmetric_difference(alloc, &other.included)?;
        FeatureSet::found(&self.graph, included)
    }

    /// The ids of the features of the set: components together, edges between components forward, and
    /// those forward too that stand on more than dev lines, unless they lie on a cycle of such edges.
    /// In Reverse that list reversed.
    pub fn feature_ids(&self, direction: DependencyDirection) -> FeatureIds<'g, '_>
        ensures graph { ids_graph_of result ≡ self.now.graph }
        ensures listed { ids_nodes_left result ≡ in_direction (direction_of direction)
            (listed self.now) }
        ensures listing { IsInOrder self.now }
    {
        FeatureIds::of(self.graph.built(), self.listed(direction))
    }

    /// The features of the set, in the order of `feature_ids`.
    pub fn features(&self, direction: DependencyDirection) -> Features<'g, '_>
        ensures graph { features_graph_of result ≡ self.now.graph }
        ensures listed { features_left result ≡ in_direction (direction_of direction)
            (listed self.now) }
        ensures listing { IsInOrder self.now }
    {
        Features::of(self.graph.built(), self.listed(direction))
    }

    /// The numbers of the features of the set, in that order.
    pub(crate) fn listed(&self, direction: DependencyDirection) -> Listed<'_>
        ensures listed { listed_left result ≡ in_direction (direction_of direction)
            (listed self.now) }
        ensures within { All (λ v. v < length self.now.graph.nodes) (listed_left result) }
        ensures listing { IsInOrder self.now }
    {
        let built = self.graph.built();
        Listed::new(built.listing(), &self.included, direction_of(direction))
    }
}

impl fmt::Debug for FeatureSet<'_> {
    fn fmt<W: fmt::Write>(&self, f: &mut fmt::Formatter<W>) -> fmt::Result {
        f.debug_set()
            .entries(self.feature_ids(DependencyDirection::Forward))
            .finish()
    }
}

// Whether two graphs have the same list of features.
fn same_features<'g, 'h>(a: &'g FeatureGraphData<'g>, b: &'h FeatureGraphData<'h>) -> bool
    ensures { IsTrue result ↔ (a.entry.now.nodes ≡ b.entry.now.nodes) }
{
    if a.feature_count() != b.feature_count() {
        return false;
    }
    for node in 0..a.feature_count() {
        if a.feature_at(node) != b.feature_at(node) {
            return false;
        }
    }
    true
}

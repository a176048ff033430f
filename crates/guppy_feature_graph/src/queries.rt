//! Queries: where links are followed from.

ghost use Rattle.std.specs.Prelude.{IfErr, IfOk, map};
ghost use Rattle.guppy_package_parts.specs.declared.dependency_direction.DependencyDirection.TheVariants.{Forward, Reverse};
ghost use Rattle.guppy_feature_demands.specs.IdViews.{id_view};
ghost use Rattle.guppy_feature_graph.specs.Finding.{AreKnown, IsMissing, IsNamed};
ghost use Rattle.guppy_feature_graph.specs.Queries.{IsQueryOf};
ghost use Rattle.guppy_feature_graph.specs.Views.{feature_graph_of};

use crate::feature_graph::FeatureGraph;
use crate::feature_query::FeatureQuery;
use crate::feature_set::FeatureSet;
use crate::found_features::set_of_features;
use guppy_feature_nodes::FeatureId;
use guppy_package_graph::{DependencyDirection, Error};
use std::alloc::Global;

impl<'g> FeatureGraph<'g> {
    /// A query from these features in a direction.
    pub fn query_directed(
        &self,
        alloc: Global,
        feature_ids: &[FeatureId<'_>],
        direction: DependencyDirection,
    ) -> Result<FeatureQuery<'g>, Error>
        ensures query { IfOk result (IsQueryOf (feature_graph_of self.now) direction
            (IsNamed (feature_graph_of self.now) (map id_view feature_ids.now))) }
        ensures known { IfOk result (λ _. AreKnown (feature_graph_of self.now)
            (map id_view feature_ids.now)) }
        ensures refused { IfErr result (IsMissing (feature_graph_of self.now)
            (map id_view feature_ids.now)) }
    {
        let set = set_of_features(alloc, self, feature_ids)?;
        let query = FeatureQuery::of(alloc, FeatureSet::of(*self, set), direction)?;
        Ok(query)
    }

    /// A query from these features to what they lead to.
    pub fn query_forward(
        &self,
        alloc: Global,
        feature_ids: &[FeatureId<'_>],
    ) -> Result<FeatureQuery<'g>, Error>
        ensures query { IfOk result (IsQueryOf (feature_graph_of self.now) Forward
            (IsNamed (feature_graph_of self.now) (map id_view feature_ids.now))) }
        ensures known { IfOk result (λ _. AreKnown (feature_graph_of self.now)
            (map id_view feature_ids.now)) }
        ensures refused { IfErr result (IsMissing (feature_graph_of self.now)
            (map id_view feature_ids.now)) }
    {
        self.query_directed(alloc, feature_ids, DependencyDirection::Forward)
    }

    /// A query from these features to what leads to them.
    pub fn query_reverse(
        &self,
        alloc: Global,
        feature_ids: &[FeatureId<'_>],
    ) -> Result<FeatureQuery<'g>, Error>
        ensures query { IfOk result (IsQueryOf (feature_graph_of self.now) Reverse
            (IsNamed (feature_graph_of self.now) (map id_view feature_ids.now))) }
        ensures known { IfOk result (λ _. AreKnown (feature_graph_of self.now)
            (map id_view feature_ids.now)) }
        ensures refused { IfErr result (IsMissing (feature_graph_of self.now)
            (map id_view feature_ids.now)) }
    {
        self.query_directed(alloc, feature_ids, DependencyDirection::Reverse)
    }
}

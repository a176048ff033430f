//! Sets of the features that are named, without what they lead to.

ghost use Rattle.std.specs.Prelude.{◌≡◌, IfErr, IfOk, length, map, replicate, true, false};
ghost use Rattle.guppy_feature_demands.specs.IdViews.{id_view};
ghost use Rattle.guppy_feature_graph.specs.Finding.{AreKnown, IsMissing, IsNamed};
ghost use Rattle.guppy_feature_graph.specs.Sets.{IsSetOf};
ghost use Rattle.guppy_feature_graph.specs.Views.{feature_graph_of};

use crate::feature_graph::FeatureGraph;
use crate::feature_set::FeatureSet;
use crate::found_features::set_of_features;
use guppy_feature_nodes::FeatureId;
use guppy_package_graph::Error;
use numbered_graph::NodeSet;
use std::alloc::{AllocError, Global};

impl<'g> FeatureGraph<'g> {
    /// The set of all features.
    pub fn resolve_all(&self, alloc: Global) -> Result<FeatureSet<'g>, AllocError>
        ensures all { IfOk result (λ s. s ≡ record {
          graph = feature_graph_of self.now;
          included = replicate (length (feature_graph_of self.now).nodes) true;
        }) }
    {
        let all = NodeSet::all(alloc, self.feature_count())?;
        FeatureSet::found(self, all)
    }

    /// The set of no feature.
    pub fn resolve_none(&self, alloc: Global) -> Result<FeatureSet<'g>, AllocError>
        ensures none { IfOk result (λ s. s ≡ record {
          graph = feature_graph_of self.now;
          included = replicate (length (feature_graph_of self.now).nodes) false;
        }) }
    {
        let none = NodeSet::none(alloc, self.feature_count())?;
        FeatureSet::found(self, none)
    }

    /// The set of these features.
    pub fn resolve_ids(
        &self,
        alloc: Global,
        feature_ids: &[FeatureId<'_>],
    ) -> Result<FeatureSet<'g>, Error>
        ensures named { IfOk result (IsSetOf (feature_graph_of self.now)
            (IsNamed (feature_graph_of self.now) (map id_view feature_ids.now))) }
        ensures known { IfOk result (λ _. AreKnown (feature_graph_of self.now)
            (map id_view feature_ids.now)) }
        ensures refused { IfErr result (IsMissing (feature_graph_of self.now)
            (map id_view feature_ids.now)) }
    {
        let set = set_of_features(alloc, self, feature_ids)?;
        Ok(FeatureSet::of(*self, set))
    }
}

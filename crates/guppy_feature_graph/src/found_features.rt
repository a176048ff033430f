//! Features named by ids, as a set of nodes.

ghost use Rattle.std.specs.Prelude.{◌≡◌, ◌↔◌, ◌<◌, ℕ, All, IfErr, IfOk, IsTrue, length, map};
ghost use Rattle.numbered_graph.specs.Sets.{has};
ghost use Rattle.guppy_feature_demands.specs.Nodes.{number_of};
ghost use Rattle.guppy_feature_demands.specs.IdViews.{id_view};
ghost use Rattle.guppy_feature_graph.specs.Finding.{AreKnown, IsMissing, IsNamed};
ghost use Rattle.guppy_feature_graph.specs.Views.{feature_graph_of};

use crate::feature_graph::FeatureGraph;
use guppy_feature_nodes::FeatureId;
use guppy_package_graph::Error;
use numbered_graph::NodeSet;
use std::alloc::Global;

/// The nodes that are these features.
pub(crate) fn set_of_features(
    alloc: Global,
    graph: &FeatureGraph<'_>,
    feature_ids: &[FeatureId<'_>],
) -> Result<NodeSet, Error>
    ensures sized { IfOk result (λ set. length set ≡ length (feature_graph_of graph.now).nodes) }
    ensures named { IfOk result (λ set. (v : ℕ) → IsTrue (has set v)
        ↔ IsNamed (feature_graph_of graph.now) (map id_view feature_ids.now) v) }
    ensures known { IfOk result (λ _. AreKnown (feature_graph_of graph.now)
        (map id_view feature_ids.now)) }
    ensures refused { IfErr result (IsMissing (feature_graph_of graph.now)
        (map id_view feature_ids.now)) }
{
    let numbers = numbers_of(alloc, graph, feature_ids)?;
    let set = NodeSet::of(alloc, graph.feature_count(), &numbers)?;
    Ok(set)
}

fn numbers_of(
    alloc: Global,
    graph: &FeatureGraph<'_>,
    feature_ids: &[FeatureId<'_>],
) -> Result<Vec<usize>, Error>
    ensures found { IfOk result (λ v. v.items
        ≡ map (number_of (feature_graph_of graph.now).nodes) (map id_view feature_ids.now)) }
    ensures within { IfOk result (λ v. All (λ n. n < length (feature_graph_of graph.now).nodes)
        v.items) }
    ensures refused { IfErr result (IsMissing (feature_graph_of graph.now)
        (map id_view feature_ids.now)) }
{
    let mut numbers = Vec::new(alloc);
    for feature_id in feature_ids {
        match graph.number_of(*feature_id) {
            Ok(number) => numbers.push(number)?,
            Err(error) => return Err(error),
        }
    }
    Ok(numbers)
}

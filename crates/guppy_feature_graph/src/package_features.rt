//! The features of packages.

ghost use Rattle.std.specs.Prelude.{◌≡◌, ◌↔◌, ◌<◌, ℕ, IfOk, IsTrue, length};
ghost use Rattle.numbered_graph.specs.Sets.{has};
ghost use Rattle.guppy_package_table.specs.Tables.{ids_of};
ghost use Rattle.guppy_feature_graph.specs.PackageFeatures.{IsOfSet};
ghost use Rattle.guppy_feature_graph.specs.Views.{feature_graph_of};

use crate::feature_graph::FeatureGraph;
use guppy_package_graph::PackageSet;
use numbered_graph::NodeSet;
use std::alloc::{AllocError, Global};

/// The features of the packages of a set.
pub(crate) fn features_of_packages(
    alloc: Global,
    graph: &FeatureGraph<'_>,
    packages: &PackageSet<'_>,
) -> Result<NodeSet, AllocError>
    requires { ids_of packages.now.graph.packages
        ≡ ids_of (feature_graph_of graph.now).rows.packages }
    ensures sized { IfOk result (λ set. length set ≡ length (feature_graph_of graph.now).nodes) }
    ensures members { IfOk result (λ set. (v : ℕ) → IsTrue (has set v)
        ↔ IsOfSet (feature_graph_of graph.now) packages.now.included v) }
{
    let mut features = NodeSet::none(alloc, graph.feature_count())?;
    for node in 0..graph.feature_count() {
        features.insert_if(node, is_of_set(graph, packages, node));
    }
    Ok(features)
}

fn is_of_set(graph: &FeatureGraph<'_>, packages: &PackageSet<'_>, node: usize) -> bool
    requires within { node < length (feature_graph_of graph.now).nodes }
    requires same { ids_of packages.now.graph.packages
        ≡ ids_of (feature_graph_of graph.now).rows.packages }
    ensures { IsTrue result ↔ IsOfSet (feature_graph_of graph.now) packages.now.included node }
{
    let id = graph.built().feature_at(node);
    match packages.contains(id.package_id()) {
        Ok(answer) => answer,
        Err(_) => false,
    }
}

//! Asking a callback about each feature of a set.

ghost use Rattle.std.specs.Prelude.{◌≡◌, ◌↔◌, ℕ, ◌<◌, Bool, List, true, Contains, IfOk, IsTrue, OnErr, length};
ghost use Rattle.numbered_graph.specs.Sets.{has};
ghost use Rattle.guppy_feature_graph.specs.Filters.{AreAsked, AsksFeature};
ghost use Rattle.guppy_feature_graph.specs.Views.{feature_graph_of};

use crate::feature_graph::FeatureGraph;
use crate::feature_set::FeatureSet;
use guppy_feature_views::FeatureMetadata;
use guppy_package_graph::DependencyDirection;
use numbered_graph::NodeSet;
use std::alloc::{AllocError, Global};

/// The numbers of the features for which the callback gives the first answer, and of those for which it
/// gives the second. All memory is taken before it is asked.
pub(crate) fn choose<'g, A: PartialEq + Copy, F: FnMut(FeatureMetadata<'g>) -> A>(
    alloc: Global,
    set: &FeatureSet<'g>,
    direction: DependencyDirection,
    callback: &mut F,
    first: A,
    second: A,
) -> Result<(NodeSet, NodeSet), AllocError>
    requires callable { F.IsAlwaysCallable callback.old }
    requires told { (a b : A) → IsTrue (A.eq a b) ↔ (a ≡ b) }
    ensures ok { IfOk result
        (λ parts. (asked : List (ℕ × A))
        × AreAsked F.FnMut set.now direction callback.old asked callback.new
        × ((v : ℕ) → IsTrue (has parts.0 v) ↔ Contains asked (v, first))
        × ((v : ℕ) → IsTrue (has parts.1 v) ↔ Contains asked (v, second))) }
    ensures sized { IfOk result (λ parts. (length parts.0 ≡ length set.now.graph.nodes)
        × (length parts.1 ≡ length set.now.graph.nodes)) }
    ensures err { OnErr result (callback.new ≡ callback.old) }
{
    let graph = set.graph();
    let mut firsts = NodeSet::none(alloc, graph.feature_count())?;
    let mut seconds = NodeSet::none(alloc, graph.feature_count())?;
    let mut nodes = set.listed(direction);
    while let Some(node) = nodes.next() {
        let answer = ask_about(callback, graph, node);
        firsts.insert_if(node, answer == first);
        seconds.insert_if(node, answer == second);
    }
    Ok((firsts, seconds))
}

/// The numbers of the features that the callback accepts. All memory is taken before it is asked.
pub(crate) fn choose_accepted<'g, F: FnMut(FeatureMetadata<'g>) -> bool>(
    alloc: Global,
    set: &FeatureSet<'g>,
    direction: DependencyDirection,
    callback: &mut F,
) -> Result<NodeSet, AllocError>
    requires { F.IsAlwaysCallable callback.old }
    ensures ok { IfOk result
        (λ kept. (asked : List (ℕ × Bool))
        × AreAsked F.FnMut set.now direction callback.old asked callback.new
        × ((v : ℕ) → IsTrue (has kept v) ↔ Contains asked (v, true))) }
    ensures sized { IfOk result (λ kept. length kept ≡ length set.now.graph.nodes) }
    ensures err { OnErr result (callback.new ≡ callback.old) }
{
    let graph = set.graph();
    let mut kept = NodeSet::none(alloc, graph.feature_count())?;
    let mut nodes = set.listed(direction);
    while let Some(node) = nodes.next() {
        let answer = ask_about(callback, graph, node);
        kept.insert_if(node, answer);
    }
    Ok(kept)
}

fn ask_about<'g, A, F: FnMut(FeatureMetadata<'g>) -> A>(
    callback: &mut F,
    graph: &FeatureGraph<'g>,
    node: usize,
) -> A
    requires callable { F.IsAlwaysCallable callback.old }
    requires within { node < length (feature_graph_of graph.now).nodes }
    ensures asks { AsksFeature F.FnMut (feature_graph_of graph.now) callback.old node result
        callback.new }
    ensures callable { F.IsAlwaysCallable callback.new }
{
    callback(FeatureMetadata::at(graph.built(), node))
}
